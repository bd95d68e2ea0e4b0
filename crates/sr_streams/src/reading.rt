//! Reading messages.

ghost use Rattle.std.specs.Prelude.{◌≡◌, Some, None, MatchOption};
ghost use Rattle.sr_frame.specs.View.{fields_of};
ghost use Rattle.sr_streams.specs.Messages.{apdu, to_numbers, goose_counter, goose, sampled_counter, asdu, first_asdu, sampled, payload_says, frame_says};
ghost use Rattle.sr_streams.specs.Views.{said};

use crate::elements::{behind, behind_any, element, name_front, number_front, two_octets};
use crate::message::{Counter, Message};
use sr_frame::FrameView;

/// The type of a GOOSE (IEC 61850-8-1).
pub const GOOSE_ETHERTYPE: u16 = 0x88B8;

/// The type of sampled values (IEC 61850-9-2).
pub const SV_ETHERTYPE: u16 = 0x88BA;

/// The type of an HSR tag (IEC 62439-3, clause 5).
const HSR_ETHERTYPE: u16 = 0x892F;

/// The octets of APPID, length and two words that are reserved.
const APDU_AT: usize = 8;

/// The octets of path, size and number in an HSR tag.
const HSR_WORDS_LEN: usize = 4;

/// The APDU with this tag in a payload.
fn apdu(payload: &[u8], tag: u8) -> Option<&[u8]>
    ensures { MatchOption result (apdu tag payload.now ≡ None)
        (λ r. apdu tag payload.now ≡ Some r.now) }
{
    let (_, octets) = payload.split_first_chunk::<APDU_AT>()?;
    let (content, _) = element(octets, tag)?;
    Some(content)
}

/// What stands behind the elements before the numbers of a GOOSE.
fn to_numbers(octets: &[u8]) -> Option<&[u8]>
    ensures { MatchOption result (to_numbers octets.now ≡ None)
        (λ r. to_numbers octets.now ≡ Some r.now) }
{
    let octets = behind(octets, 0x81)?;
    let octets = behind(octets, 0x82)?;
    let octets = behind_any(octets, 0x83)?;
    behind(octets, 0x84)
}

/// The numbers of a GOOSE.
fn goose_counter(octets: &[u8]) -> Option<Counter>
    ensures { result ≡ goose_counter octets.now }
{
    let (st_num, octets) = number_front(octets, 0x85)?;
    let (sq_num, _) = number_front(octets, 0x86)?;
    Some(Counter::Goose { st_num, sq_num })
}

/// What a GOOSE says.
fn goose(octets: &[u8]) -> Option<Message<'_>>
    ensures { MatchOption result (goose octets.now ≡ None)
        (λ r. goose octets.now ≡ Some (said r)) }
{
    let (name, octets) = name_front(octets, 0x80)?;
    let octets = to_numbers(octets)?;
    let counter = goose_counter(octets)?;
    Some(Message { name, counter })
}

/// The number of the first sample, in a message of so many.
fn sampled_counter(octets: &[u8], asdus: u16) -> Option<Counter>
    ensures { result ≡ sampled_counter asdus octets.now }
{
    let octets = behind_any(octets, 0x81)?;
    let (count, _) = number_front(octets, 0x82)?;
    let smp_cnt = u16::try_from(count).ok()?;
    Some(Counter::Sampled { smp_cnt, asdus })
}

/// What an ASDU says, in a message of so many.
fn asdu(octets: &[u8], asdus: u16) -> Option<Message<'_>>
    ensures { MatchOption result (asdu asdus octets.now ≡ None)
        (λ r. asdu asdus octets.now ≡ Some (said r)) }
{
    let (name, octets) = name_front(octets, 0x80)?;
    let counter = sampled_counter(octets, asdus)?;
    Some(Message { name, counter })
}

/// The first ASDU.
fn first_asdu(octets: &[u8]) -> Option<&[u8]>
    ensures { MatchOption result (first_asdu octets.now ≡ None)
        (λ r. first_asdu octets.now ≡ Some r.now) }
{
    let octets = behind_any(octets, 0x81)?;
    let (sequence, _) = element(octets, 0xA2)?;
    let (content, _) = element(sequence, 0x30)?;
    Some(content)
}

/// What sampled values say.
fn sampled(octets: &[u8]) -> Option<Message<'_>>
    ensures { MatchOption result (sampled octets.now ≡ None)
        (λ r. sampled octets.now ≡ Some (said r)) }
{
    let (count, octets) = number_front(octets, 0x80)?;
    let asdus = u16::try_from(count).ok()?;
    if asdus == 0 {
        return None;
    }
    let content = first_asdu(octets)?;
    asdu(content, asdus)
}

/// What a payload of this type says.
fn payload_says(ethertype: u16, payload: &[u8]) -> Option<Message<'_>>
    ensures { MatchOption result (payload_says ethertype payload.now ≡ None)
        (λ r. payload_says ethertype payload.now ≡ Some (said r)) }
{
    match ethertype {
        GOOSE_ETHERTYPE => goose(apdu(payload, 0x61)?),
        SV_ETHERTYPE => sampled(apdu(payload, 0x60)?),
        _ => None,
    }
}

/// What a frame says of a stream, if it is a GOOSE or a message of sampled values: as such, or behind an HSR tag. Takes no memory.
///
/// `None` for another type, and where what stands in front of the numbers is not spelled as IEC 61850-8-1 or 9-2 says: an element is missing
/// or cut short, has another form of length, a name has over 129 octets, a number does not fit. What stands behind them is not looked at, nor
/// the length in front of the APDU.
pub fn read<'a>(frame: &FrameView<'a>) -> Option<Message<'a>>
    // Its fields, exactly where it is one.
    ensures { MatchOption result (frame_says (fields_of frame.now) ≡ None)
        (λ r. frame_says (fields_of frame.now) ≡ Some (said r)) }
{
    if frame.ethertype != HSR_ETHERTYPE {
        return payload_says(frame.ethertype, frame.payload);
    }
    let (_, tagged) = frame.payload.split_first_chunk::<HSR_WORDS_LEN>()?;
    let (ethertype, payload) = two_octets(tagged)?;
    payload_says(ethertype, payload)
}
