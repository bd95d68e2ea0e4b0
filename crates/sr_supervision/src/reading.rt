//! Reading supervision.

ghost use Rattle.std.specs.Prelude.{◌≡◌, ◌≢◌, ◌↔◌, ◌⊎◌, ◌<◌, ◌≤◌, ◌++◌, List, ℕ, length, IsTrue, IsNone, IfSome, IfNone, IfOk, IsErrOf, MatchResult};
ghost use Rattle.std.specs.Int.{w16, to_be_bytes};
ghost use Rattle.sr_frame.specs.Frame.{spelling};
ghost use Rattle.sr_frame.specs.View.{fields_of};
ghost use Rattle.sr_supervision.specs.Supervised.{IsAddressed, IsSupervision, IsFirstTlv, Starts, HasOtherVersion, HasOtherFirst, EndsEarly, life_type};
ghost use Rattle.sr_supervision.specs.Refused.{FirstRefused, Means};
ghost use Rattle.sr_supervision.specs.declared.message.Life.{Life};
ghost use Rattle.sr_supervision.specs.declared.message.Supervision.{Supervision};

use crate::fault::SupFault;
use crate::message::{Life, Supervision};
use crate::tlv::{
    BOTH_MACS_LEN, HSR_ANNOUNCE, HSR_LIFE_CHECK, MAC_LEN, PRP_LIFE_CHECK_DA, PRP_LIFE_CHECK_DD,
    first_redbox,
};
use sr_frame::{FrameView, Mac};
use sr_sequence::Seq;

/// The group address that supervision frames go to (IEC 62439-3, clauses 4 and 5).
pub const SUPERVISION: Mac = Mac([0x01, 0x15, 0x4E, 0x00, 0x01, 0x00]);

/// The type of a supervision frame (IEC 62439-3, clauses 4 and 5).
pub const PRP_ETHERTYPE: u16 = 0x88FB;

/// The greatest version that is read.
const MAX_VERSION: u16 = 1;

/// Whether destination and type, after a VLAN tag if any, are those of supervision.
///
/// Such a frame is routed as supervision even where [`read`] refuses what it says (choice of this project).
pub fn is_supervision(frame: &FrameView<'_>) -> bool
    ensures { IsTrue result ↔ IsAddressed (fields_of frame.now) }
{
    frame.dst == SUPERVISION && frame.ethertype == PRP_ETHERTYPE
}

/// Path and version, and the number.
fn word_and_seq(octets: &[u8; 4]) -> (u16, Seq)
    ensures { octets.now ≡ to_be_bytes w16 result.0 ++ to_be_bytes w16 result.1.0 }
{
    let [word_high, word_low, seq_high, seq_low] = *octets;
    let word = u16::from_be_bytes([word_high, word_low]);
    let seq = u16::from_be_bytes([seq_high, seq_low]);
    (word, Seq(seq))
}

/// The version, the number, and the octets behind them.
fn start(payload: &[u8]) -> Option<(u16, Seq, &[u8])>
    ensures short { IsNone result ↔ (length payload.now < 4) }
    ensures found { IfSome result (λ r. Starts payload.now r.0 r.1.0 r.2.now) }
{
    let (front, behind) = payload.split_first_chunk::<4>()?;
    let (word, seq) = word_and_seq(front);
    Some((word % 4096, seq, behind))
}

fn life_of(kind: u8) -> Option<Life>
    ensures some { IfSome result (λ life. life_type life ≡ kind) }
    ensures none { IfNone result ((life : Life) → life_type life ≢ kind) }
{
    match kind {
        PRP_LIFE_CHECK_DD => Some(Life::PrpDiscard),
        PRP_LIFE_CHECK_DA => Some(Life::PrpAccept),
        HSR_ANNOUNCE => Some(Life::Announce),
        HSR_LIFE_CHECK => Some(Life::Hsr),
        _ => None,
    }
}

/// Whether a first TLV may have this length.
fn is_first_len(len: u8) -> bool
    ensures { IsTrue result ↔ ((len ≡ 6) ⊎ (len ≡ 12)) }
{
    len == MAC_LEN || len == BOTH_MACS_LEN
}

/// What the first TLV says, and the octets behind it.
fn first_tlv(octets: &[u8]) -> Result<(Life, Mac, &[u8]), SupFault>
    ensures { MatchResult result (λ r. IsFirstTlv octets.now r.0 r.1 r.2.now)
        (FirstRefused octets.now) }
{
    let Some((head, behind)) = octets.split_first_chunk::<2>() else {
        return Err(SupFault::Truncated);
    };
    let [kind, len] = *head;
    let Some(life) = life_of(kind) else {
        return Err(SupFault::FirstTlv);
    };
    if !is_first_len(len) {
        return Err(SupFault::FirstTlv);
    }
    let Some((value, rest)) = behind.split_at_checked(usize::from(len)) else {
        return Err(SupFault::Truncated);
    };
    let mac = value.first_chunk::<6>().unwrap();
    Ok((life, Mac(*mac), rest))
}

/// What a supervision frame's payload says.
fn content(payload: &[u8]) -> Result<Supervision, SupFault>
    ensures { Means payload.now result }
{
    let Some((version, seq, behind)) = start(payload) else {
        return Err(SupFault::Truncated);
    };
    if version > MAX_VERSION {
        return Err(SupFault::Version);
    }
    let (life, mac, rest) = first_tlv(behind)?;
    let redbox = first_redbox(rest)?;
    Ok(Supervision {
        seq,
        life,
        mac,
        redbox,
    })
}

/// What a supervision frame says. Takes no memory.
///
/// The first TLV, of type 20 to 23 and length 6 or 12, begins with the node's address. Of later TLVs the first
/// of type 30 and length 6 is the RedBox's address; all others are skipped. A type of 0 ends the list, and so does
/// the end of the payload behind a TLV (choice of this project).
///
/// The first fault of this order is answered: `NotSupervision` for another destination or type, `Truncated`
/// where the version and number are cut short, `Version` for one above 1, `Truncated` where no TLV follows,
/// `FirstTlv` for another type or length of it, `Truncated` where a TLV runs past the end.
// speed: D-node-inlined
#[inline(always)]
pub fn read(frame: &FrameView<'_>) -> Result<Supervision, SupFault>
    // What is read is spelled so, and what is spelled so is read.
    ensures found { IfOk result (λ s. IsSupervision (spelling (fields_of frame.now)) s) }
    ensures only { (s : Supervision) → IsSupervision (spelling (fields_of frame.now)) s
        → result ≡ Ok s }

    // Each fault exactly where it is due.
    ensures not_supervision { IsErrOf result SupFault.NotSupervision
        ↔ (¬ IsAddressed (fields_of frame.now)) }
    ensures version { IsErrOf result SupFault.Version
        ↔ (IsAddressed (fields_of frame.now) × HasOtherVersion frame.now.payload.now) }
    ensures first_tlv { IsErrOf result SupFault.FirstTlv
        ↔ (IsAddressed (fields_of frame.now) × HasOtherFirst frame.now.payload.now) }
    ensures truncated { IsErrOf result SupFault.Truncated
        ↔ (IsAddressed (fields_of frame.now) × EndsEarly frame.now.payload.now) }
{
    if !is_supervision(frame) {
        return Err(SupFault::NotSupervision);
    }
    content(frame.payload)
}
