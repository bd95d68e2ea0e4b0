//! Reading a frame's fields.

ghost use Rattle.std.specs.Prelude.{◌≡◌, ◌≢◌, ◌↔◌, ◌<◌, ◌≤◌, ◌++◌, length, IsNone, IfSome, IfOk, IsErrOf, IsOkAnd};
ghost use Rattle.std.specs.Int.{w16, to_be_bytes};
ghost use Rattle.sr_frame.specs.Frame.{Fields, IsFrame, least_len};
ghost use Rattle.sr_frame.specs.View.{fields_of};

use crate::fault::FrameFault;
use crate::fields::{FrameView, MAX_FRAME_LEN, Mac, VLAN_ETHERTYPE};

/// The address at the front, and what follows it.
fn mac_front(octets: &[u8]) -> Option<(Mac, &[u8])>
    ensures short { IsNone result ↔ (length octets.now < 6) }
    ensures front { IfSome result (λ r. octets.now ≡ r.0.0 ++ r.1.now) }
{
    let (front, rest) = octets.split_first_chunk::<6>()?;
    Some((Mac(*front), rest))
}

/// The big-endian number at the front, and what follows it.
fn number_front(octets: &[u8]) -> Option<(u16, &[u8])>
    ensures short { IsNone result ↔ (length octets.now < 2) }
    ensures front { IfSome result (λ r. octets.now ≡ to_be_bytes w16 r.0 ++ r.1.now) }
{
    let (front, rest) = octets.split_first_chunk::<2>()?;
    Some((u16::from_be_bytes(*front), rest))
}

/// The fields, where there are octets enough for them.
fn fields_front(octets: &[u8]) -> Option<FrameView<'_>>
    requires { length octets.now ≤ 1524 }
    ensures found { IfSome result (λ v. IsFrame octets.now (fields_of v)) }
    ensures short { IsNone result ↔ (length octets.now < least_len octets.now) }
{
    let (dst, rest) = mac_front(octets)?;
    let (src, rest) = mac_front(rest)?;
    let (ethertype, rest) = number_front(rest)?;
    if ethertype != VLAN_ETHERTYPE {
        return Some(FrameView {
            dst,
            src,
            vlan: None,
            ethertype,
            payload: rest,
        });
    }
    let (control, rest) = number_front(rest)?;
    let (ethertype, payload) = number_front(rest)?;
    Some(FrameView {
        dst,
        src,
        vlan: Some(control),
        ethertype,
        payload,
    })
}

/// The fields of the frame that the octets are, read in place: takes no memory.
///
/// `TooShort` below 14 octets, or below 18 where a VLAN tag stands behind the addresses; `TooLong` over 1524.
/// Every other list of octets is a frame.
pub fn view(octets: &[u8]) -> Result<FrameView<'_>, FrameFault>
    // What is read is spelled so, and what is spelled so is read.
    ensures found { IfOk result (λ v. IsFrame octets.now (fields_of v)) }
    ensures only { (f : Fields) → IsFrame octets.now f → IsOkAnd result (λ v. fields_of v ≡ f) }

    // Each fault exactly where it is due.
    ensures short { IsErrOf result FrameFault.TooShort
        ↔ (length octets.now < least_len octets.now) }
    ensures long { IsErrOf result FrameFault.TooLong ↔ (MAX_FRAME_LEN < length octets.now) }
    ensures no_memory { result ≢ Err FrameFault.NoMemory }
{
    if octets.len() > MAX_FRAME_LEN {
        return Err(FrameFault::TooLong);
    }
    let Some(fields) = fields_front(octets) else {
        return Err(FrameFault::TooShort);
    };
    Ok(fields)
}
