//! The TLVs of a supervision frame.

ghost use Rattle.std.specs.Prelude.{◌≡◌, ◌≢◌, ◌∷◌, ◌++◌, List, ℕ, length, IfOk, IfErr, IfSome, IfNone, MatchResult, MatchOption};
ghost use Rattle.sr_supervision.specs.Tlvs.{IsTlvs, RunsPast, redbox_in};

use crate::fault::SupFault;
use sr_frame::Mac;

/// The type that ends the list.
pub const END_OF_TLVS: u8 = 0;

/// The type of a PRP node that discards duplicates.
pub const PRP_LIFE_CHECK_DD: u8 = 20;

/// The type of a PRP node that accepts duplicates.
pub const PRP_LIFE_CHECK_DA: u8 = 21;

/// The type of an announcement.
pub const HSR_ANNOUNCE: u8 = 22;

/// The type of an HSR node.
pub const HSR_LIFE_CHECK: u8 = 23;

/// The type of a RedBox's address.
pub const REDBOX_MAC: u8 = 30;

/// The length of a TLV with one address.
pub const MAC_LEN: u8 = 6;

/// The length of a first TLV with the addresses of both ports.
pub const BOTH_MACS_LEN: u8 = 12;

/// A TLV: its type and its value.
#[derive(Clone, Copy, Debug)]
struct Tlv<'a> {
    kind: u8,
    value: &'a [u8],
}

/// The address in it, where it is that of a RedBox.
fn redbox_of(tlv: &Tlv<'_>) -> Option<Mac>
    ensures { result ≡ redbox_in tlv.now.kind tlv.now.value.now }
{
    if tlv.kind != REDBOX_MAC {
        return None;
    }
    let mac = <[u8; 6]>::try_from(tlv.value).ok()?;
    Some(Mac(mac))
}

/// The TLV at the front and what stands behind it, or `None` at the end of the list.
fn next_tlv(octets: &[u8]) -> Result<Option<(Tlv<'_>, &[u8])>, SupFault>
    ensures tlv { IfOk result (λ next. IfSome next (λ r. (r.0.kind ≢ 0)
        × (octets.now ≡ r.0.kind ∷ length r.0.value.now ∷ r.0.value.now ++ r.1.now))) }
    ensures end { IfOk result (λ next. IfNone next (IsTlvs octets.now None)) }
    ensures past { IfErr result (λ e. (e ≡ SupFault.Truncated) × RunsPast octets.now) }
{
    let Some((kind, after)) = octets.split_first() else {
        return Ok(None);
    };
    if *kind == END_OF_TLVS {
        return Ok(None);
    }
    let Some((len, after)) = after.split_first() else {
        return Err(SupFault::Truncated);
    };
    let Some((value, rest)) = after.split_at_checked(usize::from(*len)) else {
        return Err(SupFault::Truncated);
    };
    Ok(Some((Tlv { kind: *kind, value }, rest)))
}

/// The first RedBox in a list of TLVs.
pub fn first_redbox(octets: &[u8]) -> Result<Option<Mac>, SupFault>
    ensures { MatchResult result (λ redbox. IsTlvs octets.now redbox) (λ e.
        (e ≡ SupFault.Truncated) × RunsPast octets.now) }
{
    let mut rest = octets;
    let mut redbox = None;
    while let Some((tlv, behind)) = next_tlv(rest)? {
        redbox = redbox.or(redbox_of(&tlv));
        rest = behind;
    }
    Ok(redbox)
}
