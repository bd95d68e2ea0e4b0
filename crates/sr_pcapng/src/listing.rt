//! The interfaces of a section that are Ethernet, where there is more than one and none was named.

ghost use Rattle.std.specs.Prelude.{◌≡◌, ◌≤◌, length, IfOk, IfErr};
ghost use Rattle.sr_capture.specs.declared.fault.Reason.TheVariants.{NoMemory};
ghost use Rattle.sr_pcapng.specs.Listing.{listed_by, after_description, Lists, LacksMemory, TellsAll};

use crate::block::{Kind, kind_of, take_block};
use crate::interface::{ETHERNET, MIN_LEN};
use crate::track::Section;
use sr_capture::{ByteOrder, Listed, Reason, half_at};
use std::io::BufRead;

/// The interfaces that are listed, and how many were described.
#[derive(Clone, Copy)]
pub(crate) struct Listing {
    pub listed: u64,
    pub count: u32,
}

/// A list behind the description of an interface.
fn after_description(order: ByteOrder, octets: &[u8], listing: Listing) -> Listing
    requires { 20 ≤ length octets.now }
    ensures { result ≡ after_description order octets.now listing }
{
    let is_ethernet = half_at(order, octets, 8) == ETHERNET;
    Listing {
        listed: if is_ethernet {
            Listed(listing.listed).with(listing.count).0
        } else {
            listing.listed
        },
        count: listing.count.saturating_add(1),
    }
}

/// A list behind a block. None where another section begins, and where a description is too short.
fn listed_by(kind: Kind, order: ByteOrder, octets: &[u8], listing: Listing) -> Option<Listing>
    ensures { result ≡ listed_by kind order octets.now listing }
{
    match kind {
        Kind::Section => None,
        Kind::Interface => {
            if octets.len() < MIN_LEN {
                return None;
            }
            Some(after_description(order, octets, listing))
        }
        Kind::Enhanced | Kind::Obsolete | Kind::Simple | Kind::Statistics | Kind::Other => {
            Some(listing)
        }
    }
}

/// Lists what is Ethernet in the rest of a section, as far as it can be read. `block` is used for it.
///
/// # Errors
/// `NoMemory`, where a block could not be kept. What stands behind a block that can't be read for another reason is out of
/// reach of any run, and is not listed.
fn list_rest<R: BufRead>(
    reader: &mut R,
    order: ByteOrder,
    start: Listing,
    block: &mut Vec<u8>,
) -> Result<u64, Reason>
    ensures listed { IfOk result (λ listed.
        Lists order start listed (R.remaining reader.old) (R.remaining reader.new)) }
    ensures refused { IfErr result (λ reason. (reason ≡ NoMemory)
        × LacksMemory order start (R.remaining reader.old) (R.remaining reader.new)) }
{
    let mut listing = start;
    'rest: for _ in 0..u64::MAX {
        let own = match take_block(reader, Some(order), block) {
            Ok(Some(own)) => own,
            Ok(None) => return Ok(listing.listed),
            Err(fault) => {
                return match fault.reason {
                    Reason::NoMemory => Err(Reason::NoMemory),
                    _ => Ok(listing.listed),
                };
            }
        };
        match listed_by(kind_of(own, block), own, block, listing) {
            Some(next) => listing = next,
            None => return Ok(listing.listed),
        }
    }
    Ok(listing.listed)
}

/// The reason that is told for what is wrong with a block of a section: where it describes a second interface that is
/// Ethernet, all that are, or that an allocation failed for the list. `block` is used for it.
pub(crate) fn told<R: BufRead>(
    reader: &mut R,
    section: Option<Section>,
    own: Reason,
    block: &mut Vec<u8>,
) -> Reason
    ensures { TellsAll section own result (R.remaining reader.old) (R.remaining reader.new) }
{
    match (section, own) {
        (Some(section), Reason::Several(two)) => {
            let start = Listing {
                listed: two.0,
                count: section.count.saturating_add(1),
            };
            match list_rest(reader, section.order, start, block) {
                Ok(listed) => Reason::Several(Listed(listed)),
                Err(lack) => lack,
            }
        }
        _ => own,
    }
}
