//! Allocations that fail, one at a time.

use sr_forwarding::{Framing, HsrFraming, Parcel, PlainFraming, PrpFraming, ReadFault};
use sr_prp_trailer::Lan;
use std::alloc::Global;

/// A frame of the ring.
const RING_FRAME: &[u8] =
    b"\x02\x00\x00\x00\x00\x01\x02\x00\x00\x00\x00\x02\x89\x2f\x00\x34\x00\x05\x08\x00\x00\x00\x00\x00\x00\x00\x00\x00\x00\x00\x00\x00\x00\x00\x00\x00\x00\x00\x00\x00\x00\x00\x00\x00\x00\x00\x00\x00\x00\x00\x00\x00\x00\x00\x00\x00\x00\x00\x00\x00\x00\x00\x00\x00\x00\x00";

/// Its parcel, also where an allocation fails once.
fn ring_parcel(alloc: Global) -> Option<Parcel> {
    let ring = HsrFraming { path: 0 };
    match ring.decode(alloc, RING_FRAME) {
        Ok(parcel) => Some(parcel),
        Err(ReadFault::NoMemory) => ring.decode(alloc, RING_FRAME).ok(),
        Err(_) => None,
    }
}

/// Whether a parcel has an equal copy, also where an allocation fails once.
fn has_copy(alloc: Global, parcel: &Parcel) -> bool {
    match parcel.try_clone(alloc) {
        Ok(copy) => copy == *parcel,
        Err(_) => parcel.try_clone(alloc).is_ok(),
    }
}

/// Whether a parcel is written behind what a list has. Where an allocation fails once, the list stays as it was.
fn goes_behind(framing: &dyn Framing, out: &mut Vec<u8>, parcel: &Parcel) -> bool {
    let before = out.len();
    match framing.write(out, &parcel.view()) {
        Ok(()) => out.len() > before,
        Err(ReadFault::NoMemory) => out.len() == before
            && framing.write(out, &parcel.view()).is_ok(),
        Err(_) => false,
    }
}

/// Whether a parcel is written twice by a framing.
fn goes_out(alloc: Global, framing: &dyn Framing, parcel: &Parcel) -> bool {
    let mut out = Vec::new(alloc);
    goes_behind(framing, &mut out, parcel) && goes_behind(framing, &mut out, parcel)
}

/// Whether all calls that allocate do their work, also where an allocation fails once.
fn survives(alloc: Global) -> Option<bool> {
    let parcel = ring_parcel(alloc)?;
    let lan = PrpFraming {
        lan: Lan::A,
        net: 1,
    };
    Some(
        has_copy(alloc, &parcel)
            && goes_out(alloc, &HsrFraming { path: 0 }, &parcel)
            && goes_out(alloc, &lan, &parcel)
            && goes_out(alloc, &PlainFraming, &parcel),
    )
}

#[test]
fn refused_allocations(rt: HostRuntime) {
    assert_eq!(rt; survives(rt.alloc()), Some(true));
}
