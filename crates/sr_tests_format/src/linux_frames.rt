//! What Linux nodes sent, read by every framing, and its plain form written and read again by all three.

use super::captured::{TAGGED, TRAILED, Tagged, Trailed};
use super::framings::{At, Seen, all_three, read_at};
use super::texts::append_text;
use sr_forwarding::{Form, MAX_PLAIN_LEN, ReadFault};
use sr_prp_trailer::Lan;
use std::alloc::Global;

/// The frame of the ring that came by this path.
fn tagged(alloc: Global, row: Tagged, path: u8) -> Option<Vec<u8>> {
    let (head, vlan, size, seq, rest) = row;
    let mut octets = Vec::new(alloc);
    octets.extend_from_slice(head).ok()?;
    octets.extend_from_slice(vlan).ok()?;
    octets.extend_from_slice(&[0x89, 0x2f]).ok()?;
    octets
        .extend_from_slice(&(size % 4096 + u16::from(path % 16) * 4096).to_be_bytes())
        .ok()?;
    octets.extend_from_slice(&seq.to_be_bytes()).ok()?;
    append_text(&mut octets, rest).ok()?;
    Some(octets)
}

/// That frame without its tag.
fn untagged(alloc: Global, row: Tagged) -> Option<Vec<u8>> {
    let (head, vlan, _, _, rest) = row;
    let mut octets = Vec::new(alloc);
    octets.extend_from_slice(head).ok()?;
    octets.extend_from_slice(vlan).ok()?;
    append_text(&mut octets, rest).ok()?;
    Some(octets)
}

/// The frame of this LAN, and how many octets stand before its trailer.
fn trailed(alloc: Global, row: Trailed, lan: Lan) -> Option<Vec<u8>> {
    let (_, _, size, seq) = row;
    let id: u16 = match lan {
        Lan::A => 0xa000,
        Lan::B => 0xb000,
    };
    let mut octets = stripped(alloc, row)?;
    octets.extend_from_slice(&seq.to_be_bytes()).ok()?;
    octets
        .extend_from_slice(&(size % 4096 + id).to_be_bytes())
        .ok()?;
    octets.extend_from_slice(&[0x88, 0xfb]).ok()?;
    Some(octets)
}

/// That frame without its trailer.
fn stripped(alloc: Global, row: Trailed) -> Option<Vec<u8>> {
    let (head, rest, _, _) = row;
    let mut octets = Vec::new(alloc);
    octets.extend_from_slice(head).ok()?;
    append_text(&mut octets, rest).ok()?;
    Some(octets)
}

/// Whether a frame of the ring is read as it is by its own framing, and by the others as these say.
fn reads_tagged(alloc: Global, row: Tagged, path: u8) -> Option<bool> {
    let octets = tagged(alloc, row, path)?;
    let plain = untagged(alloc, row)?;
    let (_, _, _, seq, _) = row;
    let unnumbered = Seen::Parcel(Form::Plain, None, 0, false);
    Some(
        read_at(alloc, At::Hsr(9), &octets, &plain)
            == Seen::Parcel(Form::Hsr, Some(seq), path, false)
            && read_at(alloc, At::Plain, &octets, &octets) == unnumbered
            && read_at(alloc, At::Prp(Lan::A, 0), &octets, &octets) == unnumbered
            && read_at(alloc, At::Prp(Lan::A, 1), &octets, &octets)
                == Seen::Refused(ReadFault::Untagged)
            && all_three(alloc, &plain).ok()?,
    )
}

/// All framings read a frame of a LAN as they should. A ring's framing refuses it, but the one whose type is that of a tag.
fn reads_trailed(alloc: Global, row: Trailed, lan: Lan, other: Lan) -> Option<bool> {
    let octets = trailed(alloc, row, lan)?;
    let plain = stripped(alloc, row)?;
    let (_, _, _, seq) = row;
    let own = match lan {
        Lan::A => 0,
        Lan::B => 1,
    };
    let long = octets.len() > MAX_PLAIN_LEN;
    let by_plain = read_at(alloc, At::Plain, &octets, &octets);
    let by_ring = read_at(alloc, At::Hsr(0), &octets, &plain);
    Some(
        read_at(alloc, At::Prp(lan, 0), &octets, &plain)
            == Seen::Parcel(Form::Prp, Some(seq), own, false)
            && read_at(alloc, At::Prp(other, 2), &octets, &plain)
                == Seen::Parcel(Form::Prp, Some(seq), 5 - own, true)
            && (by_plain == Seen::Parcel(Form::Plain, None, 0, false)) != long
            && (by_ring == Seen::Refused(ReadFault::Untagged)) != (by_ring == Seen::OtherPlain)
            && all_three(alloc, &plain).ok()?,
    )
}

/// The place of the first frame of the ring that is read otherwise.
fn first_tagged(alloc: Global) -> Option<usize> {
    for (place, row) in TAGGED.iter().enumerate() {
        if reads_tagged(alloc, *row, 0) != Some(true)
            || reads_tagged(alloc, *row, 1) != Some(true)
        {
            return Some(place);
        }
    }
    None
}

/// The place of the first frame of the LANs that is read otherwise.
fn first_trailed(alloc: Global) -> Option<usize> {
    for (place, row) in TRAILED.iter().enumerate() {
        if reads_trailed(alloc, *row, Lan::A, Lan::B) != Some(true)
            || reads_trailed(alloc, *row, Lan::B, Lan::A) != Some(true)
        {
            return Some(place);
        }
    }
    None
}

#[test]
fn frames_of_a_linux_hsr_node(rt: HostRuntime) {
    assert_eq!(rt; first_tagged(rt.alloc()), None);
}

#[test]
fn frames_of_a_linux_prp_node(rt: HostRuntime) {
    assert_eq!(rt; first_trailed(rt.alloc()), None);
}
