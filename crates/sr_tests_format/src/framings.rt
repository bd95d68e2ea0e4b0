//! Framings of the ports: what they read, and what they write and read again.

use sr_forwarding::{
    Form, Framing, HsrFraming, MAX_NET, Parcel, PlainFraming, PrpFraming, ReadFault,
};
use sr_frame::{Frame, append};
use sr_prp_trailer::Lan;
use sr_sequence::Seq;
use std::alloc::{AllocError, Global};

/// The framing of a port.
#[derive(Clone, Copy)]
pub enum At {
    Hsr(u8),
    Prp(Lan, u8),
    Plain,
}

/// What octets are read as.
#[derive(Clone, Copy, PartialEq, Eq)]
pub enum Seen {
    /// A parcel in this form with this number, path and mark of a wrong LAN.
    Parcel(Form, Option<u16>, u8, bool),
    Refused(ReadFault),
    /// A parcel whose plain form, copy, or octets for a host are other ones.
    OtherPlain,
}

fn number_of(seq: Option<Seq>) -> Option<u16> {
    match seq {
        Some(Seq(number)) => Some(number),
        None => None,
    }
}

// Whether a parcel has an equal copy.
fn is_cloned(alloc: Global, parcel: &Parcel) -> Result<bool, ReadFault> {
    let own = parcel.try_clone(alloc)?;
    Ok(own == *parcel)
}

// Whether the plain form of a parcel is copied whole.
fn is_copied_plain(alloc: Global, parcel: &Parcel, plain: &[u8]) -> Result<bool, ReadFault> {
    let own = parcel.view().to_plain_parcel(alloc)?;
    Ok(own.octets() == plain)
}

// Whether it goes up to a host whole, with nothing behind it.
fn goes_up(alloc: Global, parcel: &Parcel, plain: &[u8]) -> Result<bool, ReadFault> {
    let sent = PlainFraming.encode(alloc, parcel)?;
    Ok(sent.octets() == plain)
}

/// What a framing reads, and whether the plain form is this one.
fn read_by(
    framing: &dyn Framing,
    alloc: Global,
    octets: &[u8],
    plain: &[u8],
) -> Result<Seen, ReadFault> {
    let parcel = framing.decode(alloc, octets)?;
    let mut own = Vec::new(alloc);
    append(&mut own, &parcel.plain())?;
    if own.as_slice() != plain {
        return Ok(Seen::OtherPlain);
    }
    if !(is_cloned(alloc, &parcel)?
        && is_copied_plain(alloc, &parcel, plain)?
        && goes_up(alloc, &parcel, plain)?)
    {
        return Ok(Seen::OtherPlain);
    }
    Ok(Seen::Parcel(
        parcel.form(),
        number_of(parcel.seq()),
        parcel.path(),
        parcel.wrong_lan(),
    ))
}

/// What is read at a port.
pub fn read_at(alloc: Global, at: At, octets: &[u8], plain: &[u8]) -> Seen {
    let seen = match at {
        At::Hsr(path) => read_by(&HsrFraming { path: path % 16 }, alloc, octets, plain),
        At::Prp(lan, net) => read_by(
            &PrpFraming {
                lan,
                net: net.min(MAX_NET),
            },
            alloc,
            octets,
            plain,
        ),
        At::Plain => read_by(&PlainFraming, alloc, octets, plain),
    };
    match seen {
        Ok(seen) => seen,
        Err(fault) => Seen::Refused(fault),
    }
}

/// A plain parcel of these octets under a number, written at a port and read there again, is this frame with that number.
fn comes_back(
    framing: &dyn Framing,
    alloc: Global,
    plain: &[u8],
    again: &[u8],
    seen: Seen,
) -> Result<bool, ReadFault> {
    let parcel = Parcel::plain_with(frame_of(alloc, plain)?, Some(Seq(7)));
    let octets = framing.encode(alloc, &parcel)?;
    Ok(read_by(framing, alloc, octets.octets(), again)? == seen)
}

fn frame_of(alloc: Global, octets: &[u8]) -> Result<Frame, ReadFault> {
    match Frame::copy(alloc, octets) {
        Ok(frame) => Ok(frame),
        Err(_) => Err(ReadFault::NoMemory),
    }
}

/// The frame with zeros up to 60 octets, or 64 with a VLAN tag.
fn padded(alloc: Global, plain: &[u8]) -> Result<Vec<u8>, AllocError> {
    let least = match plain {
        [_, _, _, _, _, _, _, _, _, _, _, _, 0x81, 0, ..] => 64,
        _ => 60,
    };
    let mut octets = Vec::new(alloc);
    octets.extend_from_slice(plain)?;
    for _ in plain.len()..least {
        octets.push(0)?;
    }
    Ok(octets)
}

/// Whether a plain frame is written by all three framings and read again: padded, but where it was plain before.
pub fn all_three(alloc: Global, plain: &[u8]) -> Result<bool, ReadFault> {
    let Ok(again) = padded(alloc, plain) else {
        return Err(ReadFault::NoMemory);
    };
    let ring = HsrFraming { path: 1 };
    let lan = PrpFraming {
        lan: Lan::B,
        net: 3,
    };
    let by_ring = Seen::Parcel(Form::Hsr, Some(7), 1, false);
    let by_lan = Seen::Parcel(Form::Prp, Some(7), 7, false);
    let by_plain = Seen::Parcel(Form::Plain, None, 0, false);
    Ok(
        comes_back(&ring, alloc, plain, &again, by_ring)?
            && comes_back(&lan, alloc, plain, &again, by_lan)?
            && comes_back(&PlainFraming, alloc, plain, plain, by_plain)?,
    )
}
