//! The calls. Each function keeps to itself what it owns, and answers whether all was as it had to be, or None where an
//! allocation failed: a frame or a list that a test held would make its proof long.

use super::steps::{Cut, Saying, Tagging, Trailing};
use super::texts::{Text, is_text, joined};
use sr_frame::{Frame, FrameFault, Mac, append, view};
use sr_hsr_tag::{TagFault, UntagFault, tagged, untagged, untagged_view};
use sr_prp_trailer::{Lan, StripFault, appended, stripped};
use sr_sequence::Seq;
use sr_supervision::{SupFault, Supervision, is_supervision, write};
use std::alloc::Global;

/// What a call on a view of octets comes to; false where they are no frame.
pub fn is_viewed(alloc: Global, text: Text, fault: Option<FrameFault>) -> Option<bool> {
    let octets = joined(alloc, &[text])?;
    Some(view(&octets).err() == fault)
}

/// Whether a view of octets has these addresses, VLAN and EtherType, this payload, and these lengths of header and all.
pub fn has_fields(
    alloc: Global,
    text: Text,
    names: (Mac, Mac, Option<u16>, u16),
    payload: Text,
    lengths: (usize, usize),
) -> Option<bool> {
    let octets = joined(alloc, &[text])?;
    let Ok(fields) = view(&octets) else {
        return Some(false);
    };
    let are_same = (fields.dst, fields.src, fields.vlan, fields.ethertype) == names
        && (fields.header_len(), fields.frame_len()) == lengths;
    Some(are_same && is_text(alloc, fields.payload, &[payload])?)
}

fn is_cloned(alloc: Global, frame: &Frame, ethertype: u16) -> Option<bool> {
    let other = frame.try_clone(alloc).ok()?;
    Some(other == *frame && other.octets() == frame.octets() && other.view().ethertype == ethertype)
}

/// A list to which nothing could be appended stays empty.
fn is_put_in_a_list(alloc: Global, frame: &Frame) -> Option<bool> {
    let mut list = Vec::new(alloc);
    match append(&mut list, &frame.view()) {
        Ok(()) => Some(list.as_slice() == frame.octets()),
        Err(_) if list.is_empty() => None,
        Err(_) => Some(false),
    }
}

/// Whether octets are copied into a frame of their own, which can be cloned and put into a list.
pub fn is_copied(alloc: Global, text: Text, ethertype: u16) -> Option<bool> {
    let octets = joined(alloc, &[text])?;
    match Frame::copy(alloc, &octets) {
        Err(FrameFault::NoMemory) => None,
        Err(_) => Some(false),
        Ok(frame) => Some(
            frame.octets() == octets.as_slice()
                && is_cloned(alloc, &frame, ethertype)?
                && is_put_in_a_list(alloc, &frame)?,
        ),
    }
}

/// Whether an address is shown so, and is one of a group or not.
pub fn is_shown(alloc: Global, mac: Mac, wanted: &str, is_group: bool) -> Option<bool> {
    let text = mac.to_string(alloc).ok()?;
    Some(text.as_str() == wanted && mac.is_group() == is_group)
}

/// What taking off the trailer comes to: the plain frame where there is one, and else `NoTrailer`.
fn is_stripped(alloc: Global, octets: &[u8], plain: Text, is_there: bool) -> Option<bool> {
    let Ok(frame) = view(octets) else {
        return Some(false);
    };
    match stripped(alloc, &frame) {
        Err(StripFault::NoMemory) => None,
        Err(StripFault::NoTrailer) => Some(!is_there),
        Ok(own) => Some(is_there && is_text(alloc, own.octets(), &[plain])?),
    }
}

/// Whether octets have this trailer or none, and are the plain ones without it.
pub fn has_trailer(
    alloc: Global,
    plain: Text,
    last: Text,
    trailer: Option<Trailing>,
) -> Option<bool> {
    let octets = joined(alloc, &[plain, last])?;
    let Ok(frame) = view(&octets) else {
        return Some(false);
    };
    let found = sr_prp_trailer::read(&frame).map(|found| (found.seq.0, found.lan, found.size));
    if found != trailer {
        return Some(false);
    }
    is_stripped(alloc, &octets, plain, trailer.is_some())
}

/// Whether a frame gets a trailer so, or is too long for one.
pub fn is_appended(
    alloc: Global,
    given: Text,
    seq: u16,
    lan: Lan,
    wanted: Option<(Text, Text)>,
) -> Option<bool> {
    let octets = joined(alloc, &[given])?;
    let Ok(frame) = view(&octets) else {
        return Some(false);
    };
    match appended(alloc, &frame, Seq(seq), lan) {
        Err(FrameFault::NoMemory) => None,
        Err(FrameFault::TooLong) => Some(wanted.is_none()),
        Err(FrameFault::TooShort) => Some(false),
        Ok(own) => match wanted {
            Some((plain, last)) => is_text(alloc, own.octets(), &[plain, last]),
            None => Some(false),
        },
    }
}

/// What taking out the tag comes to.
fn takes_tag_out(
    alloc: Global,
    octets: &[u8],
    wanted: Result<(Text, Text), UntagFault>,
) -> Option<bool> {
    let Ok(frame) = view(octets) else {
        return Some(false);
    };
    match untagged(alloc, &frame) {
        Err(UntagFault::NoMemory) => None,
        Err(fault) => Some(wanted.err() == Some(fault)),
        Ok(own) => match wanted {
            Ok((before, behind)) => is_text(alloc, own.octets(), &[before, behind]),
            Err(_) => Some(false),
        },
    }
}

/// What reading the tag comes to; None where the octets are no frame.
fn tag_of(octets: &[u8]) -> Option<Result<Tagging, TagFault>> {
    let frame = view(octets).ok()?;
    Some(sr_hsr_tag::read(&frame).map(|tag| (tag.path, tag.size, tag.seq.0, tag.inner)))
}

/// Whether a ring frame without its tag is the plain one.
pub fn is_untagged(
    alloc: Global,
    before: Text,
    tag: Text,
    behind: Text,
    says: Tagging,
) -> Option<bool> {
    let octets = joined(alloc, &[before, tag, behind])?;
    if tag_of(&octets) != Some(Ok(says)) {
        return Some(false);
    }
    takes_tag_out(alloc, &octets, Ok((before, behind)))
}

/// Whether octets are refused as a ring frame so.
pub fn is_not_untagged(
    alloc: Global,
    text: Text,
    says: Result<Tagging, TagFault>,
    fault: UntagFault,
) -> Option<bool> {
    let octets = joined(alloc, &[text])?;
    if tag_of(&octets) != Some(says) {
        return Some(false);
    }
    takes_tag_out(alloc, &octets, Err(fault))
}

/// What becomes of the first octets of a frame.
fn cut_of(alloc: Global, octets: &[u8]) -> Option<Option<Cut>> {
    let frame = match view(octets) {
        Err(FrameFault::TooShort) => return Some(Some(Cut::NoFrame)),
        Err(_) => return Some(None),
        Ok(frame) => frame,
    };
    match untagged(alloc, &frame) {
        Err(UntagFault::NoMemory) => None,
        Err(UntagFault::Truncated) => Some(Some(Cut::Truncated)),
        Err(_) => Some(None),
        Ok(own) if octets.len().checked_sub(own.octets().len()) == Some(6) => Some(Some(
            Cut::Untagged,
        )),
        Ok(_) => Some(None),
    }
}

/// Whether each beginning of octets, of these lengths, is refused or read so.
pub fn are_cut(alloc: Global, text: Text, from: usize, to: usize, cut: Cut) -> Option<bool> {
    let octets = joined(alloc, &[text])?;
    for len in from..to {
        if len > octets.len() || cut_of(alloc, &octets[..len])? != Some(cut) {
            return Some(false);
        }
    }
    Some(true)
}

/// Whether the view of a ring frame without its tag has these fields.
pub fn has_untagged_view(
    alloc: Global,
    text: Text,
    names: (Option<u16>, u16),
    payload: Text,
) -> Option<bool> {
    let octets = joined(alloc, &[text])?;
    let Ok(frame) = view(&octets) else {
        return Some(false);
    };
    match untagged_view(&frame) {
        Ok((plain, _)) => Some(
            (plain.vlan, plain.ethertype) == names && is_text(alloc, plain.payload, &[payload])?,
        ),
        Err(_) => Some(false),
    }
}

/// Whether a plain frame gets this tag, or is refused.
pub fn is_tagged(
    alloc: Global,
    before: Text,
    plain: Text,
    (path, seq): (u8, u16),
    wanted: Option<Text>,
) -> Option<bool> {
    let octets = joined(alloc, &[before, plain])?;
    let Ok(frame) = view(&octets) else {
        return Some(false);
    };
    if path >= 16 {
        return Some(false);
    }
    match tagged(alloc, &frame, path, Seq(seq)) {
        Err(FrameFault::NoMemory) => None,
        Err(FrameFault::TooLong) => Some(wanted.is_none()),
        Err(FrameFault::TooShort) => Some(false),
        Ok(own) => match wanted {
            Some(behind) => is_text(alloc, own.octets(), &[before, behind]),
            None => Some(false),
        },
    }
}

/// Whether octets are read as supervision that says this, or are none.
pub fn is_said(
    alloc: Global,
    head: Text,
    payload: Text,
    said: Result<Saying, SupFault>,
) -> Option<bool> {
    let octets = joined(alloc, &[head, payload])?;
    let Ok(frame) = view(&octets) else {
        return Some(false);
    };
    let is_addressed = said != Err(SupFault::NotSupervision);
    let read = sr_supervision::read(&frame).map(|found| (
        found.seq.0,
        found.life,
        found.mac,
        found.redbox,
    ));
    Some(is_supervision(&frame) == is_addressed && read == said)
}

fn supervision_of(saying: Saying) -> Supervision {
    let (seq, life, mac, redbox) = saying;
    Supervision {
        seq: Seq(seq),
        life,
        mac,
        redbox,
    }
}

/// Whether supervision is written so.
pub fn is_written(alloc: Global, saying: Saying, head: Text, payload: Text) -> Option<bool> {
    let own = write(alloc, &supervision_of(saying)).ok()?;
    is_text(alloc, own.octets(), &[head, payload])
}

/// Whether supervision goes out so on a LAN, with its trailer.
pub fn is_sent(alloc: Global, saying: Saying, seq: u16, lan: Lan, text: Text) -> Option<bool> {
    let own = write(alloc, &supervision_of(saying)).ok()?;
    match appended(alloc, &own.view(), Seq(seq), lan) {
        Err(FrameFault::NoMemory) => None,
        Err(_) => Some(false),
        Ok(sent) => is_text(alloc, sent.octets(), &[text]),
    }
}
