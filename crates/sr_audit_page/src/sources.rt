//! Faults of sources, in words.

use crate::faults::put_lans;
use crate::teller::{Teller, first_of, put_numbers};
use crate::told::{begin, end, end_since};
use sr_audit::{Row, Side, Sides};
use sr_frame::Mac;
use sr_page::{Count, Seconds, Skew, Weight, word_for};
use sr_sources::Tail;
use sr_verdict::Verdict;
use std::io::{self, Write};

/// Tells which of the frames that no LAN brought were the first, if that is known.
fn put_first_lost<W: Write>(writer: &mut W, teller: Teller<'_>, mac: Mac) -> io::Result<()> {
    let Some(traced) = teller.traced_of(mac) else {
        return Ok(());
    };
    let Some(stretch) = first_of(&traced.both) else {
        return Ok(());
    };
    let since = Seconds(stretch.since);
    write!(writer, ", first at {since}, ")?;
    put_numbers(writer, stretch.first, stretch.last)
}

/// Tells of frames that no LAN brought.
pub(crate) fn put_both_lost<W: Write>(
    writer: &mut W,
    teller: Teller<'_>,
    weight: Weight,
    mac: Mac,
    frames: u64,
) -> io::Result<()> {
    let (count, word) = (Count(frames), word_for(frames, "frame", "frames"));
    begin(writer, teller, weight, "lost on both", mac)?;
    let way = teller.topology.either("LAN", "way");
    write!(
        writer,
        "{count} {word} came by neither {way}, and reached no receiver"
    )?;
    put_first_lost(writer, teller, mac)?;
    end(
        writer,
        mac,
        "Look at what both paths share: the sender, its power, a switch",
    )
}

/// Tells of a source that has two senders.
fn put_two_senders<W: Write>(
    writer: &mut W,
    teller: Teller<'_>,
    mac: Mac,
    time: u64,
) -> io::Result<()> {
    begin(writer, teller, Weight::Grave, "two senders", mac)?;
    write!(writer, "its numbers are those of two senders")?;
    end_since(
        writer,
        mac,
        time,
        "Give one of the two nodes an address of its own",
    )
}

/// Tells of a source that one LAN does not bring any more.
fn put_dead_port<W: Write>(
    writer: &mut W,
    teller: Teller<'_>,
    mac: Mac,
    row: Row,
) -> io::Result<()> {
    let frames = Count(row.frames);
    let (own, other) = (
        teller.lan_of(Some(row.side)),
        teller.lan_of(Some(row.side.other())),
    );
    begin(writer, teller, Weight::Fault, "one LAN", mac)?;
    write!(
        writer,
        "it is heard by {own} alone; {frames} frames in a row were lost on {other}"
    )?;
    end_since(
        writer,
        mac,
        row.since,
        "Look at its port and cable at the LAN that does not bring it",
    )
}

/// Tells of a source that has lost its redundancy.
fn put_lost_redundancy<W: Write>(
    writer: &mut W,
    teller: Teller<'_>,
    mac: Mac,
    lan: Option<Side>,
    tail: Tail,
) -> io::Result<()> {
    let (frames, at) = (Count(tail.frames), teller.lan_of(lan));
    begin(writer, teller, Weight::Fault, "no redundancy", mac)?;
    write!(
        writer,
        "its frames at {at} had numbers, and then {frames} had none"
    )?;
    let advice = "Ask what changed at it: its mode, or what stands in its place";
    match tail.since {
        Some(time) => end_since(writer, mac, time, advice),
        None => end(writer, mac, advice),
    }
}

/// Tells of copies that came before.
fn put_repeated<W: Write>(
    writer: &mut W,
    teller: Teller<'_>,
    mac: Mac,
    sides: Sides,
) -> io::Result<()> {
    let (a, b) = (Count(sides.a), Count(sides.b));
    let (of_a, of_b) = (teller.lan_of(Some(Side::A)), teller.lan_of(Some(Side::B)));
    begin(writer, teller, Weight::Fault, "repeated", mac)?;
    write!(
        writer,
        "{a} copies by {of_a} and {b} by {of_b} came behind an earlier one"
    )?;
    end(
        writer,
        mac,
        "Look for a loop, or a recorder that sees a frame twice",
    )
}

/// Tells of copies that came far apart.
fn put_late<W: Write>(writer: &mut W, teller: Teller<'_>, mac: Mac, pairs: u64) -> io::Result<()> {
    let (count, word) = (Count(pairs), word_for(pairs, "pair", "pairs"));
    begin(writer, teller, Weight::Fault, "too late", mac)?;
    write!(
        writer,
        "{count} {word} 400 ms or more apart: a receiver takes the second copy for a new frame"
    )?;
    end(
        writer,
        mac,
        "Look at queues on one path, and at the recorders' clocks",
    )
}

/// Tells of copies that came further apart than a limit allows.
fn put_skew<W: Write>(
    writer: &mut W,
    teller: Teller<'_>,
    mac: Mac,
    skew: i128,
    most: u64,
) -> io::Result<()> {
    let (skew, most) = (Skew(Some(skew)), Count(most));
    begin(writer, teller, Weight::Fault, "skew", mac)?;
    write!(
        writer,
        "the skew of a pair of its copies was {skew}, and {most}\u{a0}µs are allowed"
    )?;
    end(
        writer,
        mac,
        "Look at queues on one path, and at <code>--max-skew-us</code>",
    )
}

/// Tells of a fault.
pub(crate) fn put_fault<W: Write>(
    writer: &mut W,
    teller: Teller<'_>,
    verdict: &Verdict,
) -> io::Result<()> {
    match *verdict {
        Verdict::BothLost(mac, frames) => {
            put_both_lost(writer, teller, Weight::Grave, mac, frames)
        }
        Verdict::TwoSenders(mac, time) => put_two_senders(writer, teller, mac, time),
        Verdict::DeadPort(mac, row) => put_dead_port(writer, teller, mac, row),
        Verdict::LostRedundancy(mac, lan, tail) => {
            put_lost_redundancy(writer, teller, mac, lan, tail)
        }
        Verdict::Repeated(mac, sides) => put_repeated(writer, teller, mac, sides),
        Verdict::Late(mac, pairs) => put_late(writer, teller, mac, pairs),
        Verdict::Skew(mac, skew, most) => put_skew(writer, teller, mac, skew, most),
        _ => put_lans(writer, teller, verdict),
    }
}
