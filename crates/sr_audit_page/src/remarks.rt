//! Remarks, which decide nothing, in words.

use crate::faults::put_loss;
use crate::sources::put_both_lost;
use crate::teller::Teller;
use crate::told::{begin, end, end_since};
use sr_audit::Side;
use sr_frame::Mac;
use sr_page::{Count, Skew, Weight, open_finding, put_advice, word_for};
use sr_sources::Second;
use sr_verdict::Verdict;
use std::io::{self, Write};

/// Tells of packets that a recorder dropped.
fn put_dropped<W: Write>(
    writer: &mut W,
    teller: Teller<'_>,
    lan: Option<Side>,
    packets: u64,
) -> io::Result<()> {
    let (count, word, at) = (
        Count(packets),
        word_for(packets, "packet", "packets"),
        teller.lan_of(lan),
    );
    open_finding(writer, Weight::Remark, "dropped")?;
    write!(writer, "The recorder at {at} dropped {count} {word}")?;
    put_advice(writer, "Give it a larger buffer or a faster disk")
}

/// Tells of numbers that began anew.
fn put_restart<W: Write>(
    writer: &mut W,
    teller: Teller<'_>,
    mac: Mac,
    times: u64,
) -> io::Result<()> {
    let (count, word) = (Count(times), word_for(times, "time", "times"));
    begin(writer, teller, Weight::Remark, "restart", mac)?;
    write!(writer, "its numbers began anew {count} {word}")?;
    end(writer, mac, "Ask whether it was started anew")
}

/// Tells of a source that has many frames in a second.
fn put_babbling<W: Write>(
    writer: &mut W,
    teller: Teller<'_>,
    mac: Mac,
    second: Second,
) -> io::Result<()> {
    let frames = Count(second.frames);
    begin(writer, teller, Weight::Remark, "babbling", mac)?;
    write!(
        writer,
        "{frames} frames in a second, and far fewer in most of them"
    )?;
    end_since(
        writer,
        mac,
        second.since,
        "Ask what it sends, and limit it at its switch port",
    )
}

/// Tells of numbers that may have gone past no recorder.
fn put_unseen<W: Write>(
    writer: &mut W,
    teller: Teller<'_>,
    mac: Mac,
    numbers: u64,
) -> io::Result<()> {
    let (count, word) = (Count(numbers), word_for(numbers, "number", "numbers"));
    begin(writer, teller, Weight::Remark, "unseen", mac)?;
    write!(writer, "{count} {word} may have gone past no recorder")?;
    end(
        writer,
        mac,
        "Record at mirror ports, or say <code>--complete</code> where both see all",
    )
}

/// Tells of a source without redundancy.
fn put_san<W: Write>(
    writer: &mut W,
    teller: Teller<'_>,
    mac: Mac,
    lan: Option<Side>,
    frames: u64,
) -> io::Result<()> {
    let (count, word, at) = (
        Count(frames),
        word_for(frames, "frame", "frames"),
        teller.lan_of(lan),
    );
    begin(writer, teller, Weight::Remark, "single", mac)?;
    write!(
        writer,
        "{count} {word} at {at} alone, none of which has a number"
    )?;
    end(
        writer,
        mac,
        "Put it behind a RedBox if both ways are to reach it",
    )
}

/// Tells of a clock that was put right.
fn put_clock<W: Write>(writer: &mut W, ahead: i128) -> io::Result<()> {
    let ahead = Skew(Some(ahead));
    open_finding(writer, Weight::Remark, "clock")?;
    write!(
        writer,
        "The clock of B was {ahead} ahead of that of A, and was put right"
    )?;
    put_advice(writer, "Set both recorders by one clock")
}

/// Tells of a remark.
pub(crate) fn put_remark<W: Write>(
    writer: &mut W,
    teller: Teller<'_>,
    verdict: &Verdict,
) -> io::Result<()> {
    match *verdict {
        Verdict::BothLostWithin(mac, frames) => {
            put_both_lost(writer, teller, Weight::Remark, mac, frames)
        }
        Verdict::LossWithin(lan, share, _) => {
            put_loss(writer, teller, Weight::Remark, lan, share)
        }
        Verdict::RecorderDropped(lan, packets) => put_dropped(writer, teller, lan, packets),
        Verdict::Restart(mac, times) => put_restart(writer, teller, mac, times),
        Verdict::Babbling(mac, second) => put_babbling(writer, teller, mac, second),
        Verdict::Unseen(mac, numbers) => put_unseen(writer, teller, mac, numbers),
        Verdict::San(mac, lan, frames) => put_san(writer, teller, mac, lan, frames),
        Verdict::Clock(ahead) => put_clock(writer, ahead),
        _ => open_finding(writer, Weight::Remark, "other"),
    }
}
