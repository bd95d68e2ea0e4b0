//! Faults of LANs and of a ring, in words.

use crate::teller::Teller;
use sr_audit::{Side, Sides};
use sr_page::{Count, Seconds, Weight, open_finding, put_advice, put_named, put_since, word_for};
use sr_verdict::{Cut, Names, Neighbour, Place, Share, Verdict};
use std::io::{self, Write};

/// Says how many more sources there are.
fn put_more<W: Write>(writer: &mut W, more: u64) -> io::Result<()> {
    if more == 0 {
        return Ok(());
    }
    let more = Count(more);
    write!(writer, " and {more} more")
}

/// Names the first sources that something is told of, and says how many more there are.
fn put_names<W: Write>(writer: &mut W, teller: Teller<'_>, own: Names) -> io::Result<()> {
    put_named(writer, teller.names, own.first)?;
    put_named(writer, teller.names, own.second)?;
    put_named(writer, teller.names, own.third)?;
    put_more(writer, own.more)
}

/// Writes where the first sources that something is told of first lost frames on a LAN.
fn put_all_lost<W: Write>(
    writer: &mut W,
    teller: Teller<'_>,
    lan: Side,
    own: Names,
) -> io::Result<()> {
    teller.put_lost(writer, lan, own.first)?;
    teller.put_lost(writer, lan, own.second)?;
    teller.put_lost(writer, lan, own.third)
}

/// Writes where copies of the first sources that something is told of first had the other LAN's id.
fn put_all_astray<W: Write>(
    writer: &mut W,
    teller: Teller<'_>,
    lan: Side,
    own: Names,
) -> io::Result<()> {
    teller.put_astray(writer, lan, own.first)?;
    teller.put_astray(writer, lan, own.second)?;
    teller.put_astray(writer, lan, own.third)
}

/// Tells of frames that a LAN lost.
pub(crate) fn put_loss<W: Write>(
    writer: &mut W,
    teller: Teller<'_>,
    weight: Weight,
    lan: Side,
    share: Share,
) -> io::Result<()> {
    let (lost, brought) = (Count(share.frames), Count(share.brought));
    let (own, other) = (teller.lan_of(Some(lan)), teller.lan_of(Some(lan.other())));
    open_finding(writer, weight, "loss")?;
    write!(
        writer,
        "{own} lost {lost} of {brought} frames that {other} brought of these sources:"
    )?;
    put_names(writer, teller, share.names)?;
    let advice = teller.topology.either(
        "Look at a switch or link that these sources share; <code>--list lost</code> has each frame",
        "Look at a node or link of the ring that these sources share; <code>--list lost</code> has each frame",
    );
    put_advice(writer, advice)?;
    put_all_lost(writer, teller, lan, share.names)
}

/// Names the source next to the cut of a ring, or the recorder where there is none.
fn put_end<W: Write>(writer: &mut W, teller: Teller<'_>, end: Option<Neighbour>) -> io::Result<()> {
    match end {
        Some(neighbour) => put_named(writer, teller.names, Some(neighbour.mac)),
        None => write!(writer, " the recorder"),
    }
}

/// Tells between which sources a ring is cut, if that is known.
fn put_place<W: Write>(writer: &mut W, teller: Teller<'_>, place: Place) -> io::Result<()> {
    if place.at_a.is_none() && place.at_b.is_none() {
        return Ok(());
    }
    write!(writer, ", between")?;
    put_end(writer, teller, place.at_a)?;
    write!(writer, " and")?;
    put_end(writer, teller, place.at_b)
}

/// Tells when the last frame came by one way alone before a ring was mended, if it was.
fn put_until<W: Write>(writer: &mut W, until: Option<u64>) -> io::Result<()> {
    match until {
        Some(until) => {
            let until = Seconds(until);
            write!(writer, " until {until}")
        }
        None => Ok(()),
    }
}

/// Tells of a cut of a ring.
fn put_cut<W: Write>(writer: &mut W, teller: Teller<'_>, cut: Cut, place: Place) -> io::Result<()> {
    let (a, b, frames) = (Count(cut.at_a), Count(cut.at_b), Count(cut.frames));
    let (is, are) = match cut.until {
        Some(_) => ("was", "were"),
        None => ("is", "are"),
    };
    open_finding(writer, Weight::Fault, "cut ring")?;
    write!(
        writer,
        "The ring {is} cut: of the sources that {are} heard by one way alone, {a} {are} by A and {b} by B, with {frames} frames"
    )?;
    put_since(writer, cut.since)?;
    put_until(writer, cut.until)?;
    put_place(writer, teller, place)?;
    let advice = match cut.until {
        Some(_) => "Look why the link between the sources of A and those of B was down",
        None => "Mend the link between the sources of A and those of B",
    };
    put_advice(writer, advice)
}

/// Tells of copies by both LANs that have the id of the other one.
fn put_crossed<W: Write>(
    writer: &mut W,
    teller: Teller<'_>,
    sides: Sides,
    own: Names,
) -> io::Result<()> {
    let (a, b) = (Count(sides.a), Count(sides.b));
    open_finding(writer, Weight::Grave, "crossed")?;
    write!(
        writer,
        "{a} copies by LAN A and {b} by LAN B have the id of the other one:"
    )?;
    put_names(writer, teller, own)?;
    put_advice(
        writer,
        "Swap the cables of these sources at their two ports",
    )?;
    put_all_astray(writer, teller, Side::A, own)?;
    put_all_astray(writer, teller, Side::B, own)
}

/// Tells of copies by one LAN that have the id of the other one.
fn put_wrong_lan<W: Write>(
    writer: &mut W,
    teller: Teller<'_>,
    lan: Option<Side>,
    copies: u64,
    own: Names,
) -> io::Result<()> {
    let (count, word, at) = (
        Count(copies),
        word_for(copies, "copy", "copies"),
        teller.lan_of(lan),
    );
    open_finding(writer, Weight::Fault, "wrong LAN")?;
    write!(
        writer,
        "{count} {word} by {at} with the id of the other LAN:"
    )?;
    put_names(writer, teller, own)?;
    put_advice(
        writer,
        "Look where the LANs are joined, or cables are crossed at one end; <code>--list wrong</code> has each frame",
    )?;
    match lan {
        Some(lan) => put_all_astray(writer, teller, lan, own),
        None => Ok(()),
    }
}

/// Tells of frames whose trailer is none.
fn put_misfit<W: Write>(
    writer: &mut W,
    teller: Teller<'_>,
    lan: Option<Side>,
    frames: u64,
) -> io::Result<()> {
    let (count, at) = (Count(frames), teller.lan_of(lan));
    open_finding(writer, Weight::Fault, "misfit")?;
    write!(
        writer,
        "Frames of {at} that end as those with a trailer, which is none: {count}"
    )?;
    put_advice(
        writer,
        "Look at what changes frames on their way, and at <code>--fcs 4</code>",
    )
}

/// Tells of a fault of a LAN, or of a ring.
pub(crate) fn put_lans<W: Write>(
    writer: &mut W,
    teller: Teller<'_>,
    verdict: &Verdict,
) -> io::Result<()> {
    match *verdict {
        Verdict::Loss(lan, share, _) => put_loss(writer, teller, Weight::Fault, lan, share),
        Verdict::CutRing(cut, place) => put_cut(writer, teller, cut, place),
        Verdict::Crossed(sides, own) => put_crossed(writer, teller, sides, own),
        Verdict::WrongLan(lan, copies, own) => put_wrong_lan(writer, teller, lan, copies, own),
        Verdict::Misfit(lan, frames) => put_misfit(writer, teller, lan, frames),
        _ => open_finding(writer, Weight::Fault, "other"),
    }
}
