//! Lists of single frames and copies.

use crate::fates::Fates;
use crate::flows::Flows;
use crate::kind::{Kind, kind_of};
use crate::network::{Ports, Subject, letter_of};
use crate::rows::{Field, Format, Value, bare, count, named, print_names, print_row};
use crate::timing::put_right;
use sr_audit::{Arrival, Copied, Listed, Side, Spans};
use sr_capture::Packet;
use sr_capture_script::{Captures, Choice, Pass, Place, ScriptFault, pass_over};
use sr_frame::Mac;
use sr_sequence::Seq;
use sr_slots::Keys;
use std::alloc::Global;
use std::io::{BufRead, Write};

/// What is listed.
#[derive(Clone, Copy, Debug, PartialEq, Eq)]
pub struct Lists {
    /// Frames that came by one side alone.
    pub lost: bool,
    /// Copies whose trailer names the other LAN.
    pub wrong: bool,
    /// Frames that came by both sides.
    pub pairs: bool,
}

impl Lists {
    /// Nothing is listed.
    pub const NONE: Lists = Lists {
        lost: false,
        wrong: false,
        pairs: false,
    };

    /// Whether something is listed.
    pub fn is_some(self) -> bool {
        self.lost || self.wrong || self.pairs
    }

    /// Whether at most one list is wanted.
    pub fn is_one_at_most(self) -> bool {
        let both = self.lost && self.wrong;
        let others = self.pairs && (self.lost || self.wrong);
        !both && !others
    }
}

/// How lists are printed.
#[derive(Clone, Copy)]
struct Style {
    format: Format,
    ports: Ports,
    lists: Lists,
    /// Whether nothing was printed before.
    is_first: bool,
}

/// The name of the capture of a side.
fn capture_of(ports: Ports, side: Side) -> &'static str {
    match ports {
        Ports::Two => letter_of(side),
        Ports::Mirror => "mirror",
    }
}

/// The line of a copy. A table has the time first.
fn copy_fields(style: Style, lan: Side, copy: Copied) -> [Field; 6] {
    let arrival = copy.arrival;
    let lan = bare("lan", Value::Word(letter_of(lan)));
    let source = bare("source", Value::Mac(copy.src));
    let number = count("number", u64::from(arrival.seq.0));
    let time = named("at", "at_ms", Value::Time(Some(arrival.time)));
    let capture = Value::Word(capture_of(style.ports, arrival.side));
    let capture = named("packet", "capture", capture);
    let packet = bare("packet", Value::Count(copy.packet));
    match style.format {
        Format::Csv => [time, source, number, lan, capture, packet],
        Format::Text | Format::Json => [lan, source, number, time, capture, packet],
    }
}

/// The line of a pair whose second copy came then. A table has the time first.
fn pair_fields(format: Format, first: Copied, second: u64) -> [Field; 4] {
    let arrival = first.arrival;
    let skew = i128::from(second) - i128::from(arrival.time);
    let source = bare("source", Value::Mac(first.src));
    let number = count("number", u64::from(arrival.seq.0));
    let time = named("at", "at_ms", Value::Time(Some(arrival.time)));
    let skew = named("skew_us", "skew_us", Value::Skew(Some(skew)));
    match format {
        Format::Csv => [time, source, number, skew],
        Format::Text | Format::Json => [source, number, time, skew],
    }
}

/// Prints the line of a frame, if it is wanted.
fn print_listed<W: Write>(writer: &mut W, style: Style, listed: Listed) -> Result<(), ScriptFault> {
    match listed {
        Listed::Lost(copy) if style.lists.lost => {
            let fields = copy_fields(style, copy.arrival.side.other(), copy);
            print_row(writer, style.format, "lost", &fields)
        }
        Listed::Pair(first, second) if style.lists.pairs => {
            let fields = pair_fields(style.format, first, second);
            print_row(writer, style.format, "pair", &fields)
        }
        _ => Ok(()),
    }
}

/// The copy of no frame, by whose line a table's names are known.
const NO_COPY: Copied = Copied {
    src: Mac([0; 6]),
    arrival: Arrival {
        side: Side::A,
        seq: Seq(0),
        time: 0,
    },
    packet: 0,
};

/// Prints the names of the table of a list.
fn print_list_names<W: Write>(writer: &mut W, style: Style) -> Result<(), ScriptFault> {
    match style.format {
        _ if !style.is_first => Ok(()),
        Format::Csv if style.lists.pairs => print_names(
            writer,
            &pair_fields(Format::Csv, NO_COPY, 0),
        ),
        Format::Csv => print_names(writer, &copy_fields(style, Side::A, NO_COPY)),
        Format::Text | Format::Json => Ok(()),
    }
}

/// Packets that are listed as they come.
#[derive(Drop)]
struct Listings<'a, W> {
    subject: Subject,
    style: Style,
    fates: Fates,
    decided: Vec<Listed>,
    writer: &'a mut W,
}

impl<W: Write> Listings<'_, W> {
    /// Prints what is decided.
    fn print(&mut self) -> Result<(), ScriptFault> {
        let Listings {
            style,
            decided,
            writer,
            ..
        } = self;
        for listed in decided.iter() {
            print_listed(*writer, *style, *listed)?;
        }
        decided.clear();
        Ok(())
    }

    /// Prints what is decided at the end of a source's arrivals.
    fn finish(&mut self, src: Mac) -> Result<(), ScriptFault> {
        self.fates.finish(src, &mut self.decided)?;
        self.print()
    }

    /// Prints what is decided of all packets.
    fn print_all<R: BufRead + Drop>(
        &mut self,
        captures: &mut Captures<R>,
        choice: &Choice,
    ) -> Result<(), ScriptFault> {
        print_list_names(self.writer, self.style)?;
        pass_over(captures, choice, self)?;
        let addresses = self.fates.addresses()?;
        for at in 0..addresses.len() {
            self.finish(addresses[at])?;
        }
        Ok(())
    }
}

impl<W: Write> Pass for Listings<'_, W> {
    ghost takes = { λ _ _ _. Unit {0} };

    ghost refuses = { λ _. Unit {0} };

    fn take(&mut self, place: Place, packet: &Packet) -> Result<(), ScriptFault> {
        let Some(tap) = self.subject.tap_at(place.inlet) else {
            return Ok(());
        };
        let Kind::Numbered(numbered) = kind_of(self.subject.network, tap, packet) else {
            return Ok(());
        };
        let place = put_right(self.subject.clock, place);
        let copy = Copied {
            src: numbered.src,
            arrival: Arrival {
                side: numbered.side,
                seq: numbered.seq,
                time: place.time,
            },
            packet: place.number,
        };
        if self.style.is_first && self.style.lists.wrong && numbered.is_astray {
            let fields = copy_fields(self.style, numbered.side, copy);
            print_row(self.writer, self.style.format, "wrong_lan", &fields)?;
        }
        self.fates.note(copy, numbered, &mut self.decided)?;
        self.print()
    }
}

/// Prints the lists of captures whose spans are known, each line as it is decided: the frames of the sources from one on, and with the
/// first source all copies with the other LAN's id. Where flows are given, frames to groups and those of flows that both captures see tell
/// what was lost, as they do in the figures; else all frames do.
///
/// # Errors
/// The fault of a file, `Write`, `NoMemory` or `Endless`.
pub fn print_lists<R: BufRead + Drop, W: Write>(
    alloc: Global,
    keys: Keys,
    captures: &mut Captures<R>,
    choice: &Choice,
    subject: Subject,
    spans: Spans,
    flows: Option<Flows>,
    first: usize,
    lists: Lists,
    format: Format,
    writer: &mut W,
) -> Result<(), ScriptFault> {
    let style = Style {
        format,
        ports: subject.ports,
        lists,
        is_first: first == 0,
    };
    let mut listings = Listings {
        subject,
        style,
        fates: Fates::new(alloc, keys, spans, flows, first),
        decided: Vec::new(alloc),
        writer,
    };
    // Let go of by `drop`, so that no proof goes through their drop code for each way out.
    let printed = listings.print_all(captures, choice);
    drop(listings);
    printed
}
