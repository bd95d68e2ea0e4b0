//! Alarms, and their lines.

use crate::rows::{Field, Format, Value, bare, named, print_row};
use sr_audit::Side;
use sr_dates::Moment;
use sr_frame::Mac;
use sr_watch::{Alarm, LanAlarm, Note, SourceAlarm};
use std::io::{self, Write};

/// What an alarm is of.
#[derive(Clone, Copy, Debug, PartialEq, Eq)]
pub enum Raised {
    /// A source.
    Source(Mac, SourceAlarm),
    /// The capture of a LAN.
    Lan(Side, LanAlarm),
}

/// The word of an alarm of a source.
fn source_word(alarm: SourceAlarm) -> &'static str {
    match alarm {
        SourceAlarm::LanLostA | SourceAlarm::LanLostB => "lan_lost",
        SourceAlarm::Silent => "silent",
        SourceAlarm::Skew => "skew",
        SourceAlarm::LostA | SourceAlarm::LostB => "lost",
    }
}

/// The word of an alarm of a capture.
fn lan_word(alarm: LanAlarm) -> &'static str {
    match alarm {
        LanAlarm::LanSilent => "lan_silent",
        LanAlarm::CaptureEnded => "capture_ended",
        LanAlarm::Behind => "behind",
        LanAlarm::Full => "full",
    }
}

/// The LAN of an alarm of a source. None: it is of both.
fn lan_of(alarm: SourceAlarm) -> Option<Side> {
    match alarm {
        SourceAlarm::LanLostA | SourceAlarm::LostA => Some(Side::A),
        SourceAlarm::LanLostB | SourceAlarm::LostB => Some(Side::B),
        SourceAlarm::Silent | SourceAlarm::Skew => None,
    }
}

impl Raised {
    /// Its word.
    pub(crate) fn word(self) -> &'static str {
        match self {
            Raised::Source(_, alarm) => source_word(alarm),
            Raised::Lan(_, alarm) => lan_word(alarm),
        }
    }

    /// The LAN that it is of. None: it is of a source as a whole.
    pub(crate) fn lan(self) -> Option<Side> {
        match self {
            Raised::Source(_, alarm) => lan_of(alarm),
            Raised::Lan(side, _) => Some(side),
        }
    }

    /// The source that it is of. None: it is of a capture.
    pub fn source(self) -> Option<Mac> {
        match self {
            Raised::Source(mac, _) => Some(mac),
            Raised::Lan(_, _) => None,
        }
    }
}

/// Whether it begins or is over.
fn note_word(note: Note) -> &'static str {
    match note {
        Note::Raised => "raised",
        Note::Cleared => "cleared",
    }
}

/// The letter of a LAN.
fn letter_of(side: Side) -> &'static str {
    match side {
        Side::A => "A",
        Side::B => "B",
    }
}

/// The values behind the state of an alarm.
fn print_behind<W: Write>(
    writer: &mut W,
    format: Format,
    head: &[Field],
    begin: [Field; 2],
    of: Raised,
    since: Field,
) -> io::Result<()> {
    let [alarm, state] = begin;
    let lan = of
        .lan()
        .map(|side| bare("lan", Value::Word(letter_of(side))));
    let source = of.source().map(|mac| bare("source", Value::Mac(mac)));
    match (lan, source) {
        (Some(lan), Some(source)) => {
            print_row(
                writer,
                format,
                "alarm",
                head,
                &[alarm, state, lan, source, since],
            )
        }
        (Some(lan), None) => print_row(writer, format, "alarm", head, &[alarm, state, lan, since]),
        (None, Some(source)) => {
            print_row(
                writer,
                format,
                "alarm",
                head,
                &[alarm, state, source, since],
            )
        }
        (None, None) => print_row(writer, format, "alarm", head, &[alarm, state, since]),
    }
}

/// Prints the line of an alarm.
///
/// # Errors
/// Where the writer fails.
pub fn print_alarm<W: Write>(
    writer: &mut W,
    format: Format,
    at: Moment,
    of: Raised,
    alarm: &Alarm,
) -> io::Result<()> {
    let head = [named("at", Value::At(at))];
    let begin = [
        bare("alarm", Value::Word(of.word())),
        bare("state", Value::Word(note_word(alarm.note))),
    ];
    let since = named("since", Value::At(Moment(alarm.since)));
    print_behind(writer, format, &head, begin, of, since)
}
