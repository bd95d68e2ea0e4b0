//! The packets of three files, printed in the order of their times.

ghost use Rattle.std.specs.Prelude.{◌≡◌, ◌+◌, ◌++◌, List, ℕ, Option, OnOk, IfErr, length, unwrap_or, ◌≢◌, [], IfOk};
ghost use Rattle.sr_capture_script.specs.Items.{Item};
ghost use Rattle.sr_capture_script.specs.SourceViews.{IsFed, IsSame, Serves, StopsServing};
ghost use Rattle.sr_capture_script.specs.Texts.{last_after};
ghost use Rattle.sr_capture_script.specs.declared.choice.Inlet.TheVariants.{A as AtA, B as AtB, C as AtC};
ghost use Rattle.sr_capture_script.specs.Picking.{IsEarliest};
ghost use Rattle.sr_capture_script.specs.Going.{Going};
ghost use Rattle.sr_capture_script.specs.Merging.{feed_of, Merges, Halts};

use crate::choice::{Choice, Inlet};
use crate::fault::ScriptFault;
use crate::packets::advance;
use crate::source::Source;
use std::io::{BufRead, Write};

mod next;
mod print;

pub(crate) use next::earliest;
pub(crate) use print::write_text;
use print::{Place, print_piece};

/// Where times are counted from, in nanoseconds, and the last time that was printed, in milliseconds.
#[derive(Clone, Copy)]
pub(crate) struct Clock {
    pub base: Option<u64>,
    pub last: Option<u64>,
}

/// Prints the packet that is due at this moment, and takes the next one. `text` is used for it.
pub(crate) fn serve<R: BufRead, W: Write>(
    source: &mut Source<R>,
    inlet: Inlet,
    moment: u64,
    clock: &mut Clock,
    choice: &Choice,
    text: &mut Vec<u8>,
    writer: &mut W,
) -> Result<(), ScriptFault>
    requires { source.old.due ≡ Some moment }
    ensures served { OnOk result ((start : Option (List ℕ)) (gone : List Item)
        → IsFed R.remaining inlet start source.old gone
        → Serves R.remaining inlet choice.now (unwrap_or clock.old.base moment) moment
        clock.old.last start gone source.new
        (W.contents writer.old) (W.contents writer.new)) }
    ensures same { IsSame source.old source.new }
    ensures clock { OnOk result ((clock.new.base ≡ Some (unwrap_or clock.old.base moment))
        × (clock.new.last
        ≡ last_after choice.now (unwrap_or clock.old.base moment) clock.old.last moment)) }
    ensures stopped { IfErr result (λ fault. StopsServing R.remaining inlet choice.now
        (unwrap_or clock.old.base moment) moment clock.old.last fault
        source.old source.new (W.contents writer.old) (W.contents writer.new)) }
{
    let base = clock.base.unwrap_or(moment);
    clock.base = Some(base);
    let place = Place {
        inlet,
        number: source.number,
        moment,
    };
    print_piece(
        text,
        choice,
        base,
        &mut clock.last,
        place,
        &source.packet,
        writer,
    )?;
    match advance(source) {
        Ok(()) => Ok(()),
        Err(fault) => Err(ScriptFault::File(inlet, fault)),
    }
}

/// Prints the packet that is due at this inlet, and takes the next one of its file.
fn serve_at<R: BufRead, W: Write>(
    a: &mut Source<R>,
    b: &mut Source<R>,
    c: &mut Source<R>,
    inlet: Inlet,
    moment: u64,
    clock: &mut Clock,
    choice: &Choice,
    text: &mut Vec<u8>,
    writer: &mut W,
) -> Result<(), ScriptFault>
    requires { IsEarliest inlet moment a.old.due b.old.due c.old.due }
    ensures goes { OnOk result ((start_a start_b start_c held : Option (List ℕ))
        → (before : Going R.remaining choice.now start_a start_b start_c a.old b.old c.old clock.old
        held (W.contents writer.old))
        → (after : Going R.remaining choice.now start_a start_b start_c a.new b.new c.new clock.new
        held (W.contents writer.new)) × (length after.out ≡ length before.out + 1)) }
    ensures halts { IfErr result (λ fault. fault ≢ ScriptFault.Write
        → (start_a start_b start_c held : Option (List ℕ))
        → Going R.remaining choice.now start_a start_b start_c a.old b.old c.old clock.old held
        (W.contents writer.old)
        → Halts choice.now (feed_of a.old start_a) (feed_of b.old start_b) (feed_of c.old start_c)
        fault held (W.contents writer.new)) }
    ensures same_a { IsSame a.old a.new }
    ensures same_b { IsSame b.old b.new }
    ensures same_c { IsSame c.old c.new }
{
    match inlet {
        Inlet::A => serve(a, Inlet::A, moment, clock, choice, text, writer),
        Inlet::B => serve(b, Inlet::B, moment, clock, choice, text, writer),
        Inlet::C => serve(c, Inlet::C, moment, clock, choice, text, writer),
    }
}

/// Prints the packets of three files in the order of their times, till all are at their ends. `text` is used for it.
pub(crate) fn merge<R: BufRead, W: Write>(
    a: &mut Source<R>,
    b: &mut Source<R>,
    c: &mut Source<R>,
    choice: &Choice,
    text: &mut Vec<u8>,
    writer: &mut W,
) -> Result<Option<u64>, ScriptFault>
    ensures merged { IfOk result (λ last. (start_a start_b start_c : Option (List ℕ))
        → IsFed R.remaining AtA start_a a.old []
        → IsFed R.remaining AtB start_b b.old [] → IsFed R.remaining AtC start_c c.old []
        → Merges choice.now (feed_of a.old start_a) (feed_of b.old start_b) (feed_of c.old start_c)
        a.new b.new c.new last
        (W.contents writer.old) (W.contents writer.new)) }
    ensures halts { IfErr result (λ fault. fault ≢ ScriptFault.Write
        → (start_a start_b start_c : Option (List ℕ))
        → IsFed R.remaining AtA start_a a.old [] → IsFed R.remaining AtB start_b b.old []
        → IsFed R.remaining AtC start_c c.old []
        → Halts choice.now (feed_of a.old start_a) (feed_of b.old start_b)
        (feed_of c.old start_c) fault
        (W.contents writer.old) (W.contents writer.new)) }
    ensures same_a { IsSame a.old a.new }
    ensures same_b { IsSame b.old b.new }
    ensures same_c { IsSame c.old c.new }
{
    let mut clock = Clock {
        base: None,
        last: None,
    };
    'packets: for _ in 0..u64::MAX {
        match earliest(a.due, b.due, c.due) {
            None => return Ok(clock.last),
            Some((inlet, moment)) => {
                serve_at(a, b, c, inlet, moment, &mut clock, choice, text, writer)?;
            }
        }
    }
    Err(ScriptFault::Endless)
}
