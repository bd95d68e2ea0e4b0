//! A script from captures.

ghost use Rattle.std.specs.Prelude.{◌≡◌, ◌≢◌, ◌++◌, [], List, ℕ, Option, OnOk, IfErr, is_some};
ghost use Rattle.std.specs.Io.KnownBytes.{Appends};
ghost use Rattle.sr_capture_script.specs.declared.choice.Inlet.TheVariants.{A as AtA, B as AtB, C as AtC};
ghost use Rattle.sr_capture_script.specs.SourceViews.{IsFed};
ghost use Rattle.sr_capture_script.specs.Merging.{numbers_of, feed_of, Scripts, Halts};
ghost use Rattle.sr_capture_script.specs.Opening.{reading_of, IsScript, IsScriptUpTo};

use crate::choice::{Inlet, Options};
use crate::fault::ScriptFault;
use crate::lines::append_numbers;
use crate::merge::{merge, write_text};
use crate::packets::open;
use crate::source::Source;
use crate::ticks::write_last_ticks;
use sr_capture_file::Reading;
use std::alloc::Global;
use std::io::{BufRead, Write};

/// How the file of an inlet is read.
pub(crate) fn reading_of(options: &Options, inlet: Inlet) -> Reading
    ensures { result ≡ reading_of options.now inlet }
{
    let interfaces = options.interfaces;
    let wanted = match inlet {
        Inlet::A => interfaces.a,
        Inlet::B => interfaces.b,
        Inlet::C => interfaces.c,
    };
    Reading {
        wanted,
        check_len: options.check_len,
    }
}

/// Appends how many packets a file had, if there is one.
fn append_counts<R>(text: &mut Vec<u8>, inlet: Inlet, source: &Source<R>) -> Result<(), ScriptFault>
    ensures ok { OnOk result (text.new.items ≡ text.old.items
        ++ numbers_of (is_some source.now.reader) inlet source.now.number source.now.flaws) }
    ensures err { IfErr result (λ fault. fault ≡ ScriptFault.NoMemory) }
{
    if source.reader.is_none() {
        return Ok(());
    }
    append_numbers(text, inlet, source.number, source.flaws)
}

/// Appends how many packets each file had.
fn append_end<R>(
    text: &mut Vec<u8>,
    a: &Source<R>,
    b: &Source<R>,
    c: &Source<R>,
) -> Result<(), ScriptFault>
    ensures ok { OnOk result (text.new.items ≡ text.old.items
        ++ (numbers_of (is_some a.now.reader) AtA a.now.number a.now.flaws
        ++ (numbers_of (is_some b.now.reader) AtB b.now.number b.now.flaws
        ++ numbers_of (is_some c.now.reader) AtC c.now.number c.now.flaws))) }
    ensures err { IfErr result (λ fault. fault ≡ ScriptFault.NoMemory) }
{
    append_counts(text, Inlet::A, a)?;
    append_counts(text, Inlet::B, b)?;
    append_counts(text, Inlet::C, c)
}

/// Prints the packets of three files, and an end. `text` is used for it.
fn print<R: BufRead, W: Write>(
    a: &mut Source<R>,
    b: &mut Source<R>,
    c: &mut Source<R>,
    options: &Options,
    text: &mut Vec<u8>,
    writer: &mut W,
) -> Result<(), ScriptFault>
    ensures scripts { OnOk result ((start_a start_b start_c : Option (List ℕ))
        → IsFed R.remaining AtA start_a a.old []
        → IsFed R.remaining AtB start_b b.old [] → IsFed R.remaining AtC start_c c.old []
        → (all : List ℕ) × Scripts options.now.choice (feed_of a.old start_a)
        (feed_of b.old start_b) (feed_of c.old start_c)
        (is_some a.old.reader) (is_some b.old.reader) (is_some c.old.reader) all
        × Appends (W.contents writer.old) (W.contents writer.new) all) }
    ensures halts { IfErr result (λ fault. fault ≢ ScriptFault.Write
        → (start_a start_b start_c : Option (List ℕ))
        → IsFed R.remaining AtA start_a a.old [] → IsFed R.remaining AtB start_b b.old []
        → IsFed R.remaining AtC start_c c.old []
        → Halts options.now.choice (feed_of a.old start_a) (feed_of b.old start_b)
        (feed_of c.old start_c) fault
        (W.contents writer.old) (W.contents writer.new)) }
{
    let last = merge(a, b, c, &options.choice, text, writer)?;
    text.clear();
    append_end(text, a, b, c)?;
    write_last_ticks(writer, &options.choice, last)?;
    write_text(writer, text.as_slice())?;
    match writer.flush() {
        Ok(()) => Ok(()),
        Err(_) => Err(ScriptFault::Write),
    }
}

/// Writes the script of up to three captures, pcap or pcapng: their packets, merged by time, a line `in P T HEX` for each.
///
/// Times are in milliseconds from the earliest packet on. A packet that is cut, longer than 1524 octets or empty is told
/// by a comment line with its number. Behind the last packet a comment line counts those of each file.
///
/// # Errors
/// The fault of a file, `Write`, `NoMemory`, or `Endless` for 2^64 packets. Unless it was the writer, what was written
/// then is the lines of the packets before the fault: those of its own file before the octet that it tells, and those of
/// the other files that are not later.
pub fn script<R: BufRead + Drop, W: Write>(
    alloc: Global,
    file_a: Option<R>,
    file_b: Option<R>,
    file_c: Option<R>,
    options: &Options,
    writer: &mut W,
) -> Result<(), ScriptFault>
    // What is written is the lines of the packets of all files, each once, in order of time and each file's in its own
    // order, with ticks between them; and then the counts of each file.
    ensures scripts { OnOk result ((text : List ℕ)
        × IsScript R.remaining options.now.choice (reading_of options.now) file_a file_b file_c
        options.now.delays.a options.now.delays.b options.now.delays.c text
        × Appends (W.contents writer.old) (W.contents writer.new) text) }

    // What is written is the lines of the packets that come before the fault, and the fault is where it says.
    ensures ended { IfErr result (λ fault. fault ≢ ScriptFault.Write → (text : List ℕ)
        × IsScriptUpTo R.remaining options.now.choice (reading_of options.now) file_a file_b file_c
        options.now.delays.a options.now.delays.b options.now.delays.c fault text
        × Appends (W.contents writer.old) (W.contents writer.new) text) }
{
    let delays = options.delays;
    let mut a = open(
        alloc,
        Inlet::A,
        file_a,
        delays.a,
        reading_of(options, Inlet::A),
    )?;
    let mut b = open(
        alloc,
        Inlet::B,
        file_b,
        delays.b,
        reading_of(options, Inlet::B),
    )?;
    let mut c = open(
        alloc,
        Inlet::C,
        file_c,
        delays.c,
        reading_of(options, Inlet::C),
    )?;
    let mut text = Vec::new(alloc);
    print(&mut a, &mut b, &mut c, options, &mut text, writer)
}
