//! The lines of a script.

ghost use Rattle.std.specs.Prelude.{◌≡◌, ◌≤◌, ◌<◌, ◌^◌, ◌++◌, ◌∷◌, [], List, ℕ, ◌-◌, min, length, OnOk, IfErr};
ghost use Rattle.hex.specs.Hex.{encode_lower};
ghost use Rattle.sr_capture.specs.Records.{Captured, Shows};
ghost use Rattle.sr_capture_script.specs.Texts.{letter_of, arrival_line, comment_line, numbers_line, back_part, line_of};

use crate::choice::Inlet;
use crate::fault::ScriptFault;
use crate::flaws::{Flaw, FlawCounts, flaw_of, name_of};
use sr_capture::{MAX_KEPT, Packet};
use sr_hex::append_hex;
use std::alloc::AllocError;
use std::io::Write;

/// The letter of an inlet.
fn letter_of(inlet: Inlet) -> &'static str
    ensures { result.now ≡ letter_of inlet }
{
    match inlet {
        Inlet::A => "A",
        Inlet::B => "B",
        Inlet::C => "C",
    }
}

/// Appends the line of a packet that is not used.
fn append_comment(
    text: &mut Vec<u8>,
    inlet: Inlet,
    number: u64,
    flaw: Flaw,
) -> Result<(), ScriptFault>
    ensures ok { OnOk result (text.new.items ≡ text.old.items ++ comment_line inlet number flaw) }
    ensures err { IfErr result (λ fault. fault ≡ ScriptFault.NoMemory) }
{
    let letter = letter_of(inlet);
    let reason = name_of(flaw);
    match writeln!(text, "# {letter} {number} {reason}") {
        Ok(()) => Ok(()),
        Err(_) => Err(ScriptFault::NoMemory),
    }
}

/// Appends the line of octets that arrive.
fn append_arrival(
    text: &mut Vec<u8>,
    inlet: Inlet,
    time: u64,
    octets: &[u8],
) -> Result<(), ScriptFault>
    requires { length octets.now < 2 ^ 32 }
    ensures ok { OnOk result (text.new.items ≡ text.old.items
        ++ arrival_line inlet time octets.now) }
    ensures err { IfErr result (λ fault. fault ≡ ScriptFault.NoMemory) }
{
    let letter = letter_of(inlet);
    match write!(text, "in {letter} {time} ") {
        Ok(()) => {}
        Err(_) => return Err(ScriptFault::NoMemory),
    }
    append_hex(text, octets)?;
    text.extend_from_slice(b"\n")?;
    Ok(())
}

/// Appends the line of a packet.
pub(crate) fn append_line(
    text: &mut Vec<u8>,
    inlet: Inlet,
    number: u64,
    time: u64,
    packet: &Packet,
) -> Result<(), ScriptFault>
    ensures ok { OnOk result ((captured : Captured) (n : ℕ) → Shows packet.now captured
        → number ≡ min n (2 ^ 64 - 1)
        → text.new.items ≡ text.old.items ++ line_of inlet n time captured) }
    ensures err { IfErr result (λ fault. fault ≡ ScriptFault.NoMemory) }
{
    match flaw_of(packet) {
        Some(flaw) => append_comment(text, inlet, number, flaw),
        None => {
            let octets = packet.octets.as_slice();
            append_arrival(text, inlet, time, &octets[..octets.len().min(MAX_KEPT)])
        }
    }
}

/// Appends the end of a line: how many packets have a time before that of one ahead of them, where there are such.
fn append_back(text: &mut Vec<u8>, back: u64) -> Result<(), ScriptFault>
    ensures ok { OnOk result (text.new.items ≡ text.old.items ++ back_part back ++ 10 ∷ []) }
    ensures err { IfErr result (λ fault. fault ≡ ScriptFault.NoMemory) }
{
    let written = match back {
        0 => writeln!(text),
        _ => writeln!(text, ", {back} before one ahead of them"),
    };
    match written {
        Ok(()) => Ok(()),
        Err(_) => Err(ScriptFault::NoMemory),
    }
}

/// Appends how many packets a file had.
pub(crate) fn append_numbers(
    text: &mut Vec<u8>,
    inlet: Inlet,
    number: u64,
    counts: FlawCounts,
) -> Result<(), ScriptFault>
    ensures ok { OnOk result (text.new.items ≡ text.old.items ++ numbers_line inlet number counts) }
    ensures err { IfErr result (λ fault. fault ≡ ScriptFault.NoMemory) }
{
    let letter = letter_of(inlet);
    let FlawCounts {
        cut,
        long,
        empty,
        back,
    } = counts;
    match write!(
        text,
        "# {letter} {number} packets, {cut} cut, {long} long, {empty} empty"
    ) {
        Ok(()) => {}
        Err(_) => return Err(ScriptFault::NoMemory),
    }
    append_back(text, back)
}
