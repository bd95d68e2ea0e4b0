//! What is wrong with a line that is none of a script, and at which of its octets. It is asked only after a fault, and decides
//! nothing: `sr_script` and `sr_plant_script` say which lines are those of a script.

ghost use Rattle.std.specs.Prelude.{◌≤◌, ◌<◌, ◌↔◌, length, IfSome, IsTrue};
ghost use Rattle.sr_advice.specs.Fronts.{BeginsAsCapture};

use crate::flaws::{Flaw, Found};
use crate::forms::{Form, ScriptKind};
use crate::word_flaws::word_in;

/// Whether octets begin as a capture does: pcap of either order and unit of time, and pcapng behind its first octet, which is an LF.
pub fn is_capture(line: &[u8]) -> bool
    ensures { IsTrue result ↔ BeginsAsCapture line.now }
{
    match line {
        [0xD4, 0xC3, 0xB2, 0xA1, ..] => true,
        [0xA1, 0xB2, 0xC3, 0xD4, ..] => true,
        [0x4D, 0x3C, 0xB2, 0xA1, ..] => true,
        [0xA1, 0xB2, 0x3C, 0x4D, ..] => true,
        [0x0D, 0x0D, ..] => true,
        _ => false,
    }
}

/// The first octet above 127, or tab.
fn foreign_in(line: &[u8]) -> Option<Found>
    ensures within { IfSome result (λ found. found.at ≤ length line.now) }
{
    for at in 0..line.len() {
        let octet = line[at];
        if octet > 127 {
            return Some(Found {
                at,
                flaw: Flaw::Foreign,
            });
        }
        if octet == b'\t' {
            return Some(Found {
                at,
                flaw: Flaw::Tab,
            });
        }
    }
    None
}

/// What is wrong with octets, whatever the words are.
fn octet_in(line: &[u8]) -> Option<Found>
    ensures within { IfSome result (λ found. found.at ≤ length line.now) }
{
    if is_capture(line) {
        return Some(Found {
            at: 0,
            flaw: Flaw::Capture,
        });
    }
    if line.starts_with(&[0xEF, 0xBB, 0xBF]) {
        return Some(Found {
            at: 0,
            flaw: Flaw::Mark,
        });
    }
    foreign_in(line)
}

/// A carriage return at the end, or the first space that stands at an end or behind another.
fn space_in(line: &[u8]) -> Option<Found>
    ensures within { IfSome result (λ found. found.at ≤ length line.now) }
{
    let len = line.len();
    if len > 0 && line[len - 1] == b'\r' {
        return Some(Found {
            at: len - 1,
            flaw: Flaw::CarriageReturn,
        });
    }
    for at in 0..len {
        if line[at] == b' ' && (at == 0 || at + 1 == len || line[at - 1] == b' ') {
            return Some(Found {
                at,
                flaw: Flaw::Space,
            });
        }
    }
    None
}

/// Where the word ends that begins here: at the next space, or at the end.
fn word_end(line: &[u8], start: usize) -> usize
    requires { start ≤ length line.now }
    ensures begins { start ≤ result }
    ensures ends { result ≤ length line.now }
{
    for at in start..line.len() {
        if line[at] == b' ' {
            return at;
        }
    }
    line.len()
}

/// What is wrong with the words behind the first, which ends here.
fn words_in(line: &[u8], first_end: usize, form: &Form) -> Option<Found>
    requires { first_end ≤ length line.now }
    ensures within { IfSome result (λ found. found.at ≤ length line.now) }
{
    let mut end = first_end;
    for part in form.parts {
        if end >= line.len() {
            return Some(Found {
                at: line.len(),
                flaw: Flaw::Missing(form.shown),
            });
        }
        let start = end + 1;
        end = word_end(line, start);
        if let Some(found) = word_in(&line[start..end], *part) {
            return Some(Found {
                at: start + found.at,
                flaw: found.flaw,
            });
        }
    }
    if end < line.len() {
        return Some(Found {
            at: end + 1,
            flaw: Flaw::More(form.shown),
        });
    }
    None
}

/// What is wrong with a line, where that is known: the first octet that no line of a script of this kind has there.
pub fn found_in(line: &[u8], kind: ScriptKind) -> Option<Found>
    ensures within { IfSome result (λ found. found.at ≤ length line.now) }
{
    if let Some(found) = octet_in(line) {
        return Some(found);
    }
    if let Some(found) = space_in(line) {
        return Some(found);
    }
    let end = word_end(line, 0);
    for form in kind.forms() {
        if form.name.as_bytes() == &line[..end] {
            return words_in(line, end, form);
        }
    }
    Some(Found {
        at: 0,
        flaw: Flaw::Name(kind),
    })
}
