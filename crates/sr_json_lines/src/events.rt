//! The objects of frames that go out at a node, and of the lines of a script of captures.

ghost use Rattle.std.specs.Prelude.{◌≡◌, ◌++◌, ◌∷◌, ℕ, List, codes, OnOk};
ghost use Rattle.sr_session.specs.Octets.{Lacks};
ghost use Rattle.sr_json_lines.specs.Objects.{out_object, in_object, tick_object, unused_object};

use crate::objects::append_object;
use crate::pieces::{append_labelled, append_two, append_value, append_values, first_word};
use sr_text::Text;
use sr_words::split_word;
use std::alloc::AllocError;

/// Appends the object of a frame that goes out at a port.
fn append_out(text: &mut Text, port: &[u8], frame: &[u8]) -> Result<(), AllocError>
    ensures { OnOk result (text.new ≡ text.old ++ out_object port.now frame.now) }
{
    let before = b"{\"line\":\"out\",\"port\":\"";
    append_values(text, before, port, b"\",\"frame\":\"", frame, b"\"}\n")
}

/// Appends the object of a frame that comes in: of its line this is what stands behind `in`.
fn append_arrival(text: &mut Text, line: &[u8]) -> Result<(), AllocError>
    ensures { (port time frame : List ℕ) → Lacks 32 port → Lacks 32 time
        → line.now ≡ port ++ 32 ∷ (time ++ 32 ∷ frame)
        → OnOk result (text.new ≡ text.old ++ in_object port time frame) }
{
    let rest = append_labelled(text, b"{\"line\":\"in\",\"port\":\"", b"", line)?;
    let frame = append_labelled(text, b"\",\"time_ms\":", b"", rest)?;
    append_value(text, b",\"frame\":\"", frame, b"\"}\n")
}

/// Appends the object of a tick.
fn append_tick(text: &mut Text, time: &[u8]) -> Result<(), AllocError>
    ensures { OnOk result (text.new ≡ text.old ++ tick_object time.now) }
{
    append_value(text, b"{\"line\":\"tick\",\"time_ms\":", time, b"}\n")
}

/// Appends the object of a packet that is not used.
fn append_unused(
    text: &mut Text,
    capture: &[u8],
    packet: &[u8],
    reason: &[u8],
) -> Result<(), AllocError>
    ensures { OnOk result (text.new
        ≡ text.old ++ unused_object capture.now packet.now reason.now) }
{
    append_two(text, b"{\"line\":\"unused\",\"capture\":\"", capture)?;
    append_values(
        text,
        b"\",\"packet\":",
        packet,
        b",\"reason\":\"",
        reason,
        b"\"}\n",
    )
}

/// Appends how many packets have times that go back, and the end of an object: of its line this is what stands behind the packets that
/// are empty.
fn append_back(text: &mut Text, line: &[u8]) -> Result<(), AllocError> {
    match line.strip_prefix(b"empty, ".as_slice()) {
        Some(rest) => {
            let (back, _) = first_word(rest);
            append_value(text, b",\"back\":", back, b"}\n")
        }
        None => text.extend_from_slice(b",\"back\":0}\n"),
    }
}

/// Appends the object of the counts of a capture: of its line this is what stands behind `packets,`.
fn append_packets(
    text: &mut Text,
    capture: &[u8],
    packets: &[u8],
    line: &[u8],
) -> Result<(), AllocError> {
    append_two(text, b"{\"line\":\"packets\",\"capture\":\"", capture)?;
    append_two(text, b"\",\"packets\":", packets)?;
    let rest = append_labelled(text, b",\"cut\":", b"", line)?;
    let rest = append_labelled(text, b",\"long\":", b"cut, ", rest)?;
    let rest = append_labelled(text, b",\"empty\":", b"long, ", rest)?;
    append_back(text, rest)
}

/// Appends the object of what ended a script: of its line this is what stands behind `fault`.
fn append_fault(text: &mut Text, line: &[u8]) -> Result<(), AllocError> {
    let before = b"{\"line\":\"fault\",\"capture\":";
    match split_word(line) {
        Some((capture, rest)) => {
            let (word, at) = first_word(rest);
            append_values(text, before, b"\"", capture, b"\",\"fault\":\"", word)?;
            append_value(text, b"\",\"at\":", at, b"}\n")
        }
        None => append_values(
            text,
            before,
            b"null,\"fault\":\"",
            line,
            b"\",\"at\":null}",
            b"\n",
        ),
    }
}

/// Appends the object of a comment: of its line this is what stands behind `#`.
fn append_comment(text: &mut Text, line: &[u8]) -> Result<(), AllocError> {
    if let Some(fault) = line.strip_prefix(b"fault ".as_slice()) {
        return append_fault(text, fault);
    }
    let (capture, rest) = first_word(line);
    let (number, rest) = first_word(rest);
    match rest.strip_prefix(b"packets, ".as_slice()) {
        Some(counts) => append_packets(text, capture, number, counts),
        None => append_unused(text, capture, number, rest),
    }
}

/// Appends the object of a line, which is without its LF: of a frame that goes out at a node, of a script of captures, or else of a run
/// of a network.
///
/// # Errors
/// An allocation failed. What was appended is then a part of the object.
pub fn append_line_object(text: &mut Text, line: &[u8]) -> Result<(), AllocError>
    ensures h { (frame : List ℕ) → line.now ≡ codes "H " ++ frame
        → OnOk result (text.new ≡ text.old ++ out_object (codes "H") frame) }
    ensures a { (frame : List ℕ) → line.now ≡ codes "A " ++ frame
        → OnOk result (text.new ≡ text.old ++ out_object (codes "A") frame) }
    ensures b { (frame : List ℕ) → line.now ≡ codes "B " ++ frame
        → OnOk result (text.new ≡ text.old ++ out_object (codes "B") frame) }
    ensures c { (frame : List ℕ) → line.now ≡ codes "C " ++ frame
        → OnOk result (text.new ≡ text.old ++ out_object (codes "C") frame) }
    ensures arrival { (port time frame : List ℕ) → Lacks 32 port → Lacks 32 time
        → line.now ≡ codes "in " ++ (port ++ 32 ∷ (time ++ 32 ∷ frame))
        → OnOk result (text.new ≡ text.old ++ in_object port time frame) }
    ensures tick { (time : List ℕ) → line.now ≡ codes "tick " ++ time
        → OnOk result (text.new ≡ text.old ++ tick_object time) }
{
    if let Some(frame) = line.strip_prefix(b"H ".as_slice()) {
        return append_out(text, b"H", frame);
    }
    if let Some(frame) = line.strip_prefix(b"A ".as_slice()) {
        return append_out(text, b"A", frame);
    }
    if let Some(frame) = line.strip_prefix(b"B ".as_slice()) {
        return append_out(text, b"B", frame);
    }
    if let Some(frame) = line.strip_prefix(b"C ".as_slice()) {
        return append_out(text, b"C", frame);
    }
    if let Some(rest) = line.strip_prefix(b"in ".as_slice()) {
        return append_arrival(text, rest);
    }
    if let Some(time) = line.strip_prefix(b"tick ".as_slice()) {
        return append_tick(text, time);
    }
    if let Some(rest) = line.strip_prefix(b"# ".as_slice()) {
        return append_comment(text, rest);
    }
    append_object(text, line)
}
