//! The objects of what is told on standard error: of a fault with its hint, and of a hint without one.

ghost use Rattle.std.specs.Prelude.{◌≡◌, ◌++◌, ◌∷◌, [], IfOk, OnOk, option_copied};
ghost use Rattle.json.specs.Print.{print};
ghost use Rattle.sr_json_lines.specs.Faults.{text_or_null, number_or_null, member, place_tokens, reason_tokens, hint_tokens, fault_object, hint_object};

use json::Writer;
use std::alloc::{AllocError, Global};

/// A fault, as it is told.
#[derive(Clone, Copy, Debug)]
pub struct ToldFault<'a> {
    /// The letter of the capture that it is of.
    pub capture: Option<&'a str>,
    /// The number of the line of a script that it is of, or of the end of one.
    pub number: Option<u64>,
    /// The word for it.
    pub word: &'a str,
    /// The octet of a file of the capture where it is.
    pub at: Option<u64>,
    /// What is wrong, and what to do.
    pub hint: Option<&'a str>,
}

/// Writes a member of an object that is a text, or null.
fn write_text(writer: &mut Writer, name: &str, text: Option<&str>) -> Result<(), AllocError>
    ensures ok { OnOk result (writer.new.tokens
        ≡ writer.old.tokens ++ member name.now (text_or_null (option_copied text.entry))) }
    ensures before { writer.new.before ≡ writer.old.before }
{
    writer.key(name)?;
    match text {
        Some(text) => writer.string(text),
        None => writer.null(),
    }
}

/// Writes a member of an object that is a number, or null.
fn write_number(writer: &mut Writer, name: &str, number: Option<u64>) -> Result<(), AllocError>
    ensures ok { OnOk result (writer.new.tokens
        ≡ writer.old.tokens ++ member name.now (number_or_null number)) }
    ensures before { writer.new.before ≡ writer.old.before }
{
    writer.key(name)?;
    match number {
        Some(number) => writer.u64(number),
        None => writer.null(),
    }
}

/// Writes the front of the object of a fault: what it is, and the capture or the line that it is of.
fn write_place(writer: &mut Writer, fault: &ToldFault<'_>) -> Result<(), AllocError>
    ensures ok { OnOk result (writer.new.tokens ≡ writer.old.tokens ++ place_tokens fault.now) }
    ensures before { writer.new.before ≡ writer.old.before }
{
    writer.begin_object()?;
    write_text(writer, "line", Some("fault"))?;
    write_text(writer, "capture", fault.capture)?;
    write_number(writer, "number", fault.number)
}

/// Writes the rest of the object of a fault: the word for it, the octet where it is, and the hint.
fn write_reason(writer: &mut Writer, fault: &ToldFault<'_>) -> Result<(), AllocError>
    ensures ok { OnOk result (writer.new.tokens ≡ writer.old.tokens ++ reason_tokens fault.now) }
    ensures before { writer.new.before ≡ writer.old.before }
{
    write_text(writer, "fault", Some(fault.word))?;
    write_number(writer, "at", fault.at)?;
    write_text(writer, "hint", fault.hint)?;
    writer.end_object()
}

/// Writes the object of a fault.
fn write_fault(writer: &mut Writer, fault: &ToldFault<'_>) -> Result<(), AllocError>
    ensures ok { OnOk result (writer.new.tokens
        ≡ writer.old.tokens ++ (place_tokens fault.now ++ reason_tokens fault.now)) }
    ensures before { writer.new.before ≡ writer.old.before }
{
    write_place(writer, fault)?;
    write_reason(writer, fault)
}

/// Writes the object of a hint.
fn write_hint(writer: &mut Writer, hint: &str) -> Result<(), AllocError>
    ensures ok { OnOk result (writer.new.tokens ≡ writer.old.tokens ++ hint_tokens hint.now) }
    ensures before { writer.new.before ≡ writer.old.before }
{
    writer.begin_object()?;
    write_text(writer, "line", Some("hint"))?;
    write_text(writer, "hint", Some(hint))?;
    writer.end_object()
}

/// A list with a line feed behind it.
fn ended(list: Vec<u8>) -> Result<Vec<u8>, AllocError>
    ensures { IfOk result (λ line. line.items ≡ list.items ++ 10 ∷ []) }
{
    let mut line = list;
    line.extend_from_slice(b"\n")?;
    Ok(line)
}

/// The object of a fault, in a line of its own.
///
/// # Errors
/// An allocation failed.
pub fn fault_object(alloc: Global, fault: &ToldFault<'_>) -> Result<Vec<u8>, AllocError>
    ensures { IfOk result (λ line. line.items ≡ fault_object fault.now) }
{
    let mut writer = Writer::new(Vec::new(alloc));
    write_fault(&mut writer, fault)?;
    ended(writer.into_inner())
}

/// The object of a hint without a fault, in a line of its own.
///
/// # Errors
/// An allocation failed.
pub fn hint_object(alloc: Global, hint: &str) -> Result<Vec<u8>, AllocError>
    ensures { IfOk result (λ line. line.items ≡ hint_object hint.now) }
{
    let mut writer = Writer::new(Vec::new(alloc));
    write_hint(&mut writer, hint)?;
    ended(writer.into_inner())
}
