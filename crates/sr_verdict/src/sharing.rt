//! The lines that name the sources that share what a verdict tells.

use crate::lines::{at_lan, at_source, bare, count};
use crate::names::Names;
use crate::verdict::Verdict;
use crate::words::kind_word;
use sr_audit::Side;
use sr_capture_audit::{Field, Format, Value, print_row};
use sr_capture_script::ScriptFault;
use sr_frame::Mac;
use std::io::Write;

/// The sources that share what a verdict tells, and the LAN of it.
fn names_in(verdict: &Verdict) -> Option<(Option<Side>, Names)> {
    match *verdict {
        Verdict::Loss(lan, share, _) | Verdict::LossWithin(lan, share, _) => Some((
            Some(lan),
            share.names,
        )),
        Verdict::Crossed(_, names) => Some((None, names)),
        Verdict::WrongLan(lan, _, names) => Some((lan, names)),
        _ => None,
    }
}

/// Prints the line of a source that shares what a verdict tells, if there is one.
fn print_name<W: Write>(
    writer: &mut W,
    format: Format,
    kind: Field,
    lan: Option<Side>,
    name: Option<Mac>,
) -> Result<(), ScriptFault> {
    match name {
        Some(mac) => print_row(writer, format, "at", &[kind, at_lan(lan), at_source(mac)]),
        None => Ok(()),
    }
}

/// Prints a line for each of the first sources that share what a verdict tells, and one that tells how many more there are.
pub(crate) fn print_names<W: Write>(
    writer: &mut W,
    format: Format,
    verdict: &Verdict,
) -> Result<(), ScriptFault> {
    let Some((lan, names)) = names_in(verdict) else {
        return Ok(());
    };
    let kind = bare("kind", Value::Word(kind_word(verdict)));
    print_name(writer, format, kind, lan, names.first)?;
    print_name(writer, format, kind, lan, names.second)?;
    print_name(writer, format, kind, lan, names.third)?;
    if names.more == 0 {
        return Ok(());
    }
    print_row(
        writer,
        format,
        "at",
        &[kind, at_lan(lan), count("more", names.more)],
    )
}
