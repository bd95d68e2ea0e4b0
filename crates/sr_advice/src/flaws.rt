//! What can be wrong with a line of a script, and how it is told.

use crate::forms::{Form, ScriptKind};
use std::fmt;

/// What is wrong.
#[derive(Clone, Copy, Debug, PartialEq, Eq)]
pub enum Flaw {
    /// The line begins as a pcap or pcapng file does.
    Capture,
    /// The line begins with a byte order mark.
    Mark,
    /// An octet above 127.
    Foreign,
    /// A carriage return at the end.
    CarriageReturn,
    /// A tab.
    Tab,
    /// A space where no word stands ahead of it or behind it.
    Space,
    /// The first word is that of no line of a script of this kind.
    Name(ScriptKind),
    /// A word is missing of the line that is shown so.
    Missing(&'static str),
    /// There is more than the line that is shown so.
    More(&'static str),
    /// No port of a node without an interlink.
    Port,
    /// No port of a node with one.
    PortOrInterlink,
    /// No time.
    Time,
    /// No number.
    Number,
    /// A number with a zero ahead of it.
    Zero,
    /// A number that is too large.
    Large,
    /// No node, and not all.
    Destination,
    /// No hexadecimal digit.
    Digit,
    /// An odd number of hexadecimal digits.
    Odd,
}

/// Writes the first words of lines.
fn write_names<W: fmt::Write>(forms: &[Form], f: &mut fmt::Formatter<W>) -> fmt::Result {
    f.write_str("a line begins with one of:")?;
    for form in forms {
        f.write_str(" ")?;
        f.write_str(form.name)?;
    }
    Ok(())
}

impl fmt::Display for Flaw {
    fn fmt<W: fmt::Write>(&self, f: &mut fmt::Formatter<W>) -> fmt::Result {
        match self {
            Flaw::Capture => {
                f.write_str("this is a capture: make a script of it by seamless script --a FILE")
            }
            Flaw::Mark => f.write_str("a byte order mark: save the script as ASCII without one"),
            Flaw::Foreign => {
                f.write_str("an octet above 127: a script is ASCII, and so are its comments")
            }
            Flaw::CarriageReturn => f.write_str("the line ends with CR LF: use LF"),
            Flaw::Tab => f.write_str("a tab: between words stands one space"),
            Flaw::Space => f.write_str("a space too many: one space between words"),
            Flaw::Name(kind) => write_names(kind.forms(), f),
            Flaw::Missing(shown) => write!(f, "a word is missing: {shown}"),
            Flaw::More(shown) => {
                write!(
                    f,
                    "nothing stands behind {shown}; octets are one word, a comment is a line"
                )
            }
            Flaw::Port => f.write_str("ports are A, B (C where the role is san, prp or hsr)"),
            Flaw::PortOrInterlink => f.write_str("ports are A, B, C"),
            Flaw::Time => f.write_str("times are whole milliseconds"),
            Flaw::Number => f.write_str("nodes, links and copies are whole numbers"),
            Flaw::Zero => f.write_str("a number has no zero ahead of it"),
            Flaw::Large => f.write_str("a number is at most 18446744073709551615"),
            Flaw::Destination => f.write_str("a destination is the number of a node, or all"),
            Flaw::Digit => f.write_str("no hexadecimal digit"),
            Flaw::Odd => f.write_str("an odd number of digits: an octet has two"),
        }
    }
}

/// What is wrong, and where.
#[derive(Clone, Copy, Debug, PartialEq, Eq)]
pub struct Found {
    /// How many octets stand ahead of it.
    pub at: usize,
    /// What it is.
    pub flaw: Flaw,
}
