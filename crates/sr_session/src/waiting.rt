//! What is printed and not yet written.

ghost use Rattle.std.specs.Prelude.{◌≡◌, ◌≤◌, ◌++◌, [], length, take, drop, OnOk, OnErr, IfErr};
ghost use Rattle.std.specs.Io.KnownBytes.{Appends};
ghost use Rattle.sr_session.specs.Turns.{marked, line_of, IsCut};

use crate::fault::{Fault, FaultKind};
use sr_text::Text;
use std::alloc::Global;
use std::io::{ErrorKind, Write};

/// Where the text of a line ends in what waits.
#[derive(Clone, Copy, Debug)]
pub(crate) struct Mark {
    /// The number of the line.
    pub(crate) line: u64,
    /// The octets up to the end of its text.
    pub(crate) end: usize,
}

/// Writes a text. The answer is how many of its octets the writer took: all, unless it failed.
pub fn write_out<W: Write>(writer: &mut W, text: &[u8]) -> usize
    ensures bound { result ≤ length text.now }
    ensures held { Appends (W.contents writer.old) (W.contents writer.new) (take result text.now) }
{
    let mut taken = 0;
    for _ in 0..u64::MAX {
        if taken == text.len() {
            return taken;
        }
        match writer.write(&text[taken..]) {
            Ok(0) => return taken,
            Ok(count) => taken += count,
            Err(error) if error.kind() == ErrorKind::Interrupted => {}
            Err(_) => return taken,
        }
    }
    taken
}

/// The line whose text holds the octet at a place.
fn line_of(marks: &[Mark], place: usize) -> u64
    ensures { result ≡ line_of marks.now place }
{
    for mark in marks {
        if place < mark.end {
            return mark.line;
        }
    }
    0
}

/// The texts of lines, one behind the other.
#[derive(Drop)]
pub(crate) struct Waiting {
    /// The octets.
    pub(crate) text: Text,
    /// The lines that have a text, in order.
    pub(crate) marks: Vec<Mark>,
}

impl Waiting {
    /// Nothing waits yet.
    pub(crate) fn new(alloc: Global) -> Waiting
        ensures text { result.text ≡ [] }
        ensures marks { result.marks.items ≡ [] }
    {
        Waiting {
            text: Text::new(alloc),
            marks: Vec::new(alloc),
        }
    }

    /// Cuts off the text from a place on.
    // speed: D-session-inlined
    #[inline(always)]
    pub(crate) fn cut(&mut self, start: usize)
        ensures text { self.new.text ≡ take start self.old.text }
        ensures marks { self.new.marks.items ≡ self.old.marks.items }
    {
        self.text.truncate(start);
    }

    /// Marks the text from a place on as that of a line.
    ///
    /// # Errors
    /// `Memory`.
    // speed: D-session-inlined
    #[inline(always)]
    pub(crate) fn mark(&mut self, line: u64, start: usize) -> Result<(), FaultKind>
        ensures text { self.new.text ≡ self.old.text }
        ensures marks { OnOk result (self.new.marks.items ≡ self.old.marks.items
            ++ marked line (length self.old.text) (drop start self.old.text) []) }
        ensures same { OnErr result (self.new.marks.items ≡ self.old.marks.items) }
        ensures err { IfErr result (λ kind. kind ≡ FaultKind.Memory) }
    {
        let end = self.text.len();
        if end <= start {
            return Ok(());
        }
        match self.marks.push(Mark { line, end }) {
            Ok(()) => Ok(()),
            Err(_) => Err(FaultKind::Memory),
        }
    }

    /// Writes all that waits, and sees that it has gone out. Nothing waits then.
    ///
    /// # Errors
    /// `Write` at the line whose text holds the first octet that the writer did not take; at the last where it took all.
    pub(crate) fn send<W: Write>(&mut self, writer: &mut W) -> Result<(), Fault>
        ensures sent { OnOk result
            (Appends (W.contents writer.old) (W.contents writer.new) self.old.text) }
        ensures text { OnOk result (self.new.text ≡ []) }
        ensures marks { OnOk result (self.new.marks.items ≡ []) }
        ensures cut { IfErr result (λ fault. IsCut self.old.text self.old.marks.items fault
            (W.contents writer.old) (W.contents writer.new)) }
    {
        if self.text.is_empty() {
            self.marks.clear();
            return Ok(());
        }
        let taken = write_out(writer, self.text.as_slice());
        if taken < self.text.len() || writer.flush().is_err() {
            let place = taken.min(self.text.len() - 1);
            return Err(Fault {
                line: line_of(&self.marks, place),
                kind: FaultKind::Write,
            });
        }
        self.text.truncate(0);
        self.marks.clear();
        Ok(())
    }
}
