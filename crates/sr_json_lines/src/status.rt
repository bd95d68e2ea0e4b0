//! A writer that takes the lines of a status and writes one object for all.

ghost use Rattle.std.specs.Prelude.{◌≡◌, false, is_err};
ghost use Rattle.sr_json_lines.specs.Lacks.{fault_by, status_has_lack};

use crate::elements::{
    append_left_out, append_node_down, append_node_element, append_port, append_refusal,
    append_ring_error,
};
use crate::lack::fault_by;
use crate::station::{append_end, append_nodes};
use sr_session::{Fault, write_out};
use sr_text::Text;
use std::alloc::{AllocError, Global};
use std::io::{self, ErrorKind, Write};

/// What lines of a status told, each list as the elements of an array.
#[derive(Drop)]
struct Lists {
    nodes: Text,
    node_count: u64,
    alarms: Text,
    refusals: Text,
    /// The members of what was counted at ports.
    counts: Text,
}

impl Lists {
    /// Nothing was told.
    fn new(alloc: Global) -> Lists {
        Lists {
            nodes: Text::new(alloc),
            node_count: 0,
            alarms: Text::new(alloc),
            refusals: Text::new(alloc),
            counts: Text::new(alloc),
        }
    }

    /// Takes a line, in which a space stands in place of its line feed.
    fn take(&mut self, line: &[u8]) -> Result<(), AllocError> {
        if let Some(rest) = line.strip_prefix(b"refused ".as_slice()) {
            return append_refusal(&mut self.refusals, rest);
        }
        if let Some(rest) = line.strip_prefix(b"node ".as_slice()) {
            self.node_count = self.node_count.saturating_add(1);
            return append_node_element(&mut self.nodes, rest);
        }
        if let Some(rest) = line.strip_prefix(b"alarm RingError ".as_slice()) {
            return append_ring_error(&mut self.alarms, rest);
        }
        if let Some(rest) = line.strip_prefix(b"alarm NodeDown ".as_slice()) {
            return append_node_down(&mut self.alarms, rest);
        }
        if let Some(rest) = line.strip_prefix(b"port ".as_slice()) {
            return append_port(&mut self.counts, rest);
        }
        if let Some(rest) = line.strip_prefix(b"sources left out ".as_slice()) {
            return append_left_out(&mut self.counts, rest);
        }
        Ok(())
    }

    /// Whether what was counted is told, which is the end of a status.
    fn are_whole(&self) -> bool {
        !self.counts.is_empty()
    }

    /// Appends the members of what was told.
    fn append_to(&self, text: &mut Text) -> Result<(), AllocError> {
        text.extend_from_slice(self.counts.as_slice())?;
        append_nodes(text, self.node_count, self.nodes.as_slice())?;
        append_end(text, self.alarms.as_slice(), self.refusals.as_slice())
    }
}

/// A writer that takes the lines of a status, with what was counted at its end, and writes its object as the end is flushed.
#[derive(Drop)]
pub struct JsonStatus<W> {
    inner: W,
    // The octets of the line that has not ended yet.
    line: Vec<u8>,
    // The object, up to the members of the node itself, which stand ahead of all others.
    object: Text,
    lists: Lists,
    // That an allocation failed, if one did.
    lack: Option<AllocError>,
}

impl<W> JsonStatus<W> {
    /// A writer that writes to this one. The object begins with these members.
    pub fn new(alloc: Global, inner: W, station: Text) -> JsonStatus<W>
        ensures { status_has_lack result ≡ false }
    {
        JsonStatus {
            inner,
            line: Vec::new(alloc),
            object: station,
            lists: Lists::new(alloc),
            lack: None,
        }
    }

    /// What it writes to.
    pub fn get_ref(&self) -> &W {
        &self.inner
    }

    /// Whether all could be spelled. An error: an allocation failed.
    pub fn spelt(&self) -> Result<(), AllocError>
        ensures { is_err result ≡ status_has_lack self.now }
    {
        match self.lack {
            Some(lack) => Err(lack),
            None => Ok(()),
        }
    }

    /// What ended a run that wrote to it: where an allocation failed here, that, and not the write.
    pub fn fault_of(&self, fault: Fault) -> Fault
        ensures { result ≡ fault_by (status_has_lack self.now) fault }
    {
        fault_by(self.lack, fault)
    }

    /// Takes octets.
    fn take(&mut self, octets: &[u8]) -> Result<(), AllocError> {
        for octet in octets {
            if *octet == b'\n' {
                self.line.extend_from_slice(b" ")?;
                self.lists.take(self.line.as_slice())?;
                self.line.clear();
            } else {
                self.line.extend_from_slice(&[*octet])?;
            }
        }
        Ok(())
    }

    /// Notes that an allocation failed.
    fn note(&mut self, outcome: Result<(), AllocError>) -> io::Result<()> {
        match outcome {
            Ok(()) => Ok(()),
            Err(lack) => {
                self.lack = Some(lack);
                Err(io::Error::from(ErrorKind::OutOfMemory))
            }
        }
    }
}

impl<W: Write> Write for JsonStatus<W> {
    fn write(&mut self, buf: &[u8]) -> io::Result<usize> {
        let outcome = self.take(buf);
        self.note(outcome)?;
        Ok(buf.len())
    }

    fn flush(&mut self) -> io::Result<()> {
        if !self.lists.are_whole() {
            return self.inner.flush();
        }
        let outcome = self.lists.append_to(&mut self.object);
        self.note(outcome)?;
        if write_out(&mut self.inner, self.object.as_slice()) < self.object.len() {
            return Err(io::Error::from(ErrorKind::WriteZero));
        }
        self.inner.flush()
    }
}
