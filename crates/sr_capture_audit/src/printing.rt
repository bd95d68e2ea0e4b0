//! The report of captures, as it is printed.

use crate::figures::{Report, Summary};
use crate::lines::{
    Lost, Missing, print_capture, print_source, print_table_names, print_table_row,
};
use crate::network::Ports;
use crate::rows::{Format, count, print_row};
use sr_audit::{Audit, Source, Spans};
use sr_capture_script::ScriptFault;
use sr_frame::Mac;
use std::io::Write;

/// What an audit has of a source.
fn source_in(audit: &Audit, mac: Mac) -> Option<&Source> {
    for (own, source) in audit.sources() {
        if own == mac {
            return Some(source);
        }
    }
    None
}

impl Summary {
    /// Prints how many packets were of sources that have no lines, if any were. A table has no place for it.
    ///
    /// # Errors
    /// `Write` where the writer fails.
    pub fn print_end<W: Write>(&self, writer: &mut W, format: Format) -> Result<(), ScriptFault> {
        if self.left_out == 0 || format == Format::Csv {
            return Ok(());
        }
        print_row(
            writer,
            format,
            "sources_left_out",
            &[count("packets", self.left_out)],
        )
    }
}

impl Report {
    /// Prints the lines of the captures. At a mirror port they are those of each side, and of the packets without a number.
    ///
    /// # Errors
    /// `Write` where the writer fails.
    fn print_captures<W: Write>(
        &self,
        writer: &mut W,
        format: Format,
        recorded: &Spans,
    ) -> Result<(), ScriptFault> {
        print_capture(writer, format, "A", &self.counts.a, recorded.a)?;
        print_capture(writer, format, "B", &self.counts.b, recorded.b)?;
        match self.subject.ports {
            Ports::Two => Ok(()),
            Ports::Mirror => {
                print_capture(writer, format, "none", &self.counts.neither, self.whole)
            }
        }
    }

    /// Prints the lines of the captures and of the sources.
    ///
    /// # Errors
    /// `Write` where the writer fails.
    fn print_lines<W: Write>(
        &self,
        writer: &mut W,
        format: Format,
        recorded: &Spans,
    ) -> Result<(), ScriptFault> {
        self.print_captures(writer, format, recorded)?;
        for (mac, source) in self.audit.sources() {
            print_source(writer, format, mac, source, &self.lost_of(mac, source))?;
        }
        Ok(())
    }

    /// Prints the table of the sources.
    fn print_table<W: Write>(&self, writer: &mut W) -> Result<(), ScriptFault> {
        print_table_names(writer)?;
        for (mac, source) in self.audit.sources() {
            print_table_row(writer, mac, source, &self.lost_of(mac, source))?;
        }
        Ok(())
    }

    /// How many numbers of a source no frame had. One behind a RedBox has none of its own.
    fn missing_of(&self, mac: Mac, source: &Source) -> Missing {
        let numbers = match &self.counters {
            None => source.figures().neither,
            Some(counters) => match source_in(counters, mac) {
                Some(counter) => counter.figures().neither,
                None => 0,
            },
        };
        Missing::by(self.sight, numbers)
    }

    /// What is lost of a source.
    fn lost_of(&self, mac: Mac, source: &Source) -> Lost {
        let missing = self.missing_of(mac, source);
        match &self.judged {
            None => Lost::of(source, &self.spans, missing),
            Some(judged) => match source_in(judged, mac) {
                Some(own) => Lost::of(own, &self.spans, missing).beside(source),
                None => Lost::none(missing).beside(source),
            },
        }
    }

    /// Prints the lines of the captures and of the sources, or the table of the sources.
    ///
    /// # Errors
    /// `Write` where the writer fails.
    pub fn print<W: Write>(&self, writer: &mut W, format: Format) -> Result<(), ScriptFault> {
        self.print_recorded(writer, format, &self.spans)
    }

    /// Prints the lines or the table, where the captures have these spans, and the figures are of the parts of them that are judged.
    ///
    /// # Errors
    /// `Write` where the writer fails.
    pub fn print_recorded<W: Write>(
        &self,
        writer: &mut W,
        format: Format,
        recorded: &Spans,
    ) -> Result<(), ScriptFault> {
        match format {
            Format::Text | Format::Json => self.print_lines(writer, format, recorded),
            Format::Csv => self.print_table(writer),
        }
    }
}
