//! What each finding begins and ends with.

use crate::teller::Teller;
use sr_frame::Mac;
use sr_page::{Weight, open_finding, put_advice, put_filter, put_since, put_subject};
use std::io::{self, Write};

/// Begins a finding of a kind on a source.
pub(crate) fn begin<W: Write>(
    writer: &mut W,
    teller: Teller<'_>,
    weight: Weight,
    kind: &'static str,
    mac: Mac,
) -> io::Result<()> {
    open_finding(writer, weight, kind)?;
    put_subject(writer, teller.names, mac)
}

/// Ends a finding on a source: what to do, and how to see its frames.
pub(crate) fn end<W: Write>(writer: &mut W, mac: Mac, advice: &'static str) -> io::Result<()> {
    put_advice(writer, advice)?;
    put_filter(writer, mac)
}

/// Ends a finding on a source that holds since a time.
pub(crate) fn end_since<W: Write>(
    writer: &mut W,
    mac: Mac,
    time: u64,
    advice: &'static str,
) -> io::Result<()> {
    put_since(writer, time)?;
    end(writer, mac, advice)
}
