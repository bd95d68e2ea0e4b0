//! The histogram of skews.

use crate::families::{Kind, print_family};
use sr_frame::Mac;
use sr_watch::SourceLine;
use std::io::{self, Write};

/// The bounds of the classes of skews, in seconds.
const BOUNDS: [&str; 7] = ["1e-05", "0.0001", "0.001", "0.01", "0.1", "0.4", "+Inf"];

/// Prints how many skews of a source are under each bound.
fn print_buckets<W: Write>(
    writer: &mut W,
    name: &'static str,
    mac: Mac,
    classes: [u64; 7],
) -> io::Result<()> {
    let mut sum: u64 = 0;
    for at in 0..7 {
        sum = sum.saturating_add(classes[at]);
        let bound = BOUNDS[at];
        writeln!(
            writer,
            "{name}_bucket{{source=\"{mac}\",le=\"{bound}\"}} {sum}"
        )?;
    }
    Ok(())
}

/// Prints how far apart the copies of frames came: how many were how far apart, and how many there are.
pub(crate) fn print_skews<W: Write>(writer: &mut W, sources: &[SourceLine]) -> io::Result<()> {
    let name = "seamless_skew_seconds";
    let help = "How far apart the copies of frames came.";
    print_family(writer, name, Kind::Histogram, help)?;
    for line in sources {
        let mac = line.source;
        let skews = &line.total.skews;
        let count = skews.count;
        print_buckets(writer, name, mac, skews.classes)?;
        writeln!(writer, "{name}_count{{source=\"{mac}\"}} {count}")?;
    }
    Ok(())
}
