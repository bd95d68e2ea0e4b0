//! The table of single lost frames.

use crate::page::Page;
use crate::teller::{Teller, way_of};
use sr_audit_charts::Single;
use sr_page::{SingleRow, close_singles, open_singles, write_single};
use std::io::{self, Write};

/// What the table shows of a lost frame.
fn row_of(single: &Single) -> SingleRow {
    let Single { mac, lan, lost } = *single;
    SingleRow {
        time: lost.since,
        mac,
        seq: lost.first.0,
        lost_on: match lan {
            Some(side) => Some(way_of(side)),
            None => None,
        },
        packet: match lost.packets {
            Some(packets) => Some(packets.first),
            None => None,
        },
    }
}

/// Writes the first lost frames one by one.
pub(crate) fn write_singles<W: Write>(
    writer: &mut W,
    page: &Page<'_>,
    teller: Teller<'_>,
) -> io::Result<()> {
    let kept = page.kept;
    if kept.singles.is_empty() {
        return Ok(());
    }
    open_singles(writer, kept.singles.len() as u64, kept.lost)?;
    for single in &kept.singles {
        write_single(writer, teller.names, teller.topology, &row_of(single))?;
    }
    close_singles(writer)
}
