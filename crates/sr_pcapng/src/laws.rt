//! Laws about files of blocks.

ghost use Rattle.sr_pcapng.specs.Laws.{PacketsAreUnique};
ghost use Rattle.sr_pcapng.specs.Writing.{written_of, IsWritable, WhatIsWrittenIsRead, CommentsAreRead, NamesAreRead};

use crate::lanes::Entry;

/// Octets have one list of packets of the interface that is wanted at most.
pub fn packets_are_unique()
    ensures { PacketsAreUnique }
{}

/// A file that is written is read again: of each of its two interfaces the packets that came by it, in their order, each with its time,
/// its octets, and whether these are all that it had.
pub fn what_is_written_is_read()
    ensures { WhatIsWrittenIsRead }
{}

/// The comment of a packet and how many octets it had stand in its block.
pub fn comments_are_read()
    ensures { CommentsAreRead }
{}

/// The names of the interfaces stand in their descriptions.
pub fn names_are_read()
    ensures { NamesAreRead }
{}

/// Every entry is within the limits that the laws of files that are written ask for.
pub fn entries_are_writable(entry: &Entry<'_>)
    ensures { IsWritable (written_of entry.now) }
{
    let _len = entry.len;
}
