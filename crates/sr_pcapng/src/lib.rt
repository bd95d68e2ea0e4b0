//! Captures of Ethernet traffic in Wireshark's own format, pcapng: the packets of one interface of a file, in one pass over
//! any buffered reader and in bounded memory, and files of two interfaces, written a packet at a time.
#![tactic(auto)]

mod block;
mod body;
mod enhanced;
mod interface;
mod lanes;
mod laws;
mod listing;
mod options;
mod packets;
mod reading;
mod simple;
mod statistics;
mod times;
mod track;
mod writing;

pub use lanes::{Entry, Lane, MAX_WRITTEN, Names};
pub use laws::{
    comments_are_read, entries_are_writable, names_are_read, packets_are_unique,
    what_is_written_is_read,
};
pub use packets::next_packet;
pub use track::{Interface, Section, Track, Wanted};
pub use writing::{write_head, write_packet};
