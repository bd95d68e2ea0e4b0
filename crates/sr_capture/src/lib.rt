//! Captures of Ethernet traffic, as tcpdump and Wireshark write them: the packets of a file, in one pass over any
//! buffered reader and in bounded memory.
#![tactic(auto)]

mod fault;
mod header;
mod laws;
mod listed;
mod numbers;
mod packet;
mod record;
mod taking;

pub use fault::{CaptureFault, Reason};
pub use header::{Form, HEADER_LEN, TimeUnit, read_header};
pub use laws::{broken_files_are_none, packets_are_unique};
pub use listed::Listed;
pub use numbers::{ByteOrder, half_at, word_at};
pub use packet::{Extent, MAX_KEPT, Packet};
pub use record::next_packet;
pub use taking::{fill, keep};
