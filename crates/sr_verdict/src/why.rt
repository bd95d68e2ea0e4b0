//! Why nothing can be judged.

use crate::words::lan_word;
use sr_audit::Side;
use sr_capture_audit::Reason;
use std::fmt;

/// Why nothing can be judged of a network.
#[derive(Clone, Copy, Debug, PartialEq, Eq)]
pub enum Why {
    /// The figures say so, or what is known besides them.
    Figures(Reason),
    /// The recorder of a LAN, or of a mirror port, dropped so many packets, which may be all that were lost.
    Dropped(Option<Side>, u64),
}

/// The word for so many packets.
fn packets_word(packets: u64) -> &'static str {
    if packets == 1 { "packet" } else { "packets" }
}

impl fmt::Display for Why {
    fn fmt<W: fmt::Write>(&self, f: &mut fmt::Formatter<W>) -> fmt::Result {
        match *self {
            Why::Figures(reason) => write!(f, "{reason}"),
            Why::Dropped(Some(lan), packets) => {
                let (lan, word) = (lan_word(Some(lan)), packets_word(packets));
                write!(
                    f,
                    "the recorder of {lan} dropped {packets} {word}, which may be all that LAN {lan} lost"
                )
            }
            Why::Dropped(None, packets) => {
                let word = packets_word(packets);
                write!(
                    f,
                    "the recorder dropped {packets} {word}, which may be all that was lost"
                )
            }
        }
    }
}
