//! What a supervision frame says.

use sr_frame::Mac;
use sr_sequence::Seq;

/// How a node announces itself, by the type of the first TLV.
#[derive(Clone, Copy, Debug, PartialEq, Eq)]
pub enum Life {
    /// An HSR node (type 23).
    Hsr,
    /// A PRP node that discards duplicates (type 20).
    PrpDiscard,
    /// A PRP node that accepts duplicates (type 21).
    PrpAccept,
    /// A node that announces itself (type 22).
    Announce,
}

/// What a supervision frame says, as IEC 62439-3 clauses 4 and 5 lay it out.
#[derive(Clone, Copy, Debug, PartialEq, Eq)]
pub struct Supervision {
    /// The sender's number of the supervision frame, which is not that of its HSR tag or PRP trailer.
    pub seq: Seq,
    /// How the node announces itself.
    pub life: Life,
    /// The node's address.
    pub mac: Mac,
    /// The address of the RedBox that the node stands behind.
    pub redbox: Option<Mac>,
}
