//! What of a file is read, and how far it was read.

ghost use Rattle.std.specs.Prelude.{◌≡◌, None};

use sr_capture::ByteOrder;

/// Which interface is wanted.
#[derive(Clone, Copy, Debug, PartialEq, Eq)]
pub enum Wanted {
    /// The one that is Ethernet; a section may have no second one.
    Only,
    /// The one of this number: each section counts its interfaces from 0 on.
    Number(u32),
}

/// An interface that is wanted, as its section describes it.
#[derive(Clone, Copy, Debug, PartialEq, Eq)]
pub struct Interface {
    /// Its number in the section.
    pub number: u32,
    /// The most octets that are kept of a packet; 0 is no limit.
    pub snap: u32,
    /// How many octets of check sequence stand behind each packet.
    pub check_len: u8,
    /// The unit of times: a negative power of ten, or of two where the highest bit is set.
    pub resolution: u8,
    /// What is added to times, in seconds.
    pub offset: i64,
}

/// A section, as far as it was read.
#[derive(Clone, Copy, Debug, PartialEq, Eq)]
pub struct Section {
    /// The order of the octets of numbers.
    pub order: ByteOrder,
    /// How many interfaces it has described, up to 4294967295.
    pub count: u32,
    /// The interface that is wanted, once it is described.
    pub taken: Option<Interface>,
}

/// What of a file is read, and how far it was read.
#[derive(Clone, Copy, Debug, PartialEq, Eq)]
pub struct Track {
    /// Which interface is wanted.
    pub wanted: Wanted,
    /// How many octets of check sequence stand behind a packet of an interface that does not tell.
    pub check_len: u8,
    /// The section that was begun. None: the file is at its start.
    pub section: Option<Section>,
    /// How many packets the recorder dropped of the interface that is wanted, as the last statistics of it say. None: none say so.
    pub dropped: Option<u64>,
}

impl Track {
    /// A file at its start.
    pub fn new(wanted: Wanted, check_len: u8) -> Track
        ensures wanted { result.wanted ≡ wanted }
        ensures check_len { result.check_len ≡ check_len }
        ensures start { result.section ≡ None }
        ensures untold { result.dropped ≡ None }
    {
        Track {
            wanted,
            check_len,
            section: None,
            dropped: None,
        }
    }
}
