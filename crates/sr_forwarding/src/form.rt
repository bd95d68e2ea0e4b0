//! How the octets of a parcel carry its number.

/// How the octets of a parcel carry its number.
#[derive(Clone, Copy, Debug, PartialEq, Eq)]
pub enum Form {
    /// Not at all: an ordinary frame.
    Plain,
    /// By an HSR tag (IEC 62439-3 clause 5).
    Hsr,
    /// By a PRP trailer (IEC 62439-3 clause 4).
    Prp,
}
