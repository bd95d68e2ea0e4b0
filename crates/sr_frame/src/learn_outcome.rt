//! What became of an address that a table was shown.

/// What became of an address that a table of limited size was shown.
#[derive(Clone, Copy, Debug, PartialEq, Eq)]
pub enum LearnOutcome {
    /// It is new, or was forgotten, and is kept from now on.
    New,
    /// It was known already; what is kept of it is brought up to date.
    Known,
    /// As many others are live as the table keeps: nothing is kept of it.
    Full,
}
