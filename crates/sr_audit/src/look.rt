//! What an arrival is to the stretch of its source.

use crate::tally::Came;
use sr_sequence::Distance;

/// How an arrival stands to the stretch before it.
#[derive(Clone, Copy, Debug, PartialEq, Eq)]
pub(crate) enum Step {
    /// It is the first of its source.
    First,
    /// It begins a stretch: the source was silent for 400 ms, and the number does not lie 1 to 1023 ahead.
    Restart,
    /// It begins a stretch: its number lies more than 1023 ahead, though the source was not silent.
    Jump,
    /// It goes on with the stretch: its number lies there from the greatest one, at most 1023 ahead.
    On(Distance),
}

/// What an arrival is to the stretch of its source.
#[derive(Clone, Copy, Debug, PartialEq, Eq)]
pub(crate) struct Look {
    /// How it stands to the stretch.
    pub step: Step,
    /// By which sides copies of its frame came before.
    pub came: Came,
}

impl Look {
    /// The first arrival of a source.
    pub const FIRST: Look = Look {
        step: Step::First,
        came: Came::NEITHER,
    };
}
