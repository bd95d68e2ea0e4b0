//! What an engineer is told of a network: the figures of an audit as a list of faults and notices, the most severe first.
#![tactic(auto)]

mod cutting;
mod drops;
mod heard;
mod hearing;
mod judging;
mod kinds;
mod limits;
mod lines;
mod mending;
mod names;
mod nodes;
mod place;
mod shared;
mod sharing;
mod verdict;
mod why;
mod words;

pub use heard::{Heard, When};
pub use judging::{Outside, verdicts_of};
pub use limits::Limits;
pub use lines::print_verdicts;
pub use names::Names;
pub use place::{Neighbour, Place};
pub use shared::{Cut, Share};
pub use verdict::{Verdict, reason_in, status_of};
pub use why::Why;
