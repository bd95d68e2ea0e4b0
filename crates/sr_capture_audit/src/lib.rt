//! The audit of captures of a redundant network: packets are read, their figures counted and printed.
#![tactic(auto)]

mod clocks;
mod counts;
mod edges;
mod fates;
mod figures;
mod flows;
mod gathering;
mod hints;
mod judgement;
mod kind;
mod laws;
mod lines;
mod lists;
mod network;
mod printing;
mod redboxes;
mod rows;
mod ruling;
mod shown;
mod spanning;
mod telling;
mod timing;

pub use clocks::{clocks_between, delays_by, print_clocks};
pub use counts::{Counts, SideCounts};
pub use edges::inner_spans;
pub use figures::{Report, Summary};
pub use flows::{Flows, Sight, flows_in, judges_all, sight_of};
pub use gathering::{Gathered, figures_of, gathered_of};
pub use hints::{Hint, hint_of};
pub use judgement::{Judgement, Reason};
pub use laws::judged_frames_may_be_all;
pub use lists::{Lists, print_lists};
pub use network::{Network, Ports, Subject};
pub use redboxes::RedBoxes;
pub use rows::{Field, Format, Value, print_row};
pub use ruling::{Rule, Ruling, ruled_of};
pub use spanning::spans_beside;
pub use telling::{TakesTold, Told, tell_fates};
