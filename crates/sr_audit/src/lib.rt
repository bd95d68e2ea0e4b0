//! What two captures of a redundant network tell of its frames: which came by both sides, and which by one alone.
#![tactic(auto)]

mod alive;
mod arrival;
mod audit;
mod extent;
mod laws;
mod listing;
mod look;
mod moments;
mod numbers;
mod pending;
mod places;
mod row;
mod side;
mod skew;
mod source;
mod span;
mod tally;
mod waiting;

pub use alive::{Alive, Lives};
pub use arrival::Arrival;
pub use audit::{Audit, MAX_SOURCES};
pub use laws::{
    calls_add_up, copies_add_up, lost_copies_add_up, no_call_is_taken_back, numbers_add_up,
    sources_add_up,
};
pub use listing::{Copied, LISTED_AT_ONCE, Listed, Listing};
pub use numbers::Numbers;
pub use row::Row;
pub use side::Side;
pub use skew::{SKEW_BOUNDS, Skews};
pub use source::{Figures, Source};
pub use span::{Span, Spans};
pub use tally::{Came, Sides, Tally};
