//! Times of day, as the calendar and the clock of UTC tell them.
#![tactic(auto)]

mod moment;

pub use moment::Moment;
