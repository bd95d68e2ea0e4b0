//! Arrivals of two recorders wait for one another, and go on in one order by time.
#![tactic(auto)]

mod hold;
mod laws;
mod mark;
mod pace;
mod progress;
mod recorder;

pub use hold::{Held, Hold, LINE_ROOM, Refused, Released};
pub use laws::{
    false_models_are_refused, the_mark_never_goes_back, what_is_held_is_released,
    worked_lists_are_told,
};
pub use recorder::Recorder;

#[cfg(test)]
mod tests;
