//! Text from outside, as it stands in a page of HTML.
#![tactic(auto)]

mod escaped;
mod hidden;

pub use escaped::Escaped;
