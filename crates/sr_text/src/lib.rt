//! Text that grows at its end, in memory that is used again.
#![tactic(auto)]

mod text;

pub use text::Text;
