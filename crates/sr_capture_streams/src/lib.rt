//! The streams of GOOSE and sampled values in captures: their messages are counted, and printed.
#![tactic(auto)]

mod lines;
mod watching;

pub use lines::print_streams;
pub use watching::StreamWatch;
