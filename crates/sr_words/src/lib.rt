//! The words of a line: numbers, octets, and what it begins with.
#![tactic(auto)]

mod hexadecimal;
mod numbers;
mod words;

pub use hexadecimal::read_hex;
pub use numbers::{front_number, number_of};
pub use words::{behind_send, is_comment, split_word};
