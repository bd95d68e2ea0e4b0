//! A list in pieces: to take an item out anywhere moves no more of the others than a piece has.
#![tactic(auto)]

mod joining;
mod list;
mod pieces;
mod spot;
mod taking;

pub use list::UnrolledList;

/// How many items a piece has room for. To take an item out walks over the pieces before it, some 5 instructions for each, and
/// moves at most half a piece, some 8 for each item. In the middle of 100,000 items the two come to the least with some 400 in a
/// piece, and in the middle of 900,000 with some 1,100.
// speed: D-plant-pieces
pub(crate) const PIECE: usize = 512;

#[cfg(test)]
mod tests;
