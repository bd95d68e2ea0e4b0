//! Where an item of a list in pieces is.

ghost use Rattle.std.specs.Prelude.{◌≡◌, ◌<◌, length};
ghost use Rattle.sr_unrolled_list.specs.Lists.{items_of, IsAt};

use std::collections::VecDeque;

/// A place in a piece, and which piece it is.
#[derive(Clone, Copy)]
pub(crate) struct Spot {
    pub(crate) piece: usize,
    pub(crate) place: usize,
}

// Walks over pieces. Where the place is behind them, the spot is in the piece after the last one.
fn walk<T>(pieces: &[VecDeque<T>], place: usize) -> Spot
    ensures { IsAt pieces.now place result.piece result.place }
{
    let mut left = place;
    for (at, piece) in pieces.iter().enumerate() {
        let len = piece.len();
        if left < len {
            return Spot {
                piece: at,
                place: left,
            };
        }
        left -= len;
    }
    Spot {
        piece: pieces.len(),
        place: left,
    }
}

/// Where the item at a place is.
pub(crate) fn spot_of<T>(pieces: &VecDeque<VecDeque<T>>, place: usize) -> Spot
    ensures { IsAt pieces.now.items place result.piece result.place }
{
    let (front, back) = pieces.as_slices();
    let spot = walk(front, place);
    if spot.piece < front.len() {
        return spot;
    }
    let behind = walk(back, spot.place);
    Spot {
        piece: front.len() + behind.piece,
        place: behind.place,
    }
}
