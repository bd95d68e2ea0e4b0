//! How many pieces the items take, which no clause says.

ghost use Rattle.std.specs.Prelude.{◌≡◌, ◌<◌, true};

use super::*;
use std::alloc::Global;

const PIECES: usize = 196;

/// So many items fill that many pieces.
const ITEMS: usize = PIECES * PIECE;

// A list with no items. Where an allocation fails the call is repeated.
fn makes(alloc: Global) -> Option<UnrolledList<usize>> {
    match UnrolledList::new(alloc) {
        Ok(list) => Some(list),
        Err(_) => UnrolledList::new(alloc).ok(),
    }
}

// Makes room for one more item. Where an allocation fails the list is as it was, and the call is repeated.
fn makes_room(list: &mut UnrolledList<usize>) -> bool
    ensures { result ≡ true → 0 < list.new.room }
{
    match list.reserve(1) {
        Ok(()) => true,
        Err(_) => list.reserve(1).is_ok(),
    }
}

// Puts so many items, each the number of those before it.
fn puts(list: &mut UnrolledList<usize>, count: usize) -> bool {
    for item in 0..count {
        if !makes_room(list) {
            return false;
        }
        list.push_back_reserved(item);
    }
    true
}

/// Where the first items are taken out.
#[derive(Clone, Copy)]
enum End {
    Front,
    Back,
}

// Takes out all items but the first of each piece.
fn thin_out(list: &mut UnrolledList<usize>, end: End) {
    for turn in 0..PIECES {
        let place = match end {
            End::Front => turn + 1,
            End::Back => (PIECES - 1 - turn) * PIECE + 1,
        };
        for _ in 1..PIECE {
            let _gone = list.remove(place);
        }
    }
}

// Whether the items are just these: 0, so many, twice as many, and so on, and how many they are.
fn are_each(list: &UnrolledList<usize>, every: usize, count: usize) -> bool {
    for place in 0..count {
        match list.get(place) {
            Some(item) if *item == place.wrapping_mul(every) => {}
            _ => return false,
        }
    }
    list.len() == count
}

// How many pieces are in use when one item of each is left, and how many more pieces there are than before when as many items are
// put again.
fn pieces_of_few(alloc: Global, end: End) -> Option<(usize, usize)> {
    let mut list = makes(alloc)?;
    if !puts(&mut list, ITEMS) {
        return None;
    }
    let before = list.pieces();
    thin_out(&mut list, end);
    let (few, _) = list.pieces();
    if !are_each(&list, PIECE, PIECES) || !puts(&mut list, ITEMS - PIECES) {
        return None;
    }
    let (used, spare) = list.pieces();
    Some((
        few,
        used.saturating_add(spare)
            .saturating_sub(before.0)
            .saturating_sub(before.1),
    ))
}

// The 196 items that are left fill less than half of a piece, so they stand in one and in the last. Of these the one stays as it is
// when more are put, so they take a piece more.
#[test]
fn few_items_take_few_pieces(rt: HostRuntime) {
    for end in [End::Front, End::Back] {
        assert_eq!(rt; pieces_of_few(rt.alloc(), end), Some((2, 1)));
    }
}
