//! Two neighbouring pieces that fill no more than half of one become one, so that few items don't take many pieces.

ghost use Rattle.std.specs.Prelude.{◌≡◌, ◌+◌, ◌*◌, ◌<◌, ◌≤◌, true, length};
ghost use Rattle.sr_unrolled_list.specs.Lists.{items_of, front_of, AreSound, AreFew};

use crate::PIECE;
use std::collections::VecDeque;

// Whether a piece and the one behind it fill no more than half of one.
fn are_few<T>(used: &VecDeque<VecDeque<T>>, at: usize) -> bool
    requires { at < length used.now.items }
    ensures { result ≡ true → AreFew used.now.items at }
{
    match (used.get(at), used.get(at + 1)) {
        (Some(piece), Some(next)) => piece.len() + next.len() <= PIECE / 2,
        _ => false,
    }
}

// Joins a piece with the one behind it, if the two fill no more than half of one. The one behind it becomes spare.
fn join<T>(used: &mut VecDeque<VecDeque<T>>, spare: &mut VecDeque<VecDeque<T>>, at: usize)
    requires sound { AreSound used.old spare.old }
    requires within { at < length used.old.items }
    ensures sound { AreSound used.new spare.new }
    ensures items { items_of used.new.items ≡ items_of used.old.items }
    ensures spare { length spare.old.items ≤ length spare.new.items }
    ensures front { front_of used.new.items + length spare.old.items * PIECE
        ≤ front_of used.old.items + length spare.new.items * PIECE }
    ensures before { at < length used.new.items }
{
    if !are_few(used, at) {
        return;
    }
    let Some(mut next) = used.remove(at + 1) else {
        return;
    };
    // It has room for them, so this takes no memory.
    let _ = used[at].append(&mut next);
    spare.push_back_reserved(next);
}

/// Joins a piece with the one behind it, and with the one before it, where the two fill no more than half of one.
pub(crate) fn join_round<T>(
    used: &mut VecDeque<VecDeque<T>>,
    spare: &mut VecDeque<VecDeque<T>>,
    at: usize,
)
    requires sound { AreSound used.old spare.old }
    requires within { at < length used.old.items }
    ensures sound { AreSound used.new spare.new }
    ensures items { items_of used.new.items ≡ items_of used.old.items }
    ensures spare { length spare.old.items ≤ length spare.new.items }
    ensures front { front_of used.new.items + length spare.old.items * PIECE
        ≤ front_of used.old.items + length spare.new.items * PIECE }
{
    join(used, spare, at);
    if 0 < at {
        join(used, spare, at - 1);
    }
}
