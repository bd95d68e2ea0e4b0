//! An item is taken out of a piece, or with a piece of which it is the only one.

ghost use Rattle.std.specs.Prelude.{◌≡◌, ◌+◌, ◌<◌, [], ◌∷◌, length, remove, slice_index_or, IfSome, IsSome};
ghost use Rattle.std.specs.declared.collections.VecDeque.{VecDeque};
ghost use Rattle.std.specs.declared.alloc.Global.{Global};
ghost use Rattle.sr_unrolled_list.specs.Lists.{AreSound, IsSingle};

use std::collections::VecDeque;

/// Takes out a piece of one item, which becomes spare, and with it the item.
pub(crate) fn take_piece<T>(
    used: &mut VecDeque<VecDeque<T>>,
    spare: &mut VecDeque<VecDeque<T>>,
    at: usize,
) -> Option<T>
    requires sound { AreSound used.old spare.old }
    requires within { at < length used.old.items }
    requires single { IsSingle used.old.items at }
    ensures sound { AreSound used.new spare.new }
    ensures some { IsSome result }
    ensures item { IfSome result (λ x. (p : VecDeque T Global)
        → p ≡ slice_index_or used.old.items at p → p.items ≡ x ∷ []) }
    ensures used { used.new.items ≡ remove used.old.items at }
    ensures spare { length spare.new.items ≡ length spare.old.items + 1 }
{
    let mut piece = used.remove(at)?;
    let item = piece.pop_front();
    spare.push_back_reserved(piece);
    item
}
