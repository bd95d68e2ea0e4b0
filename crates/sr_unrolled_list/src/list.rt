//! The list in pieces.

ghost use Rattle.std.specs.Prelude.{◌≡◌, ◌↔◌, ◌+◌, ◌*◌, ◌<◌, ◌≤◌, [], ◌∷◌, ◌++◌, length, remove, take, drop, slice_index_or, IfOk, IfSome, IfNone, IsSome, OnErr, OnOk, OnSome};
ghost use Rattle.sr_unrolled_list.specs.Lists.{IsPiece};

use crate::PIECE;
use crate::pieces::Pieces;
use std::alloc::{AllocError, Global};
use std::collections::VecDeque;
use std::marker::Model;

/// A list that keeps its items in pieces of at most 512. Wherever one is taken out, no more of the others move than a piece has.
#[derive(Drop)]
pub struct UnrolledList<T> {
    pieces: Pieces<T>,
    // The piece behind them, to which items are put.
    last: VecDeque<T>,
    // How many items there are.
    len: usize,
    alloc: Global,
}

impl<T> Model for UnrolledList<T> {
    ghost use Rattle.std.specs.Prelude.{◌++◌};
    ghost use Rattle.sr_unrolled_list.specs.Lists.{ListValue, room_of, IsInPieces};

    ghost Value = { ListValue T };

    ghost view = { λ l. record {
      items = l.pieces.items ++ l.last.items;
      room = room_of l.pieces.spare l.last l.len;
    } };

    ghost invariant = { λ l. IsInPieces l.pieces l.last l.len };
}

// Puts an item to the last piece. Where that is full, it goes behind the others, and a spare one is the last.
fn put<T>(pieces: &mut Pieces<T>, last: &mut VecDeque<T>, item: T)
    requires is { IsPiece last.old }
    requires room { length last.old.items < (pieces.old.spare + 1) * PIECE }
    ensures is { IsPiece last.new }
    ensures items { pieces.new.items ++ last.new.items
        ≡ pieces.old.items ++ last.old.items ++ item ∷ [] }
    ensures room { length last.new.items + pieces.old.spare * PIECE
        ≡ length last.old.items + 1 + pieces.new.spare * PIECE }
    ensures few { pieces.old.front ≤ PIECE → pieces.new.front ≤ PIECE }
    ensures front { 0 < pieces.old.front → pieces.new.front ≡ pieces.old.front }
{
    if last.len() >= PIECE {
        pieces.put_last(last);
    }
    last.push_back_reserved(item);
}

impl<T> UnrolledList<T> {
    /// A list with no items. `AllocError` where the allocation of its first piece fails.
    pub fn new(alloc: Global) -> Result<UnrolledList<T>, AllocError>
        ensures { IfOk result (λ l. l.items ≡ []) }
    {
        let last = VecDeque::with_capacity(alloc, PIECE)?;
        Ok(UnrolledList {
            pieces: Pieces::new(alloc),
            last,
            len: 0,
            alloc,
        })
    }

    // How many pieces hold items, and how many are spare. The last piece counts as one that does.
    #[cfg(test)]
    pub(crate) fn pieces(&self) -> (usize, usize) {
        let (used, spare) = self.pieces.count();
        (used.saturating_add(1), spare)
    }

    /// How many items there are.
    pub fn len(&self) -> usize
        ensures { result ≡ length self.now.items }
    {
        self.len
    }

    /// The item at a place.
    pub fn get(&self, place: usize) -> Option<&T>
        ensures there { IsSome result ↔ (place < length self.now.items) }
        ensures item { IfSome result (λ x. x.now ≡ slice_index_or self.now.items place x.now) }
    {
        let before = self.len - self.last.len();
        if place < before {
            return self.pieces.get(place);
        }
        self.last.get(place - before)
    }

    /// The first item.
    pub fn front(&self) -> Option<&T>
        ensures there { IsSome result ↔ (0 < length self.now.items) }
        ensures item { IfSome result (λ x. x.now ≡ slice_index_or self.now.items 0 x.now) }
    {
        if let Some(item) = self.pieces.front() {
            return Some(item);
        }
        self.last.front()
    }

    /// Makes room for so many more items. `AllocError` where an allocation fails. The items stay the same.
    pub fn reserve(&mut self, additional: usize) -> Result<(), AllocError>
        ensures items { self.new.items ≡ self.old.items }
        ensures room { self.old.room ≤ self.new.room }
        ensures ok { OnOk result (additional ≤ self.new.room) }
        ensures err { 0 < additional → OnErr result (self.old.room < additional) }
    {
        if additional > usize::MAX - self.len {
            // No number counts so many items, and no memory holds so many pieces.
            return self.pieces.reserve(self.alloc, usize::MAX);
        }
        let pieces = (self.last.len() + additional).div_ceil(PIECE);
        self.pieces.reserve(self.alloc, pieces)
    }

    /// Puts an item behind all others.
    pub fn push_back_reserved(&mut self, item: T)
        requires { 0 < self.old.room }
        ensures items { self.new.items ≡ self.old.items ++ item ∷ [] }
        ensures room { self.old.room ≤ self.new.room + 1 }
        ensures few { length self.new.items ≤ 18446744073709551615 }
    {
        put(&mut self.pieces, &mut self.last, item);
        self.len += 1;
    }

    /// Takes the item at a place out, if there is one. The room stays.
    pub fn remove(&mut self, place: usize) -> Option<T>
        ensures there { IsSome result ↔ (place < length self.old.items) }
        ensures item { IfSome result (λ x. x ≡ slice_index_or self.old.items place x) }
        ensures items { OnSome result (self.new.items ≡ remove self.old.items place) }
        ensures none { IfNone result (self.new ≡ self.old) }
        ensures room { self.old.room ≤ self.new.room }
    {
        let before = self.len - self.last.len();
        if place < before {
            let item = self.pieces.remove(place)?;
            self.len -= 1;
            return Some(item);
        }
        let item = self.last.remove(place - before)?;
        self.len -= 1;
        Some(item)
    }

    /// Takes the first item out, if there is one. The room stays.
    pub fn pop_front(&mut self) -> Option<T>
        ensures there { IsSome result ↔ (0 < length self.old.items) }
        ensures item { IfSome result (λ x. x ≡ slice_index_or self.old.items 0 x) }
        ensures items { OnSome result (self.new.items ≡ drop 1 self.old.items) }
        ensures none { IfNone result (self.new ≡ self.old) }
        ensures room { self.old.room ≤ self.new.room }
    {
        if let Some(item) = self.pieces.pop_front() {
            self.len -= 1;
            return Some(item);
        }
        let item = self.last.pop_front()?;
        self.len -= 1;
        Some(item)
    }

    /// Moves the first item, if there is one, behind all others. The room may be less by that item.
    pub fn turn(&mut self)
        ensures items { self.new.items ≡ drop 1 self.old.items ++ take 1 self.old.items }
        ensures room { self.old.room ≤ self.new.room + 1 }
    {
        if let Some(first) = self.pieces.pop_front() {
            put(&mut self.pieces, &mut self.last, first);
            return;
        }
        if let Some(first) = self.last.pop_front() {
            self.last.push_back_reserved(first);
        }
    }
}
