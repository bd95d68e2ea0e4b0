//! The pieces of a list before its last one, each with an item, and the spare pieces.

ghost use Rattle.std.specs.Prelude.{◌≡◌, ◌↔◌, ◌+◌, ◌*◌, ◌^◌, ◌<◌, ◌≤◌, [], ◌++◌, ℕ, length, remove, drop, slice_index_or, IfSome, IfNone, IsSome, OnErr, OnOk, OnSome};
ghost use Rattle.sr_unrolled_list.specs.Lists.{IsPiece};

use crate::PIECE;
use crate::joining::join_round;
use crate::spot::spot_of;
use crate::taking::take_piece;
use std::alloc::{AllocError, Global};
use std::collections::VecDeque;
use std::marker::Model;
use std::mem;

/// Pieces in use, none of them empty, and spare ones.
#[derive(Drop)]
pub(crate) struct Pieces<T> {
    used: VecDeque<VecDeque<T>>,
    spare: VecDeque<VecDeque<T>>,
}

impl<T> Model for Pieces<T> {
    ghost use Rattle.std.specs.Prelude.{length};
    ghost use Rattle.sr_unrolled_list.specs.Lists.{PiecesValue, items_of, front_of, AreSound};

    ghost Value = { PiecesValue T };

    ghost view = { λ p. record {
      items = items_of p.used.items;
      front = front_of p.used.items;
      spare = length p.spare.items;
    } };

    ghost invariant = { λ p. AreSound p.used p.spare };
}

impl<T> Pieces<T> {
    /// No pieces.
    pub(crate) fn new(alloc: Global) -> Pieces<T>
        ensures items { result.items ≡ [] }
        ensures front { result.front ≡ 0 }
        ensures spare { result.spare ≡ 0 }
    {
        Pieces {
            used: VecDeque::new(alloc),
            spare: VecDeque::new(alloc),
        }
    }

    /// Makes at least so many pieces spare. The items stay the same.
    pub(crate) fn reserve(&mut self, alloc: Global, wanted: usize) -> Result<(), AllocError>
        ensures items { self.new.items ≡ self.old.items }
        ensures front { self.new.front ≡ self.old.front }
        ensures spare { self.old.spare ≤ self.new.spare }
        ensures few { self.new.spare < 2 ^ 63 }
        ensures ok { OnOk result (wanted ≤ self.new.spare) }
        ensures err { OnErr result (self.old.spare < wanted) }
    {
        if wanted <= self.spare.len() {
            return Ok(());
        }
        let more = wanted - self.spare.len();
        self.used.reserve(wanted)?;
        self.spare.reserve(self.used.len() + more)?;
        for _ in 0..more {
            let piece = VecDeque::with_capacity(alloc, PIECE)?;
            self.spare.push_back_reserved(piece);
        }
        Ok(())
    }

    // How many pieces are in use, and how many are spare.
    #[cfg(test)]
    pub(crate) fn count(&self) -> (usize, usize) {
        (self.used.len(), self.spare.len())
    }

    /// The item at a place.
    pub(crate) fn get(&self, place: usize) -> Option<&T>
        ensures there { IsSome result ↔ (place < length self.now.items) }
        ensures item { IfSome result (λ x. x.now ≡ slice_index_or self.now.items place x.now) }
    {
        let spot = spot_of(&self.used, place);
        self.used.get(spot.piece)?.get(spot.place)
    }

    /// The first item.
    pub(crate) fn front(&self) -> Option<&T>
        ensures there { IsSome result ↔ (0 < length self.now.items) }
        ensures item { IfSome result (λ x. x.now ≡ slice_index_or self.now.items 0 x.now) }
    {
        self.used.front()?.front()
    }

    /// Takes the item at a place out, if there is one.
    pub(crate) fn remove(&mut self, place: usize) -> Option<T>
        ensures there { IsSome result ↔ (place < length self.old.items) }
        ensures item { IfSome result (λ x. x ≡ slice_index_or self.old.items place x) }
        ensures items { OnSome result (self.new.items ≡ remove self.old.items place) }
        ensures none { IfNone result (self.new ≡ self.old) }
        ensures spare { self.old.spare ≤ self.new.spare }
        ensures front { self.new.front + self.old.spare * PIECE
            ≤ self.old.front + self.new.spare * PIECE }
        ensures few { self.new.front ≤ PIECE }
    {
        let spot = spot_of(&self.used, place);
        let piece = self.used.get_mut(spot.piece)?;
        if piece.len() == 1 {
            return take_piece(&mut self.used, &mut self.spare, spot.piece);
        }
        let item = piece.remove(spot.place)?;
        join_round(&mut self.used, &mut self.spare, spot.piece);
        Some(item)
    }

    /// Takes the first item out, if there is one.
    pub(crate) fn pop_front(&mut self) -> Option<T>
        ensures there { IsSome result ↔ (0 < length self.old.items) }
        ensures item { IfSome result (λ x. x ≡ slice_index_or self.old.items 0 x) }
        ensures items { OnSome result (self.new.items ≡ drop 1 self.old.items) }
        ensures none { IfNone result (self.new ≡ self.old) }
        ensures spare { self.old.spare ≤ self.new.spare }
        ensures front { OnSome result (self.new.front + 1 + self.old.spare * PIECE
            ≤ self.old.front + self.new.spare * PIECE) }
        ensures few { self.new.front ≤ PIECE }
        ensures some { OnSome result (0 < self.old.front) }
        ensures last { OnSome result (self.new.front ≡ 0 → self.old.spare < self.new.spare) }
    {
        let piece = self.used.front_mut()?;
        if piece.len() == 1 {
            return take_piece(&mut self.used, &mut self.spare, 0);
        }
        piece.pop_front()
    }

    /// Puts a piece behind all others, if it has an item, and leaves an empty one in its place.
    pub(crate) fn put_last(&mut self, last: &mut VecDeque<T>)
        requires is { IsPiece last.old }
        requires some { 0 < length last.old.items }
        requires spare { 0 < self.old.spare }
        ensures is { IsPiece last.new }
        ensures none { last.new.items ≡ [] }
        ensures items { self.new.items ≡ self.old.items ++ last.old.items }
        ensures spare { self.new.spare + 1 ≡ self.old.spare }
        ensures few { self.new.front ≤ PIECE }
        ensures front { 0 < self.old.front → self.new.front ≡ self.old.front }
    {
        if let Some(next) = self.spare.pop_back() {
            let full = mem::replace(last, next);
            self.used.push_back_reserved(full);
        }
    }
}
