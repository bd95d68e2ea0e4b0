//! Memory for one value, allocated ahead of it. Clearing or moving the slot never moves the value. The rank is kept beside the
//! pointer, so that a scan over ranks does not touch the heap.
ghost use Rattle.std.specs.Prelude.{◌≡◌, None, Some, Option, is_some, nat_le, true, false, not, ◌&&◌, IfOk, IfSome, IfNone};
ghost use Rattle.std.specs.Fn.{FnOnceReturnsAtMut};
ghost use Rattle.std.specs.Option.{option_copied};
ghost use Rattle.sr_slots.specs.Calls.{rank_or_most, passing};

use crate::ranked::Ranked;
use sr_frame::NoMemory;
use std::alloc::Global;
use std::marker::Model;

/// Memory for one value, and the value, if there is one. What was taken out stays in the memory, unseen, until the next value comes:
/// so taking it out writes one octet, however large it is. Going over the ranks of many reads no value.
#[derive(Drop)]
pub struct Cell<V: Drop + Ranked> {
    memory: Box<Option<V>>,
    // That of the value, and the greatest number where there is none.
    rank: u64,
    is_used: bool,
}

impl<V: Drop + Ranked> Model for Cell<V> {
    ghost use Rattle.std.specs.Prelude.{◌≡◌, Option, None, if◌then◌else◌};
    ghost use Rattle.sr_slots.specs.Calls.{rank_or_most};

    ghost Value = { Option V };

    ghost view = { λ p. if p.is_used then p.memory.value else None };

    ghost invariant = { λ p.
        p.rank ≡ rank_or_most V.rank_of (if p.is_used then p.memory.value else None) };
}

impl<V: Drop + Ranked> Cell<V> {
    /// Cell for a value. NoMemory: an allocation failed.
    pub fn new(alloc: Global) -> Result<Cell<V>, NoMemory>
        ensures { IfOk result (λ room. room ≡ None) }
    {
        match Box::new(alloc, None) {
            Ok(memory) => Ok(Cell {
                memory,
                rank: u64::MAX,
                is_used: false,
            }),
            Err(_) => Err(NoMemory),
        }
    }

    /// The value.
    pub fn get(&self) -> Option<&V>
        ensures { option_copied result ≡ self.now }
    {
        if self.is_used {
            (*self.memory).as_ref()
        } else {
            None
        }
    }

    /// The rank of the value, or the greatest number where there is none.
    pub fn rank_or_most(&self) -> u64
        ensures { result ≡ rank_or_most V.rank_of self.now }
    {
        self.rank
    }

    /// Puts a value there, and takes no memory.
    pub fn put(&mut self, value: V)
        ensures { self.new ≡ Some value }
    {
        self.rank = value.rank();
        *self.memory = Some(value);
        self.is_used = true;
    }

    /// Takes the value out where its rank is below a limit, and answers whether it did. Its memory stays.
    pub fn clear_below(&mut self, limit: u64) -> bool
        ensures kept { self.new ≡ passing (λ v. nat_le limit (V.rank_of v)) self.old }
        ensures gone { result ≡ (is_some self.old && not (is_some self.new)) }
    {
        // Where there is no value, the rank is below no limit.
        if self.rank >= limit {
            return false;
        }
        self.rank = u64::MAX;
        self.is_used = false;
        true
    }

    /// Changes the value. None: there is no value, and nothing changes.
    pub fn change<R, F: FnOnce(&mut V) -> R>(&mut self, change: F) -> Option<R>
        requires { F.IsAlwaysCallable change }
        ensures none { IfNone result ((self.old ≡ None) × (self.new ≡ None)) }
        ensures some { IfSome result (λ answer. (was is : V) × (self.old ≡ Some was)
            × (self.new ≡ Some is) × FnOnceReturnsAtMut F.FnOnce change was answer is) }
    {
        if !self.is_used {
            return None;
        }
        let value = (*self.memory).as_mut()?;
        let answer = change(value);
        self.rank = value.rank();
        Some(answer)
    }
}
