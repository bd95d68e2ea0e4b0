//! The table of addresses.
ghost use Rattle.std.specs.Prelude.{◌≡◌, ◌++◌, ◌∷◌, [], None, true, false, is_some, length, filter, nat_le, IsOk, IfOk, OnOk, OnErr, IfSome, IfNone, not};
ghost use Rattle.std.specs.List.{IsDistinct};
ghost use Rattle.std.specs.Map.{keys_of};
ghost use Rattle.std.specs.Option.{option_copied, option_map};
ghost use Rattle.sr_frame.specs.Addresses.{mac_eq};
ghost use Rattle.sr_slots.specs.Places.{held_of, held_but, is_held, value_at, KeepsHeld, KeepsHeldBut, KeepsAllHeld};
ghost use Rattle.std.specs.Map.Iter.{ShowsInOrder};
ghost use Rattle.sr_slots.specs.Calls.{ChangesAt, least_rank, shown_entry};

use crate::entries::Iter;
use crate::keys::Keys;
use crate::places::Slot;
use crate::ranked::Ranked;
use crate::{holding, places, putting, sifting};
use indexmap::{IndexMap, map};
use sr_frame::{Mac, NoMemory};
use std::alloc::Global;
use std::marker::Model;

/// Where an address was found in a table. It may have moved since, or gone: who looks there compares the address first.
#[derive(Clone, Copy, PartialEq, Eq, Debug)]
pub struct Hint {
    index: usize,
}

/// Values by address, in the order in which the addresses came. A place can be held for an address that has no value yet. What goes
/// leaves its place empty. When its address comes back that place becomes the last, and an empty one of nobody's stands where it was,
/// until `sweep` is called.
#[derive(Drop)]
pub struct Slots<V: Drop + Ranked> {
    map: IndexMap<Mac, Slot<V>, Keys>,
    alloc: Global,
    count: usize,
    held: usize,
    // No place from this index on has a value.
    end: usize,
    // How many gaps were added for places that moved to the end.
    drawn: u64,
}

impl<V: Drop + Ranked> Model for Slots<V> {
    ghost use Rattle.std.specs.Prelude.{◌≡◌, length};
    ghost use Rattle.std.specs.Prelude.{[]};
    ghost use Rattle.sr_slots.specs.Places.{Places, entries_of, entries_from, held_of};

    ghost Value = { Places V };

    ghost view = { λ s.
        record { entries = entries_of s.map.entries; held = held_of s.map.entries } };

    ghost invariant = { λ s.
        (s.count ≡ length (entries_of s.map.entries)) × (s.held ≡ length (held_of s.map.entries))
        × (entries_from s.end s.map.entries ≡ []) };
}

impl<V: Drop + Ranked> Slots<V> {
    /// An empty table under fixed keys, which takes no memory yet.
    pub fn new(alloc: Global) -> Slots<V>
        ensures entries { result.entries ≡ [] }
        ensures held { result.held ≡ [] }
    {
        Slots::with_keys(alloc, Keys::FIXED)
    }

    /// An empty table whose places depend on these keys, which takes no memory yet.
    pub fn with_keys(alloc: Global, keys: Keys) -> Slots<V>
        ensures entries { result.entries ≡ [] }
        ensures held { result.held ≡ [] }
    {
        Slots {
            map: places::empty(alloc, keys),
            alloc,
            count: 0,
            held: 0,
            end: 0,
            drawn: 0,
        }
    }

    /// How many addresses have a value.
    pub fn len(&self) -> usize
        ensures len { result ≡ length self.now.entries }
        ensures unique { IsDistinct mac_eq (keys_of self.now.entries) }
    {
        // The map's length says that no two addresses are equal.
        let _places = self.map.len();
        self.count
    }

    /// The value at an address.
    pub fn get(&self, key: Mac) -> Option<&V>
        ensures { option_copied result ≡ value_at self.now key }
    {
        places::value_of(&self.map, key)
    }

    /// The value at an address, and where it is.
    // speed: D-node-inlined
    #[inline(always)]
    pub fn find(&self, key: Mac) -> Option<(Hint, &V)>
        ensures { option_map (λ found. found.1.now) result ≡ value_at self.now key }
    {
        let (index, value) = places::find(&self.map, key)?;
        Some((Hint { index }, value))
    }

    /// The value at an address, which is looked for first where a hint says, and where it is.
    // speed: D-node-one-look
    #[inline(always)]
    pub fn find_at(&self, hint: Option<Hint>, key: Mac) -> Option<(Hint, &V)>
        ensures { option_map (λ found. found.1.now) result ≡ value_at self.now key }
    {
        let first = hint.map(|hint| hint.index);
        let (index, value) = places::find_at(&self.map, first, key)?;
        Some((Hint { index }, value))
    }

    /// The value at an address, which is looked for first where a hint says.
    pub fn get_at(&self, hint: Option<Hint>, key: Mac) -> Option<&V>
        ensures { option_copied result ≡ value_at self.now key }
    {
        places::value_at(&self.map, hint.map(|hint| hint.index), key)
    }

    /// The addresses that have a value, in order, with their values.
    pub fn iter(&self) -> Iter<'_, V>
        ensures rest { result ≡ self.now.entries }
        ensures runs { ShowsInOrder (shown_entry {V = V}) }
    {
        Iter {
            places: self.map.iter(),
        }
    }

    /// Changes the value at an address in its place, which is looked for first where a hint says, and answers what the change answers.
    /// A held place of the address is used up. None: the address has no value, and nothing changes.
    // speed: D-node-one-look
    pub fn update_at<R: Drop, F: FnOnce(&mut V) -> R>(
        &mut self,
        hint: Option<Hint>,
        key: Mac,
        change: F,
    ) -> Option<R>
        requires { F.IsAlwaysCallable change }
        ensures found { is_some result ≡ is_some (value_at self.old key) }
        ensures changed { IfSome result (λ answer.
            ChangesAt F.FnOnce change key self.old.entries answer self.new.entries) }
        ensures others { IfSome result (λ answer. KeepsHeld self.old.held self.new.held key) }
        ensures used { IfSome result (λ answer. is_held self.new key ≡ false) }
        ensures none { IfNone result (self.new ≡ self.old) }
    {
        let first = hint.map(|hint| hint.index);
        let (answer, was_held) = places::change_at(&mut self.map, first, key, change)?;
        if was_held {
            self.held -= 1;
        }
        Some(answer)
    }

    /// Adds an address that has no value. It goes last, at one cost wherever its place was. Where a place is held for it, it uses that,
    /// and needs no memory.
    pub fn append(&mut self, key: Mac, value: V) -> Result<(), NoMemory>
        requires { value_at self.old key ≡ None }
        ensures entries { OnOk result (self.new.entries ≡ self.old.entries ++ (key, value) ∷ []) }
        ensures others { OnOk result (KeepsHeld self.old.held self.new.held key) }
        ensures used { OnOk result (is_held self.new key ≡ false) }
        ensures reserved { is_held self.old key ≡ true → IsOk result }
        ensures err { OnErr result (self.new ≡ self.old) }
    {
        let put = putting::put_last(
            &mut self.map,
            self.alloc,
            self.end,
            key,
            value,
            &mut self.drawn,
        )?;
        if put.was_held {
            self.held -= 1;
        }
        self.count += 1;
        self.end = put.end;
        Ok(())
    }

    /// Makes room for so many more addresses, in one growth. Nothing that shows changes. NoMemory: an allocation failed.
    pub fn reserve(&mut self, more: usize) -> Result<(), NoMemory>
        ensures { self.new ≡ self.old }
    {
        places::reserve(&mut self.map, more)
    }

    /// Holds a place for an address, so that `append` of it needs no memory.
    pub fn hold(&mut self, key: Mac) -> Result<(), NoMemory>
        ensures entries { self.new.entries ≡ self.old.entries }
        ensures held { OnOk result (is_held self.new key ≡ true) }
        ensures others { OnOk result (KeepsHeld self.old.held self.new.held key) }
        ensures again { is_held self.old key ≡ true → IsOk result }
        ensures err { OnErr result (self.new ≡ self.old) }
    {
        let _newly = self.hold_newly(key)?;
        Ok(())
    }

    /// Holds the places of two addresses. NoMemory: an allocation failed, and nothing changes.
    pub fn hold_both(&mut self, key: Mac, other: Mac) -> Result<(), NoMemory>
        ensures entries { self.new.entries ≡ self.old.entries }
        ensures held { OnOk result ((is_held self.new key ≡ true)
            × (is_held self.new other ≡ true)) }
        ensures others { OnOk result (KeepsHeldBut self.old.held self.new.held key other) }
        ensures again { is_held self.old key ≡ true → is_held self.old other ≡ true → IsOk result }
        ensures err { OnErr result (self.new ≡ self.old) }
    {
        let newly = self.hold_newly(key)?;
        match self.hold(other) {
            Ok(()) => Ok(()),
            Err(e) => {
                if newly {
                    self.give_up(key);
                }
                Err(e)
            }
        }
    }

    // Holds a place for an address, and answers whether none was held.
    fn hold_newly(&mut self, key: Mac) -> Result<bool, NoMemory>
        ensures entries { self.new.entries ≡ self.old.entries }
        ensures held { OnOk result (is_held self.new key ≡ true) }
        ensures others { OnOk result (KeepsHeld self.old.held self.new.held key) }
        ensures again { is_held self.old key ≡ true → IsOk result }
        ensures rest { OnOk result (held_but self.new.held key ≡ held_but self.old.held key) }
        ensures newly { IfOk result (λ newly. newly ≡ not (is_held self.old key)) }
        ensures still { IfOk result (λ newly. newly ≡ false → self.new.held ≡ self.old.held) }
        ensures err { OnErr result (self.new ≡ self.old) }
    {
        let newly = holding::hold(&mut self.map, self.alloc, self.end, key)?;
        if newly {
            self.held += 1;
        }
        Ok(newly)
    }

    // Gives up the held place of an address.
    fn give_up(&mut self, key: Mac)
        ensures entries { self.new.entries ≡ self.old.entries }
        ensures held { self.new.held ≡ held_but self.old.held key }
    {
        if holding::give_up(&mut self.map, key) {
            self.held -= 1;
        }
    }

    /// Gives up all held places. Where they stand last and have no value, it looks at them alone.
    // speed: D-node-inlined
    #[inline(always)]
    pub fn release(&mut self)
        ensures entries { self.new.entries ≡ self.old.entries }
        ensures held { self.new.held ≡ [] }
    {
        if self.held == 0 {
            return;
        }
        self.release_held();
    }

    // Gives up the held places where there are some. It is out of line, so that a call with nothing to give up costs one test.
    #[inline(never)]
    fn release_held(&mut self)
        ensures entries { self.new.entries ≡ self.old.entries }
        ensures held { self.new.held ≡ [] }
    {
        while self.held > 0 && holding::pop_held(&mut self.map) {
            self.held -= 1;
        }
        if self.held > 0 {
            holding::release(&mut self.map);
            self.held = 0;
            self.end = self.map.len();
        }
    }

    /// Holds a place for just those addresses for which another table holds one; what else was held is given up. Where the other
    /// holds none, it goes over nothing. NoMemory: an allocation failed, and no place is held.
    pub fn hold_as(&mut self, other: &Slots<V>) -> Result<(), NoMemory>
        ensures entries { self.new.entries ≡ self.old.entries }
        ensures held { OnOk result (KeepsAllHeld other.now.held self.new.held) }
        ensures err { OnErr result (self.new.held ≡ []) }
    {
        self.release();
        if other.held == 0 {
            return Ok(());
        }
        match self.hold_each(other.map.iter()) {
            Ok(()) => Ok(()),
            Err(e) => {
                self.release();
                Err(e)
            }
        }
    }

    // Holds a place for the address of each held one of these, in a table that holds none.
    fn hold_each(&mut self, places: map::Iter<'_, Mac, Slot<V>>) -> Result<(), NoMemory>
        requires { self.old.held ≡ [] }
        ensures entries { self.new.entries ≡ self.old.entries }
        ensures held { OnOk result (KeepsAllHeld (held_of places.entry) self.new.held) }
    {
        for (key, slot) in places {
            if slot.held {
                self.hold(*key)?;
            }
        }
        Ok(())
    }

    /// Takes the values out whose rank is below a limit. The others keep their order, and held places stay held. Answers the least
    /// rank of those that are left, or the greatest number where none is.
    pub fn sift(&mut self, limit: u64) -> u64
        ensures kept { self.new.entries
            ≡ filter (λ e. nat_le limit (V.rank_of e.1)) self.old.entries }
        ensures held { self.new.held ≡ self.old.held }
        ensures least { result ≡ least_rank V.rank_of self.new.entries }
    {
        let sifted = sifting::sift(&mut self.map, limit);
        self.count -= sifted.gone;
        self.end = sifted.end;
        sifted.least
    }

    /// The least rank of a value, or the greatest number where there is none.
    pub fn least_rank(&self) -> u64
        ensures { result ≡ least_rank V.rank_of self.now.entries }
    {
        sifting::least_rank(&self.map)
    }

    /// Lets the places go that have no value and are not held, where `least` places without a value stand before one that has one, or
    /// where there are `most` places or more. Nothing that shows changes.
    pub fn sweep(&mut self, least: usize, most: usize)
        ensures { self.new ≡ self.old }
    {
        let between = self.end.saturating_sub(self.count);
        if between >= least || self.map.len() >= most {
            sifting::sweep(&mut self.map);
            self.end = self.map.len();
        }
    }
}

impl<V: Drop + Ranked + Copy> Slots<V> {
    /// A table of its own with the same values in the same order, under the same keys. It holds no place.
    /// NoMemory: an allocation failed.
    pub fn try_clone(&self) -> Result<Slots<V>, NoMemory>
        ensures entries { IfOk result (λ own. own.entries ≡ self.now.entries) }
        ensures held { IfOk result (λ own. own.held ≡ []) }
    {
        let mut own = Slots::with_keys(self.alloc, *self.map.hasher());
        own.copy_from(self)?;
        own.release();
        Ok(own)
    }

    // Takes the entries of another table into an empty one.
    fn copy_from(&mut self, other: &Slots<V>) -> Result<(), NoMemory>
        requires { self.old.entries ≡ [] }
        ensures { OnOk result (self.new.entries ≡ other.now.entries) }
    {
        // The length says too that no two addresses are equal.
        self.reserve(other.len())?;
        for (key, value) in other.iter() {
            self.append(key, *value)?;
        }
        Ok(())
    }
}
