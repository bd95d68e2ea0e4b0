//! The table.
ghost use Rattle.std.specs.Prelude.{◌≡◌, ◌<◌, ◌≤◌, ◌+◌, ◌++◌, ◌∷◌, [], None, true, false, not, nat_lt, is_some, length, IsOk, IfOk, OnOk, OnErr, IfSome, IfNone};
ghost use Rattle.std.specs.Fn.{FnOnceReturnsAtMut};
ghost use Rattle.std.specs.List.{IsDistinct};
ghost use Rattle.std.specs.Map.{keys_of};
ghost use Rattle.std.specs.Option.{option_copied, option_map};
ghost use Rattle.sr_frame.specs.Addresses.{mac_eq};
ghost use Rattle.sr_slots.specs.Places.{is_held, value_at, KeepsHeld, KeepsHeldBut, KeepsAllHeld};
ghost use Rattle.std.specs.Map.Iter.{ShowsInOrder};
ghost use Rattle.sr_slots.specs.Calls.{ChangesAt, shown_entry};
ghost use Rattle.sr_aged_slots.specs.Ages.{is_recent, live_at, with_room, oldest_of};

use crate::aged::{Aged, is_recent};
use sr_frame::{Mac, NoMemory};
use sr_slots::{Hint, Iter, Keys, Slots};
use std::alloc::Global;
use std::marker::Model;

/// No more empty places stand before a value than this part of `MOST` (choice of this project).
const PART_OF_MOST: usize = 8;

/// Nor more than half as many as there are values, and this many (choice of this project).
const FEW_GAPS: usize = 16;

/// At most `MOST` values by address, in the order of first hearing, each with the time when its address was last heard, in
/// milliseconds. A value whose address was silent for `SPAN` is forgotten: it stands in the table until `age`, or until a
/// new address meets a table of `MOST` values, when all forgotten ones go.
#[derive(Drop)]
pub struct AgedSlots<V: Drop, const SPAN: u64, const MOST: usize> {
    slots: Slots<Aged<V>>,
    // No value is older than this time.
    oldest: u64,
    // Where this is set, one is just as old, or there is no value.
    is_exact: bool,
}

impl<V: Drop, const SPAN: u64, const MOST: usize> Model for AgedSlots<V, SPAN, MOST> {
    ghost use Rattle.sr_slots.specs.Places.{Places};
    ghost use Rattle.sr_aged_slots.specs.declared.aged.Aged.{Aged as Timed};
    ghost use Rattle.sr_aged_slots.specs.Ages.{IsBounded};

    ghost Value = { Places (Timed V) };

    ghost view = { λ t. t.slots };

    ghost invariant = { λ t. IsBounded SPAN MOST t.slots.entries t.oldest t.is_exact };
}

// How many empty places may stand before a value where there are so many values. A sweep goes over all places: so it comes only once it
// takes out its part of them, and what comes and goes costs no more in a large table than in a small one.
fn gaps_left(values: usize, most: usize) -> usize {
    (values / 2 + FEW_GAPS).min(most / PART_OF_MOST)
}

// Takes the forgotten values out, and answers the oldest time of those that are left. Held places stay. The empty ones go where too many
// stand before a value.
fn forget<V: Drop>(slots: &mut Slots<Aged<V>>, span: u64, most: usize, now: u64) -> u64
    requires { 0 < span }
    ensures entries { slots.new.entries ≡ live_at span now slots.old.entries }
    ensures held { slots.new.held ≡ slots.old.held }
    ensures oldest { result ≡ oldest_of slots.new.entries }
{
    let oldest = slots.sift(now.saturating_sub(span - 1));
    slots.sweep(gaps_left(slots.len(), most), usize::MAX);
    oldest
}

impl<V: Drop, const SPAN: u64, const MOST: usize> AgedSlots<V, SPAN, MOST> {
    // Lets the empty places go where they are many, before one more comes.
    fn sweep(&mut self)
        ensures { self.new ≡ self.old }
    {
        let least = gaps_left(self.slots.len(), MOST);
        let most = MOST.saturating_add(MOST / PART_OF_MOST);
        self.slots.sweep(least, most);
    }

    /// A table of no value under fixed keys, which takes no memory yet. `SPAN` is above 0.
    pub fn new(alloc: Global) -> Self
        requires { 0 < SPAN }
        ensures entries { result.entries ≡ [] }
        ensures held { result.held ≡ [] }
    {
        AgedSlots::with_keys(alloc, Keys::FIXED)
    }

    /// A table of no value whose places depend on these keys, which takes no memory yet. `SPAN` is above 0.
    pub fn with_keys(alloc: Global, keys: Keys) -> Self
        requires { 0 < SPAN }
        ensures entries { result.entries ≡ [] }
        ensures held { result.held ≡ [] }
    {
        AgedSlots {
            slots: Slots::with_keys(alloc, keys),
            oldest: u64::MAX,
            is_exact: true,
        }
    }

    /// How many values stand in the table, the forgotten ones among them.
    pub fn len(&self) -> usize
        ensures len { result ≡ length self.now.entries }
        ensures few { length self.now.entries ≤ MOST }
        ensures unique { IsDistinct mac_eq (keys_of self.now.entries) }
    {
        // Held places have no value.
        self.slots.len()
    }

    /// The value of an address, forgotten or not.
    pub fn get(&self, key: Mac) -> Option<&Aged<V>>
        ensures value { option_copied result ≡ value_at self.now key }
        ensures few { length self.now.entries ≤ MOST }
    {
        self.slots.get(key)
    }

    /// The addresses that have a value, forgotten or not, in order, with their values.
    pub fn iter(&self) -> Iter<'_, Aged<V>>
        ensures rest { result ≡ self.now.entries }
        ensures runs { ShowsInOrder (shown_entry {V = Aged V}) }
    {
        self.slots.iter()
    }

    /// Makes room for so many more addresses, in one growth. Nothing that shows changes. NoMemory: an allocation failed.
    pub fn reserve(&mut self, more: usize) -> Result<(), NoMemory>
        ensures { self.new ≡ self.old }
    {
        self.slots.reserve(more)
    }

    /// Holds a place for an address, so that `append` of it needs no memory. Nothing else sees the place.
    /// NoMemory: an allocation failed, and nothing changes.
    pub fn hold(&mut self, key: Mac) -> Result<(), NoMemory>
        ensures entries { self.new.entries ≡ self.old.entries }
        ensures held { OnOk result (is_held self.new key ≡ true) }
        ensures others { OnOk result (KeepsHeld self.old.held self.new.held key) }
        ensures again { is_held self.old key ≡ true → IsOk result }
        ensures err { OnErr result (self.new ≡ self.old) }
    {
        self.sweep();
        self.slots.hold(key)
    }

    /// Holds the places of two addresses. NoMemory: an allocation failed, and nothing changes.
    pub fn hold_both(&mut self, key: Mac, other: Mac) -> Result<(), NoMemory>
        ensures entries { self.new.entries ≡ self.old.entries }
        ensures held { OnOk result ((is_held self.new key ≡ true)
            × (is_held self.new other ≡ true)) }
        ensures others { OnOk result (KeepsHeldBut self.old.held self.new.held key other) }
        ensures again { is_held self.old key ≡ true → is_held self.old other ≡ true → IsOk result }
        ensures err { OnErr result (self.new ≡ self.old) }
    {
        self.slots.hold_both(key, other)
    }

    /// Holds a place for just those addresses for which another table holds one; what else was held is given up. Where the other
    /// holds none, it goes over nothing. NoMemory: an allocation failed, and no place is held.
    pub fn hold_as(&mut self, other: &Self) -> Result<(), NoMemory>
        ensures entries { self.new.entries ≡ self.old.entries }
        ensures held { OnOk result (KeepsAllHeld other.now.held self.new.held) }
        ensures err { OnErr result (self.new.held ≡ []) }
    {
        self.slots.hold_as(&other.slots)
    }

    /// Gives up all held places.
    pub fn release(&mut self)
        ensures entries { self.new.entries ≡ self.old.entries }
        ensures held { self.new.held ≡ [] }
    {
        self.slots.release();
    }

    /// The value of an address, forgotten or not, and where it is.
    #[inline(always)]
    pub fn find(&self, key: Mac) -> Option<(Hint, &Aged<V>)>
        ensures value { option_map (λ found. found.1.now) result ≡ value_at self.now key }
        ensures few { length self.now.entries ≤ MOST }
    {
        self.slots.find(key)
    }

    /// The value of an address, forgotten or not, which is looked for first where a hint says, and where it is.
    // speed: D-node-one-look
    #[inline(always)]
    pub fn find_at(&self, hint: Option<Hint>, key: Mac) -> Option<(Hint, &Aged<V>)>
        ensures { option_map (λ found. found.1.now) result ≡ value_at self.now key }
    {
        self.slots.find_at(hint, key)
    }

    /// The value of an address, forgotten or not, which is looked for first where a hint says.
    pub fn get_at(&self, hint: Option<Hint>, key: Mac) -> Option<&Aged<V>>
        ensures value { option_copied result ≡ value_at self.now key }
    {
        self.slots.get_at(hint, key)
    }

    /// Changes the value of an address in its place, which is looked for first where a hint says, and answers what the change answers.
    /// No value may become older. None: the address has no value, and nothing changes.
    // speed: D-node-one-look
    pub fn update_at<R: Drop, F: FnOnce(&mut Aged<V>) -> R>(
        &mut self,
        hint: Option<Hint>,
        key: Mac,
        change: F,
    ) -> Option<R>
        requires callable { F.IsAlwaysCallable change }
        requires later { (was is : Aged V) (answer : R)
            → FnOnceReturnsAtMut F.FnOnce change was answer is → was.time ≤ is.time }
        ensures found { is_some result ≡ is_some (value_at self.old key) }
        ensures changed { IfSome result (λ answer.
            ChangesAt F.FnOnce change key self.old.entries answer self.new.entries) }
        ensures others { IfSome result (λ answer. KeepsHeld self.old.held self.new.held key) }
        ensures used { IfSome result (λ answer. is_held self.new key ≡ false) }
        ensures none { IfNone result (self.new ≡ self.old) }
        ensures few { length self.old.entries ≤ MOST }
    {
        let (answer, before) = self.slots.update_at(
            hint,
            key,
            |entry: &mut Aged<V>| -> (R, u64)
                requires { F.IsAlwaysCallable change }
                ensures changed { FnOnceReturnsAtMut F.FnOnce change entry.old result.0 entry.new }
                ensures before { result.1 ≡ entry.old.time }
            {
                let before = entry.time;
                (change(entry), before)
            },
        )?;
        if before == self.oldest {
            self.is_exact = false;
        }
        Some(answer)
    }

    /// Adds a value for an address that has none, in a table with room for one more. It goes last. The forgotten values of a
    /// table of `MOST` go first. Where a place is held for the address, it uses that, and needs no memory.
    /// NoMemory: an allocation failed, and nothing changes.
    pub fn append(&mut self, key: Mac, value: V, now: u64) -> Result<(), NoMemory>
        requires absent { value_at self.old key ≡ None }
        requires room { nat_lt (length (with_room SPAN MOST now self.old.entries)) MOST ≡ true }
        ensures entries { OnOk result (self.new.entries ≡ with_room SPAN MOST now self.old.entries
            ++ (key, record { value = value; time = now }) ∷ []) }
        ensures reserved { is_held self.old key ≡ true → IsOk result }
        ensures others { OnOk result (KeepsHeld self.old.held self.new.held key) }
        ensures used { OnOk result (is_held self.new key ≡ false) }
        ensures err { OnErr result (self.new ≡ self.old) }
    {
        self.sweep();
        let is_crowded = self.slots.len() >= MOST;
        self.slots.append(key, Aged { value, time: now })?;
        if is_crowded {
            self.oldest = forget(&mut self.slots, SPAN, MOST, now);
            self.is_exact = true;
        } else {
            self.oldest = self.oldest.min(now);
        }
        Ok(())
    }

    // Whether no value is forgotten.
    fn all_are_live(&self, now: u64) -> bool
        ensures { result ≡ is_recent SPAN now (oldest_of self.now.entries) }
    {
        if self.is_exact {
            return is_recent(SPAN, now, self.oldest);
        }
        is_recent(SPAN, now, self.oldest) || is_recent(SPAN, now, self.slots.least_rank())
    }

    /// Whether an address without a value finds no room: `MOST` values are live.
    pub fn is_full(&self, now: u64) -> bool
        ensures { result ≡ not (nat_lt (length (with_room SPAN MOST now self.now.entries)) MOST) }
    {
        self.slots.len() >= MOST && self.all_are_live(now)
    }

    // Learns the oldest time anew, where a value may be forgotten and it is not known which.
    fn learn_oldest(&mut self, now: u64)
        ensures { self.new ≡ self.old }
    {
        if !self.is_exact && !is_recent(SPAN, now, self.oldest) {
            self.oldest = self.slots.least_rank();
            self.is_exact = true;
        }
    }

    /// Whether a new value has no room at this time. The next calls at this time look at no value.
    pub fn is_full_now(&mut self, now: u64) -> bool
        ensures result { result
            ≡ not (nat_lt (length (with_room SPAN MOST now self.old.entries)) MOST) }
        ensures same { self.new ≡ self.old }
    {
        if self.slots.len() >= MOST {
            self.learn_oldest(now);
        }
        self.is_full(now)
    }

    /// Takes the forgotten values out, and answers how many. The others keep their order, and held places stay held.
    pub fn age(&mut self, now: u64) -> usize
        ensures entries { self.new.entries ≡ live_at SPAN now self.old.entries }
        ensures held { self.new.held ≡ self.old.held }
        ensures count { result + length self.new.entries ≡ length self.old.entries }
    {
        if is_recent(SPAN, now, self.oldest) {
            return 0;
        }
        let before = self.slots.len();
        self.oldest = forget(&mut self.slots, SPAN, MOST, now);
        self.is_exact = true;
        before - self.slots.len()
    }
}

impl<V: Drop + Copy, const SPAN: u64, const MOST: usize> AgedSlots<V, SPAN, MOST> {
    /// A table of its own with the same values in the same order, under the same keys. It holds no place.
    /// NoMemory: an allocation failed.
    pub fn try_clone(&self) -> Result<Self, NoMemory>
        ensures entries { IfOk result (λ own. own.entries ≡ self.now.entries) }
        ensures held { IfOk result (λ own. own.held ≡ []) }
    {
        let slots = self.slots.try_clone()?;
        Ok(AgedSlots {
            slots,
            oldest: self.oldest,
            is_exact: self.is_exact,
        })
    }
}
