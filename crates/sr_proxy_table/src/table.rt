//! The table.
ghost use Rattle.std.specs.Prelude.{◌≡◌, ◌↔◌, ◌≤◌, ◌+◌, [], ◌++◌, true, Some, None, length, is_some, IsOk, OnOk, OnErr, IfOk, IfSome, IfNone};
ghost use Rattle.std.specs.List.{cons_option};
ghost use Rattle.std.specs.Map.{lookup};
ghost use Rattle.sr_frame.specs.Addresses.{mac_eq};
ghost use Rattle.sr_proxy_table.specs.Proxied.{most_proxied, is_live, live_at, live_others, has_at, learned_again, learnt_again, times_of, answer_to, after_learning, live_mac, listed_at};

use sr_aged_slots::{Aged, AgedSlots};
use sr_frame::{LearnOutcome, Mac, NoMemory};
use sr_slots::Keys;
use std::alloc::{AllocError, Global};
use std::marker::Model;

/// How long an address is remembered after it was last learned, in milliseconds (choice of this project).
pub const PROXY_FORGET_TIME: u64 = 60000;

/// How many addresses are kept (choice of this project).
pub const MAX_PROXIED: usize = 256;

/// The addresses that a RedBox stands for, in the order of their first learning. Times are in milliseconds. An address that was not
/// learned for `PROXY_FORGET_TIME` is forgotten: it counts as absent, and stands in the table until it is learned again, until
/// `prune`, or until a new address meets a full table.
#[derive(Drop)]
pub struct ProxyTable {
    slots: AgedSlots<(), PROXY_FORGET_TIME, MAX_PROXIED>,
    alloc: Global,
}

impl Model for ProxyTable {
    ghost use Rattle.std.specs.Prelude.{◌≡◌, [], List};
    ghost use Rattle.sr_frame.specs.declared.fields.Mac.{Mac as Address};
    ghost use Rattle.sr_aged_slots.specs.declared.aged.Aged.{Aged as Timed};

    ghost Value = { List (Address × Timed (Unit {0})) };

    ghost view = { λ t. t.slots.entries };

    // Between calls no place is held.
    ghost invariant = { λ t. t.slots.held ≡ [] };
}

// Adds the address of an entry that is not forgotten.
fn push_live(macs: &mut Vec<Mac>, mac: Mac, entry: &Aged<()>, now: u64) -> Result<(), NoMemory>
    ensures { OnOk result (macs.new.items ≡ macs.old.items
        ++ cons_option (live_mac now (mac, entry.now)) []) }
{
    if is_live(entry, now) {
        if let Err(e) = macs.push(mac) {
            return Err(AllocError::from(e).into());
        }
    }
    Ok(())
}

// Whether an address is not forgotten.
fn is_live(entry: &Aged<()>, now: u64) -> bool
    ensures { result ≡ is_live now entry.now }
{
    entry.is_live(PROXY_FORGET_TIME, now)
}

// Learns an address again, and answers whether it was known.
fn learn_again(entry: &mut Aged<()>, now: u64) -> LearnOutcome
    ensures after { entry.new ≡ learned_again entry.old now }
    ensures answer { result ≡ learnt_again now entry.old }
{
    let was_live = is_live(entry, now);
    entry.time = entry.time.max(now);
    if was_live {
        LearnOutcome::Known
    } else {
        LearnOutcome::New
    }
}

impl ProxyTable {
    /// A table of no address under fixed keys, which takes no memory yet.
    pub fn new(alloc: Global) -> ProxyTable
        ensures { result ≡ [] }
    {
        ProxyTable::with_keys(alloc, Keys::FIXED)
    }

    /// A table of no address whose places depend on these keys, which takes no memory yet.
    pub fn with_keys(alloc: Global, keys: Keys) -> ProxyTable
        ensures { result ≡ [] }
    {
        ProxyTable {
            slots: AgedSlots::with_keys(alloc, keys),
            alloc,
        }
    }

    /// Whether an address was learned less than 60000 ms ago.
    pub fn has(&self, mac: Mac, now: u64) -> bool
        ensures { result ≡ has_at self.now mac now }
    {
        match self.slots.get(mac) {
            Some(entry) => is_live(entry, now),
            None => false,
        }
    }

    /// Learns an address, or renews its time. Full: 256 other addresses are live, and nothing is kept.
    /// NoMemory: an allocation for a new address failed. Either way nothing changes.
    pub fn learn(&mut self, mac: Mac, now: u64) -> Result<LearnOutcome, NoMemory>
        ensures answer { IfOk result (λ learnt. learnt ≡ answer_to self.old mac now) }
        ensures after { OnOk result (self.new ≡ after_learning self.old mac now) }

        // There are never more. Full exactly where 256 others are live. An address that has an entry takes no memory.
        ensures few { length self.old ≤ most_proxied }
        ensures full { (result ≡ Ok LearnOutcome.Full)
            ↔ (length (live_others mac now self.old) ≡ most_proxied) }
        ensures known { is_some (lookup (mac_eq mac) self.old) ≡ true → IsOk result }
        ensures err { OnErr result (self.new ≡ self.old) }
    {
        match self.renew(mac, now) {
            Some(answer) => Ok(answer),
            None => self.begin(mac, now),
        }
    }

    // Renews the time of an address that has an entry, forgotten or not.
    fn renew(&mut self, mac: Mac, now: u64) -> Option<LearnOutcome>
        ensures few { length self.old ≤ most_proxied }
        ensures found { is_some result ≡ is_some (lookup (mac_eq mac) self.old) }
        ensures answer { IfSome result (λ learnt. learnt ≡ answer_to self.old mac now) }
        ensures after { IfSome result (λ learnt. self.new ≡ after_learning self.old mac now) }
        ensures none { IfNone result (self.new ≡ self.old) }
    {
        let answer = self.slots.update_at(
            None,
            mac,
            |entry: &mut Aged<()>| -> LearnOutcome
                ensures after { entry.new ≡ learned_again entry.old now }
                ensures answer { result ≡ learnt_again now entry.old }
            { learn_again(entry, now) },
        )?;
        Some(answer)
    }

    // Learns an address that has no entry.
    fn begin(&mut self, mac: Mac, now: u64) -> Result<LearnOutcome, NoMemory>
        requires absent { lookup (mac_eq mac) self.old ≡ None }
        ensures answer { IfOk result (λ learnt. learnt ≡ answer_to self.old mac now) }
        ensures after { OnOk result (self.new ≡ after_learning self.old mac now) }
        ensures full { answer_to self.old mac now ≡ LearnOutcome.Full
            → result ≡ Ok LearnOutcome.Full }
        ensures err { OnErr result (self.new ≡ self.old) }
    {
        if self.slots.is_full_now(now) {
            return Ok(LearnOutcome::Full);
        }
        self.slots.append(mac, (), now)?;
        Ok(LearnOutcome::New)
    }

    /// Takes the addresses out that were not learned for 60000 ms or more, and answers how many.
    pub fn prune(&mut self, now: u64) -> usize
        ensures after { self.new ≡ live_at now self.old }
        ensures count { result + length self.new ≡ length self.old }
    {
        self.slots.age(now)
    }

    /// The addresses that were learned less than 60000 ms ago, in the order of their first learning.
    pub fn list(&self, now: u64) -> Result<Vec<Mac>, NoMemory>
        ensures { IfOk result (λ macs. macs.items ≡ listed_at self.now now) }
    {
        let mut macs = Vec::new(self.alloc);
        for (mac, entry) in self.slots.iter() {
            push_live(&mut macs, mac, entry, now)?;
        }
        Ok(macs)
    }

    /// The addresses in the order of their first learning, the forgotten ones among them, each with the time of its last learning.
    pub fn times(&self) -> Result<Vec<(Mac, u64)>, NoMemory>
        ensures { IfOk result (λ times. times.items ≡ times_of self.now) }
    {
        let mut times = Vec::new(self.alloc);
        for (mac, entry) in self.slots.iter() {
            if let Err(e) = times.push((mac, entry.time)) {
                return Err(AllocError::from(e).into());
            }
        }
        Ok(times)
    }
}
