//! Tables of addresses under places that are held, and the keys of a table.

use sr_frame::Mac;
use sr_slots::{Keys, Ranked, Slots};
use std::alloc::Global;
use std::cell::Cell;
use std::hash::BuildHasher;
use std::io;
use std::random::RandomSource;

/// A value that is its own rank.
#[derive(Clone, Copy, Drop)]
struct Number(u32);

impl Ranked for Number {
    ghost rank_of = { λ number. number.0 };

    fn rank(&self) -> u64 {
        self.0 as u64
    }
}

fn mac(last: u8) -> Mac {
    Mac([2, 0, 0, 0, 0, last])
}

/// What is done to a table, and what it has to answer.
#[derive(Clone, Copy)]
enum Step {
    /// This address gets this value, and has had none.
    Add(u8, u32),
    /// A place is held for this address.
    Hold(u8),
    /// All held places are given up.
    Release,
    /// Room is made for so many more addresses, or there is no memory for so many.
    Reserve(usize, bool),
    /// This value replaces the one of the address, looked for where the other address is. Whether there was one.
    Set(u8, u8, u32, bool),
    /// The empty places go where two stand before a value, or where there are three places; the values below this one go, and this is
    /// the least of those that are left.
    Sift(u32, u64),
    /// The empty places go where so many stand before a value, or where there are so many places.
    Sweep(usize, usize),
    /// So many places stand before that of an address with a value.
    Stands(u8, u8),
    /// The last octets of the addresses that have a value, in order, as the digits of one number; and the sum of the values.
    Shows(u32, u32),
}

const HELD_PLACES_GO_LAST: [Step; 17] = [
    Step::Add(3, 30),
    Step::Hold(1),
    Step::Add(2, 5),
    Step::Set(1, 1, 0, false),
    Step::Shows(32, 35),
    Step::Add(1, 10),
    Step::Shows(321, 45),
    Step::Set(3, 3, 60, true),
    Step::Hold(2),
    Step::Sift(6, 10),
    Step::Shows(31, 70),
    Step::Add(2, 21),
    Step::Release,
    Step::Shows(312, 91),
    Step::Sift(10, 10),
    Step::Hold(9),
    Step::Shows(312, 91),
];

// What goes leaves nothing that is found again, at its own place or at another's; and what comes back is last.
const WHAT_GOES_COMES_BACK_LAST: [Step; 14] = [
    Step::Add(1, 10),
    Step::Add(2, 20),
    Step::Add(3, 30),
    Step::Sift(11, 20),
    Step::Set(1, 1, 5, false),
    Step::Set(1, 2, 5, false),
    Step::Shows(23, 50),
    Step::Add(1, 11),
    Step::Shows(231, 61),
    Step::Set(2, 1, 21, true),
    Step::Set(1, 2, 12, true),
    Step::Set(3, 1, 31, true),
    Step::Shows(231, 64),
    Step::Sift(12, 12),
];

const NONE_IS_LEFT: [Step; 6] = [
    Step::Add(1, 10),
    Step::Add(2, 10),
    Step::Sift(11, u64::MAX),
    Step::Shows(0, 0),
    Step::Add(2, 5),
    Step::Shows(2, 5),
];

// Two of them stand last; then one stands last and one before another place; then one stands last and one has a value.
const HELD_PLACES_ARE_GIVEN_UP: [Step; 20] = [
    Step::Add(1, 10),
    Step::Hold(2),
    Step::Hold(3),
    Step::Release,
    Step::Shows(1, 10),
    Step::Add(3, 30),
    Step::Add(2, 20),
    Step::Shows(132, 60),
    Step::Hold(4),
    Step::Add(5, 50),
    Step::Hold(6),
    Step::Release,
    Step::Add(6, 60),
    Step::Shows(13256, 170),
    Step::Hold(6),
    Step::Hold(4),
    Step::Release,
    Step::Release,
    Step::Add(4, 40),
    Step::Shows(132564, 210),
];

// Room for more, or none, shows nowhere.
const ROOM_SHOWS_NOWHERE: [Step; 11] = [
    Step::Reserve(0, true),
    Step::Reserve(2, true),
    Step::Add(3, 30),
    Step::Hold(1),
    Step::Reserve(usize::MAX, false),
    Step::Reserve(100, true),
    Step::Shows(3, 30),
    Step::Add(2, 20),
    Step::Add(1, 10),
    Step::Shows(321, 60),
    Step::Set(1, 1, 11, true),
];

// What goes leaves its place until so many empty ones stand before a value, or until there are so many places; then it goes too, and
// held places stay until they are given up.
const EMPTY_PLACES_GO: [Step; 22] = [
    Step::Add(1, 10),
    Step::Add(2, 20),
    Step::Hold(3),
    Step::Hold(1),
    Step::Add(4, 12),
    Step::Add(5, 30),
    Step::Sift(15, 20),
    Step::Stands(2, 1),
    Step::Sweep(3, 6),
    Step::Stands(5, 3),
    Step::Sweep(2, 6),
    Step::Stands(5, 2),
    Step::Sweep(0, 0),
    Step::Stands(2, 1),
    Step::Release,
    Step::Stands(5, 1),
    Step::Sift(25, 30),
    Step::Sweep(9, 3),
    Step::Stands(5, 1),
    Step::Sweep(9, 2),
    Step::Stands(5, 0),
    Step::Shows(5, 30),
];

// What comes back goes last, wherever its place is: among values, behind them in any order, or before all, where none is empty behind
// them.
const WHAT_COMES_BACK_GOES_LAST: [Step; 18] = [
    Step::Add(1, 10),
    Step::Add(2, 20),
    Step::Add(3, 11),
    Step::Add(4, 21),
    Step::Add(5, 12),
    Step::Add(6, 13),
    Step::Sift(15, 20),
    Step::Add(1, 31),
    Step::Shows(241, 72),
    Step::Add(6, 36),
    Step::Add(7, 37),
    Step::Add(5, 35),
    Step::Shows(241_675, 180),
    Step::Sift(35, 35),
    Step::Add(2, 40),
    Step::Shows(6752, 148),
    Step::Add(1, 41),
    Step::Shows(67_521, 189),
];

// Where an allocation fails the table is as it was, and the call is repeated.
fn add(slots: &mut Slots<Number>, last: u8, value: u32) -> bool {
    let key = mac(last);
    let len = slots.len();
    if slots.get(key).is_some() {
        return false;
    }
    if slots.append(key, Number(value)).is_ok() {
        return true;
    }
    if slots.len() != len || slots.get(key).is_some() {
        return false;
    }
    slots.append(key, Number(value)).is_ok()
}

fn hold(slots: &mut Slots<Number>, last: u8) -> bool {
    let len = slots.len();
    (slots.hold(mac(last)).is_ok() || slots.hold(mac(last)).is_ok()) && slots.len() == len
}

fn reserve(slots: &mut Slots<Number>, more: usize) -> bool {
    let len = slots.len();
    (slots.reserve(more).is_ok() || slots.reserve(more).is_ok()) && slots.len() == len
}

fn set(slots: &mut Slots<Number>, last: u8, at: u8, value: u32) -> bool {
    let hint = slots.find(mac(at)).map(|found| found.0);
    slots
        .update_at(hint, mac(last), |old| *old = Number(value))
        .is_some()
}

fn sift(slots: &mut Slots<Number>, limit: u32, least: u64) -> bool {
    slots.sweep(2, 3);
    slots.sift(limit as u64) == least && slots.least_rank() == least
}

fn shows(slots: &Slots<Number>, order: u32, sum: u32) -> bool {
    let mut seen = (0u32, 0u32);
    for (key, value) in slots.iter() {
        let Mac([_, _, _, _, _, last]) = key;
        seen = (
            seen.0.wrapping_mul(10).wrapping_add(last as u32),
            seen.1.wrapping_add(value.0),
        );
    }
    seen == (order, sum)
}

// A table in which so many places stand before that of each address.
fn ruler(alloc: Global) -> Slots<Number> {
    let mut slots = Slots::new(alloc);
    for last in 0..8u8 {
        let _stands = add(&mut slots, last, 0);
    }
    slots
}

fn stands(slots: &Slots<Number>, ruler: &Slots<Number>, last: u8, before: u8) -> bool {
    let place = slots.find(mac(last)).map(|found| found.0);
    let wanted = ruler.find(mac(before)).map(|found| found.0);
    place.is_some() && place == wanted
}

fn obeys(slots: &mut Slots<Number>, ruler: &Slots<Number>, step: Step) -> bool {
    match step {
        Step::Add(last, value) => add(slots, last, value),
        Step::Hold(last) => hold(slots, last),
        Step::Release => {
            slots.release();
            true
        }
        Step::Reserve(more, there) => reserve(slots, more) == there,
        Step::Set(last, at, value, there) => set(slots, last, at, value) == there,
        Step::Sift(limit, least) => sift(slots, limit, least),
        Step::Sweep(least, most) => {
            slots.sweep(least, most);
            true
        }
        Step::Stands(last, before) => stands(slots, ruler, last, before),
        Step::Shows(order, sum) => shows(slots, order, sum),
    }
}

// The place of the first step that a table does not obey.
fn first_wrong(alloc: Global, steps: &[Step]) -> Option<usize> {
    let ruler = ruler(alloc);
    let mut slots = Slots::new(alloc);
    steps
        .iter()
        .position(|step| !obeys(&mut slots, &ruler, *step))
}

#[test]
fn held_places_go_last(rt: HostRuntime) {
    assert!(rt; first_wrong(rt.alloc(), HELD_PLACES_GO_LAST.as_slice()).is_none());
}

#[test]
fn what_goes_comes_back_last(rt: HostRuntime) {
    assert!(rt; first_wrong(rt.alloc(), WHAT_GOES_COMES_BACK_LAST.as_slice()).is_none());
}

#[test]
fn none_is_left(rt: HostRuntime) {
    assert!(rt; first_wrong(rt.alloc(), NONE_IS_LEFT.as_slice()).is_none());
}

#[test]
fn held_places_are_given_up(rt: HostRuntime) {
    assert!(rt; first_wrong(rt.alloc(), HELD_PLACES_ARE_GIVEN_UP.as_slice()).is_none());
}

#[test]
fn room_shows_nowhere(rt: HostRuntime) {
    assert!(rt; first_wrong(rt.alloc(), ROOM_SHOWS_NOWHERE.as_slice()).is_none());
}

#[test]
fn empty_places_go(rt: HostRuntime) {
    assert!(rt; first_wrong(rt.alloc(), EMPTY_PLACES_GO.as_slice()).is_none());
}

#[test]
fn what_comes_back_goes_last(rt: HostRuntime) {
    assert!(rt; first_wrong(rt.alloc(), WHAT_COMES_BACK_GOES_LAST.as_slice()).is_none());
}

// How many of 100 addresses stand in a table under these keys, with as many places held between them.
fn many_addresses(alloc: Global, keys: Keys) -> usize {
    let mut slots = Slots::with_keys(alloc, keys);
    for last in 0..100u8 {
        if !hold(&mut slots, last)
            || !hold(&mut slots, last.wrapping_add(100))
            || !add(&mut slots, last, 0)
        {
            return 0;
        }
    }
    slots.release();
    slots.len()
}

#[test]
fn keys_of_the_process(rt: HostRuntime) {
    let drawn = Keys::new(&rt).unwrap_or(Keys::FIXED);
    assert!(rt;
        many_addresses(rt.alloc(), drawn) == 100 && many_addresses(rt.alloc(), Keys::FIXED) == 100
    );
}

// Gives 1, 2, .. at its first call; from then on it fails.
#[derive(Drop)]
struct Once {
    is_drawn: Cell<bool>,
}

impl RandomSource for Once {
    fn fill_bytes(&self, buf: &mut [u8]) -> io::Result<()> {
        if self.is_drawn.replace(true) {
            return Err(io::ErrorKind::Other.into());
        }
        let mut next = 0u8;
        for octet in buf {
            next = next.wrapping_add(1);
            *octet = next;
        }
        Ok(())
    }
}

// The number of an address under keys that are drawn, and 0 where the source fails.
fn number_under(source: &Once, address: Mac) -> u64 {
    match Keys::new(source) {
        Ok(keys) => keys.hash_one(address),
        Err(_) => 0,
    }
}

// The numbers are worked out from the definition, `spread` of (factor * word + addend) mod 2^128 / 2^64.
#[test]
fn keys_take_all_octets(rt: HostRuntime) {
    let address = Mac([2, 0, 0, 0, 0x12, 0x34]);
    let source = Once {
        is_drawn: Cell::new(false),
    };
    let fixed = Keys::FIXED.hash_one(address);
    let drawn = number_under(&source, address);
    let refused = number_under(&source, address);
    assert!(rt; (fixed, drawn, refused) == (0x7f89_9125_eeb8_f22f, 0x6ee6_7cea_53a4_e087, 0));
}

fn shows_no_word(alloc: Global) -> bool {
    let shown = format!(in alloc; "{:?}", Keys::FIXED);
    shown.is_ok_and(|text| text.as_str() == "Keys")
}

// Keys are secret.
#[test]
fn keys_show_nothing(rt: HostRuntime) {
    assert!(rt; shows_no_word(rt.alloc()) || shows_no_word(rt.alloc()));
}

fn sendable<T: Send>(_value: &T) {}

#[test]
fn a_table_can_go_to_a_thread(rt: HostRuntime) {
    let slots: Slots<Number> = Slots::new(rt.alloc());
    sendable(&slots);
}
