//! Long random runs beside a plain table, with limits so small that it fills, forgets and sweeps all the time.

use sr_aged_slots::AgedSlots;
use sr_frame::Mac;
use sr_slots::Hint;
use std::alloc::Global;

/// How long an address is remembered here, and how many can be.
const SPAN: u64 = 40;

const MOST: usize = 12;

/// How many addresses there are.
const ADDRESSES: usize = 32;

/// How many events a run has.
const EVENTS: u32 = 20_000;

type Small = AgedSlots<u32, SPAN, MOST>;

fn mac(number: usize) -> Mac {
    Mac([2, 0, 0, 0, 0, (number % ADDRESSES) as u8])
}

/// What the table has to say: a value and a time for each address that has one.
#[derive(Clone, Copy)]
struct Plain {
    rows: [Option<(u32, u64)>; ADDRESSES],
}

// Whether a time is less than the span ago.
fn is_live(time: u64, now: u64) -> bool {
    time > now || now.wrapping_sub(time) < SPAN
}

impl Plain {
    fn len(&self) -> usize {
        self.rows.iter().filter(|row| row.is_some()).count()
    }

    fn live(&self, now: u64) -> usize {
        self.rows
            .iter()
            .filter(|row| match row {
                Some((_, time)) => is_live(*time, now),
                None => false,
            })
            .count()
    }

    fn forget(&mut self, now: u64) {
        for row in self.rows.iter_mut() {
            if let Some((_, time)) = *row {
                if !is_live(time, now) {
                    *row = None;
                }
            }
        }
    }

    // A new address: the forgotten ones of a full table go first. False where all are live.
    fn add(&mut self, number: usize, value: u32, now: u64) -> bool {
        if self.len() >= MOST {
            if self.live(now) >= MOST {
                return false;
            }
            self.forget(now);
        }
        self.rows[number % ADDRESSES] = Some((value, now));
        true
    }
}

/// One event: an address, a value, a time, and what is done.
#[derive(Clone, Copy)]
struct Event {
    number: usize,
    value: u32,
    now: u64,
    kind: u32,
}

// The value and the time that the table has for an address, found in each way that there is.
fn shown(table: &Small, hint: Option<Hint>, number: usize) -> Option<(u32, u64)> {
    let at = table
        .get_at(hint, mac(number))
        .map(|entry| (entry.value, entry.time));
    let here = table
        .get(mac(number))
        .map(|entry| (entry.value, entry.time));
    let found = table
        .find(mac(number))
        .map(|found| (found.1.value, found.1.time));
    if at == here && found == here {
        here
    } else {
        Some((0, 0))
    }
}

// Adds an address that has no value, where it finds room, and tells whether there was memory. None where it finds none.
fn add(table: &mut Small, key: Mac, value: u32, now: u64) -> Option<bool> {
    if table.get(key).is_some() || table.is_full(now) {
        return None;
    }
    Some(table.append(key, value, now).is_ok())
}

// Adds a value. Where an allocation failed the table is as it was, and the call is repeated.
fn add_again(table: &mut Small, key: Mac, value: u32, now: u64) -> Option<bool> {
    match add(table, key, value, now) {
        Some(false) => add(table, key, value, now),
        answer => answer,
    }
}

fn hold(table: &mut Small, key: Mac) -> bool {
    let len = table.len();
    table.hold(key).is_ok() || (table.len() == len && table.hold(key).is_ok())
}

// Hears an address, at a hint that may be another's or old. Whether the two agree.
fn hear(table: &mut Small, plain: &mut Plain, hint: Option<Hint>, event: Event) -> bool {
    let Event {
        number,
        value,
        now,
        ..
    } = event;
    let known = table.update_at(hint, mac(number), |entry| {
        entry.time = entry.time.max(now);
        entry.value = value;
    });
    if known.is_some() {
        let row = &mut plain.rows[number % ADDRESSES];
        let was_known = row.is_some();
        *row = row.map(|row| (value, row.1.max(now)));
        return was_known;
    }
    if table.is_full(now) != table.is_full_now(now) {
        return false;
    }
    match add_again(table, mac(number), value, now) {
        Some(done) => done && plain.add(number, value, now),
        None => !plain.add(number, value, now),
    }
}

// One event at both. Whether they agree after it.
fn agree(table: &mut Small, plain: &mut Plain, hint: Option<Hint>, event: Event) -> bool {
    let done = match event.kind {
        0 => {
            let before = plain.len();
            plain.forget(event.now);
            table.age(event.now) == before.wrapping_sub(plain.len())
        }
        1 => hold(table, mac(event.number)),
        2 => {
            table.release();
            true
        }
        _ => hear(table, plain, hint, event),
    };
    done && table.len() == plain.len()
        && shown(table, hint, event.number) == plain.rows[event.number % ADDRESSES]
}

// The place of the first event after which they differ.
fn first_difference(alloc: Global, seed: u64) -> Option<u32> {
    let mut table = Small::new(alloc);
    let mut plain = Plain {
        rows: [None; ADDRESSES],
    };
    let mut hints = [None; ADDRESSES];
    let mut random = seed;
    let mut clock = 0u64;
    for place in 0..EVENTS {
        random = random
            .wrapping_mul(6_364_136_223_846_793_005)
            .wrapping_add(1_442_695_040_888_963_407);
        let number = (random >> 33) as usize % ADDRESSES;
        let other = (random >> 38) as usize % ADDRESSES;
        clock = clock.wrapping_add((random >> 43) % 4);
        let event = Event {
            number,
            value: place,
            now: clock.saturating_sub((random >> 45) % 8),
            kind: ((random >> 48) % 24) as u32,
        };
        if !agree(&mut table, &mut plain, hints[other], event) {
            return Some(place);
        }
        hints[number] = table.find(mac(number)).map(|found| found.0);
    }
    None
}

#[test]
fn it_answers_as_a_plain_table(rt: HostRuntime) {
    assert!(rt;
        first_difference(rt.alloc(), 1).is_none()
            && first_difference(rt.alloc(), 20_261_122).is_none()
    );
}
