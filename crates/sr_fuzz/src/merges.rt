//! Merges of two captures.

use crate::audits::network_of;
use crate::digest::Digest;
use crate::files::{Files, digest_of, files_of, options_of};
use crate::sink::Sink;
use sr_capture_merge::{Counts, Plan, Scope, Spelling, merge};
use sr_capture_script::{Captures, Options};
use sr_slots::Keys;
use std::alloc::Global;

/// The plan that an octet names.
fn plan_of(kind: u8) -> Plan {
    let spelling = if kind & 2 == 0 {
        Spelling::Plain
    } else {
        Spelling::Kept
    };
    let scope = if kind & 4 == 0 {
        Scope::All
    } else {
        Scope::Lost
    };
    Plan {
        network: network_of(kind),
        spelling,
        scope,
        early: u64::from(kind >> 3),
    }
}

/// Puts counts in.
fn put_counts(digest: &mut Digest, counts: &Counts) {
    digest.put_number(counts.packets);
    digest.put_number(counts.both);
    digest.put_number(counts.a);
    digest.put_number(counts.b);
    digest.put_number(counts.astray);
    digest.put_number(counts.unnumbered);
    digest.put_number(counts.open);
    digest.put_number(counts.written);
    digest.put_number(counts.cut);
    digest.put_number(counts.long);
    digest.put_number(counts.untold);
}

/// Whether each packet is counted as one kind, and as written where all are.
fn add_up(plan: &Plan, counts: &Counts) -> bool {
    let alone = counts.a.saturating_add(counts.b);
    let numbered = counts
        .both
        .saturating_add(counts.astray)
        .saturating_add(alone);
    let all = numbered
        .saturating_add(counts.unnumbered)
        .saturating_add(counts.open);
    let written = match plan.scope {
        Scope::All => counts.written == all,
        Scope::Lost => counts.written == alone.saturating_add(counts.astray),
    };
    counts.packets == all && (written || counts.open > 0)
}

/// How captures are merged, and by which keys.
#[derive(Clone, Copy)]
struct Merging {
    options: Options,
    plan: Plan,
    keys: Keys,
}

impl Merging {
    /// What two octets name.
    fn new(choice: u8, kind: u8) -> Merging {
        Merging {
            options: options_of(choice),
            plan: plan_of(kind),
            keys: Keys::FIXED,
        }
    }
}

/// Merges what was opened. None where an allocation failed, or where counts do not add up.
fn merged(alloc: Global, captures: Captures<&[u8]>, merging: &Merging) -> Option<Digest> {
    let mut captures = captures;
    let mut sink = Sink::new();
    let (counts, outcome) = merge(
        alloc,
        merging.keys,
        &mut captures,
        &merging.options.choice,
        &merging.plan,
        &mut sink,
    );
    if outcome.is_ok() && !add_up(&merging.plan, &counts) {
        return None;
    }
    put_counts(&mut sink.digest, &counts);
    digest_of(sink, outcome)
}

/// What comes of a merge: the first octet names how captures are read, the second one what is written. None where an allocation
/// failed, or where counts do not add up.
pub fn come_of(alloc: Global, octets: &[u8]) -> Option<Digest> {
    let [choice, kind, rest @ ..] = octets else {
        return Some(Digest::new());
    };
    let merging = Merging::new(*choice, *kind);
    let Files { first, second } = files_of(*choice, rest);
    match Captures::open(alloc, Some(first), second, None, &merging.options) {
        Ok(captures) => merged(alloc, captures, &merging),
        Err(fault) => digest_of(Sink::new(), Err(fault)),
    }
}
