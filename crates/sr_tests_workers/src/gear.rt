//! The feeds of three workers, and the framings of their ports, which wait at gates.

ghost use Rattle.std.specs.Prelude.{◌≡◌, IfSome, vec_len};

use super::gate::{Act, Carriage, Gate, Way};
use super::hand::{Halt, Hand};
use super::steps::{Hold, Run};
use sr_forwarding::PrpFraming;
use sr_ports::{Pass, Passes, Worker};
use sr_prp_trailer::Lan;
use sr_workers::Kit;
use std::alloc::{AllocError, Global};
use std::sync::Arc;
use std::sync::atomic::AtomicU64;
use std::sync::ledger::Ledger;

const LOOKS: u64 = 100_000_000;

// The trailers of LAN A with number 5 and of LAN B with number 6.
const TRAILER_A: [u8; 6] = [0, 5, 0xa0, 52, 0x88, 0xfb];

const TRAILER_B: [u8; 6] = [0, 6, 0xb0, 52, 0x88, 0xfb];

// A frame of this source to this destination that ends so.
fn frame_of(to: u8, from: u8, end: [u8; 6]) -> [u8; 66] {
    let mut octets = [0; 66];
    octets[..14].copy_from_slice(&[2, 0, 0, 0, 0, to, 2, 0, 0, 0, 0, from, 8, 0]);
    octets[60..].copy_from_slice(&end);
    octets
}

fn hand_of(frame: [u8; 66], frames: u64, halt: Halt, wanted: u64, seen: Arc<AtomicU64>) -> Hand {
    Hand {
        frame,
        frames,
        floods: frames > 1 && frame[11] != 1,
        turns: frames.saturating_add(1),
        wanted,
        patience: LOOKS,
        halt,
        asked: 0,
        given: 0,
        seen,
        failures: 0,
    }
}

/// What of a run threads share.
#[derive(Drop)]
pub(super) struct Flags {
    // What the host was given.
    up: Arc<AtomicU64>,
    // What the ports were given.
    out: Arc<AtomicU64>,
    // Framings that wait as they write.
    writing: Arc<AtomicU64>,
    // Framings that wait as they read.
    reading: Arc<AtomicU64>,
    /// Gates that were missed.
    pub missed: Arc<AtomicU64>,
}

pub(super) fn flags_of(alloc: Global) -> Result<Flags, AllocError> {
    let up = Arc::new(alloc, AtomicU64::new(0))?;
    let out = Arc::new(alloc, AtomicU64::new(0))?;
    let writing = Arc::new(alloc, AtomicU64::new(0))?;
    let reading = Arc::new(alloc, AtomicU64::new(0))?;
    let missed = Arc::new(alloc, AtomicU64::new(0))?;
    Ok(Flags {
        up,
        out,
        writing,
        reading,
        missed,
    })
}

// A gate at reading that opens at the first of these.
fn read_gate(seen: &Arc<AtomicU64>, flags: &Flags) -> Result<Option<Gate>, AllocError> {
    let seen = Arc::try_clone(seen)?;
    let begun = Arc::try_clone(&flags.reading)?;
    let missed = Arc::try_clone(&flags.missed)?;
    Ok(Some(Gate {
        act: Act::Read,
        seen,
        until: 1,
        looks: LOOKS,
        begun,
        missed,
    }))
}

// A gate at writing that opens where two frames were given elsewhere. One of them was still to be read.
fn write_gate(seen: &Arc<AtomicU64>, flags: &Flags) -> Result<Option<Gate>, AllocError> {
    let seen = Arc::try_clone(seen)?;
    let begun = Arc::try_clone(&flags.writing)?;
    let missed = Arc::try_clone(&flags.missed)?;
    Ok(Some(Gate {
        act: Act::Write,
        seen,
        until: 2,
        looks: LOOKS,
        begun,
        missed,
    }))
}

// What the framing of a worker waits for. What others are given is the host's, and where the host itself waits, the ports'.
fn gate_of(run: &Run, worker: Worker, flags: &Flags) -> Result<Option<Gate>, AllocError> {
    match run.hold {
        Hold::Reads(at) if at == worker => read_gate(&flags.up, flags),
        Hold::Writes(Worker::Host, _) if worker == Worker::Host => write_gate(&flags.out, flags),
        Hold::Writes(at, _) if at == worker => write_gate(&flags.up, flags),
        Hold::Writes(_, other) if other == worker => read_gate(&flags.writing, flags),
        _ => Ok(None),
    }
}

// The framing of a port.
fn carriage_of(run: &Run, worker: Worker, way: Way, flags: &Flags) -> Result<Carriage, AllocError> {
    let gate = gate_of(run, worker, flags)?;
    Ok(Carriage { way, gate })
}

// How frames look at a LAN.
fn way_of(lan: Lan) -> Way {
    Way::Lan(PrpFraming { lan, net: 0 })
}

/// A feed, and the framing of its port.
#[derive(Drop)]
pub(super) struct Gear<C: Drop> {
    pub feed: Hand,
    pub framing: C,
}

fn gear_a(run: &Run, flags: &Flags) -> Result<Gear<Carriage>, AllocError> {
    let framing = carriage_of(run, Worker::A, way_of(Lan::A), flags)?;
    let seen = Arc::try_clone(&flags.out)?;
    let feed = hand_of(
        frame_of(1, 2, TRAILER_A),
        run.frames[0],
        run.halts[0],
        run.wanted[0],
        seen,
    );
    Ok(Gear { feed, framing })
}

fn gear_b(run: &Run, flags: &Flags) -> Result<Gear<Carriage>, AllocError> {
    let framing = carriage_of(run, Worker::B, way_of(Lan::B), flags)?;
    let seen = Arc::try_clone(&flags.out)?;
    let feed = hand_of(
        frame_of(1, 3, TRAILER_B),
        run.frames[0],
        run.halts[1],
        run.wanted[1],
        seen,
    );
    Ok(Gear { feed, framing })
}

fn gear_host(run: &Run, flags: &Flags) -> Result<Gear<Carriage>, AllocError> {
    let framing = carriage_of(run, Worker::Host, Way::Host, flags)?;
    let seen = Arc::try_clone(&flags.up)?;
    let feed = hand_of(
        frame_of(2, 1, [0; 6]),
        run.frames[1],
        run.halts[2],
        run.wanted[2],
        seen,
    );
    Ok(Gear { feed, framing })
}

fn kit_of<C: Drop, L: Ledger>(pass: Pass<L>, gear: Gear<C>) -> Kit<Pass<L>, Hand, C> {
    let Gear { feed, framing } = gear;
    Kit {
        pass,
        feed,
        framing,
    }
}

/// The kits of A, B and the host.
pub(super) fn kits_of<C: Drop, L: Ledger>(
    alloc: Global,
    passes: Passes<L>,
    a: Gear<C>,
    b: Gear<C>,
    host: Gear<C>,
) -> Option<Vec<Kit<Pass<L>, Hand, C>>>
    ensures { IfSome result (λ kits. vec_len kits ≡ 3) }
{
    let Ok(mut kits) = Vec::with_capacity(alloc, 3) else {
        return None;
    };
    kits.push_reserved(kit_of(passes.a, a));
    kits.push_reserved(kit_of(passes.b, b));
    kits.push_reserved(kit_of(passes.host, host));
    Some(kits)
}

/// The gear of A, B and the host.
#[derive(Drop)]
pub(super) struct Gears<C: Drop> {
    pub a: Gear<C>,
    pub b: Gear<C>,
    pub host: Gear<C>,
}

pub(super) fn gears_of(run: &Run, flags: &Flags) -> Result<Gears<Carriage>, AllocError> {
    let a = gear_a(run, flags)?;
    let b = gear_b(run, flags)?;
    let host = gear_host(run, flags)?;
    Ok(Gears { a, b, host })
}
