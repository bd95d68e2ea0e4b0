//! Three ports of a RedBox are flooded while its tables are full and its host takes nothing out: what the host sends goes out at
//! each of them meanwhile.

ghost use Rattle.std.specs.Prelude.{◌≡◌};

use super::entering::write_down;
use super::flood_tally::{NOTHING, Tally};
use super::frames::{EVERYONE, OWN, plain_from, tagged_from};
use sr_forwarding::{Framing, HsrFraming, Parcel, PlainFraming, ReadFault, Role};
use sr_frame::{Frame, Mac, Port};
use sr_node::{Answer, Event, NodeOf};
use sr_ports::{
    EnterFault, Kept, Log, Pass, Passes, Settlement, SharedNode, Worker, enter, settle,
};
use sr_redbox::SanBox;
use std::alloc::Global;
use std::marker::Brand;
use std::sync::Wait;
use std::sync::atomic::{AtomicU64, Ordering};
use std::sync::ledger::{Blank, Ledger};
use std::thread::{self, Threads, join};

// How many frames the host sends, each of which goes out at three ports.
const SENDS: u64 = 40;

// So often a port is flooded at least, and at most: until all that the host sends went out.
const FEWEST_ROUNDS: u64 = 64;

const MOST_ROUNDS: u64 = 10_000_000;

// As many sources as the tables remember.
const SOURCES: u16 = 1024;

// As many nodes behind the box as it stands for. These are sources too.
const PROXIED: u16 = 256;

// As many parcels as wait at a port at most.
const WAITING: u16 = 256;

// When the first sources were heard, and when others are, so much later that duplicates of the first ones are forgotten.
const BEFORE: u64 = 0;

const NOW: u64 = 500;

// Of which source a frame is.
#[derive(Clone, Copy)]
enum Kind {
    // One that is remembered.
    Known(u16),
    // One that was never heard.
    New(u16),
}

// The address of a source. Nodes behind the box have another first octet than those of the ring.
fn source_of(port: Port, kind: Kind) -> Mac {
    let first = if port == Port::C { 6 } else { 2 };
    let (sort, number) = match kind {
        Kind::Known(number) => (1, number),
        Kind::New(number) => (2, number),
    };
    let [high, low] = number.to_be_bytes();
    Mac([first, 0, 0, sort, high, low])
}

// The parcel of a frame for the node that comes in at a port. One from behind the box has no number.
fn parcel_of(alloc: Global, port: Port, kind: Kind, seq: u16) -> Result<Parcel, ReadFault> {
    let source = source_of(port, kind);
    match port {
        Port::B => HsrFraming { path: 1 }.decode(alloc, &tagged_from(source, OWN, 1, seq)),
        Port::C => PlainFraming.decode(alloc, &plain_from(source, OWN)),
        _ => HsrFraming { path: 0 }.decode(alloc, &tagged_from(source, OWN, 0, seq)),
    }
}

// What a thread has.
#[derive(Drop)]
struct Hand<L: Ledger> {
    pass: Pass<L>,
    log: Log,
    tally: Tally,
}

// What the threads of A, B, C and the host have.
#[derive(Drop)]
struct Hands<L: Ledger> {
    a: Hand<L>,
    b: Hand<L>,
    c: Hand<L>,
    host: Hand<L>,
}

fn hand_of<L: Ledger>(alloc: Global, pass: Pass<L>, worker: Worker) -> Hand<L> {
    Hand {
        pass,
        log: Log::new(alloc, worker),
        tally: NOTHING,
    }
}

// Enters an event under the lock, and writes it down. Whether a parcel was taken out.
fn enter_one<R: Role, L: Ledger, W: Wait>(
    rt: &W,
    shared: &SharedNode<R, L>,
    pass: &mut Pass<L>,
    log: &mut Log,
    event: Event,
) -> Result<bool, EnterFault> {
    if let Err(refused) = log.reserve() {
        drop(event);
        return Err(refused.into());
    }
    let entered = enter(&mut *shared.kept.lock(rt), pass, &event);
    let is_taken = matches!(entered, Ok(Answer::Taken(Some(_))));
    write_down(log, event, entered)?;
    Ok(is_taken)
}

// So, and what comes of it is counted.
fn tries<R: Role, L: Ledger, W: Wait>(
    rt: &W,
    shared: &SharedNode<R, L>,
    hand: &mut Hand<L>,
    event: Event,
) -> Result<bool, EnterFault> {
    let Hand { pass, log, tally } = hand;
    let outcome = enter_one(rt, shared, pass, log, event);
    tally.note(outcome);
    outcome
}

// A frame comes in at a port. Where memory is short it does not.
fn comes_in<R: Role, L: Ledger, W: Wait>(
    rt: &W,
    alloc: Global,
    shared: &SharedNode<R, L>,
    hand: &mut Hand<L>,
    port: Port,
    kind: Kind,
    seq: u16,
    now: u64,
) {
    if let Ok(parcel) = parcel_of(alloc, port, kind, seq) {
        let _ = tries(rt, shared, hand, Event::Arrive { port, parcel, now });
    }
}

// Whether something waits at a port.
fn waits<R: Role, L: Ledger, W: Wait>(rt: &W, shared: &SharedNode<R, L>, port: Port) -> bool {
    let kept = shared.kept.lock(rt);
    kept.node.waiting(port) > 0
}

// Takes out what waits at a port, at most so many parcels, and counts it for all to see.
fn takes<R: Role, L: Ledger, W: Wait>(
    rt: &W,
    shared: &SharedNode<R, L>,
    hand: &mut Hand<L>,
    port: Port,
    out: &AtomicU64,
) {
    for _ in 0..WAITING {
        if !waits(rt, shared, port) {
            return;
        }
        if tries(rt, shared, hand, Event::Take { port }) == Ok(true) {
            out.fetch_add(1, Ordering::SeqCst);
        }
    }
}

// The tables fill up: first the one of nodes; then, when no duplicate of these is remembered, the one of proxied nodes, and that of
// sources by theirs and those of others. And then what waits for the host.
fn fill<R: Role, L: Ledger, W: Wait>(
    rt: &W,
    alloc: Global,
    shared: &SharedNode<R, L>,
    a: &mut Hand<L>,
    c: &mut Hand<L>,
    host: &mut Hand<L>,
) {
    let out = AtomicU64::new(0);
    for number in 0..SOURCES {
        comes_in(
            rt,
            alloc,
            shared,
            a,
            Port::A,
            Kind::Known(number),
            0,
            BEFORE,
        );
        takes(rt, shared, host, Port::H, &out);
    }
    for number in 0..PROXIED {
        comes_in(rt, alloc, shared, c, Port::C, Kind::Known(number), 0, NOW);
        takes(rt, shared, host, Port::H, &out);
    }
    for number in 0..SOURCES - PROXIED {
        comes_in(rt, alloc, shared, a, Port::A, Kind::Known(number), 0, NOW);
        takes(rt, shared, host, Port::H, &out);
    }
    for number in 0..WAITING {
        comes_in(
            rt,
            alloc,
            shared,
            a,
            Port::A,
            Kind::Known(0),
            number.saturating_add(1),
            NOW,
        );
    }
}

// The next frame of a flood: one of a new source, or one of a source that is remembered, under a number that goes up, or now and then
// under one that was noted.
fn flood_once<R: Role, L: Ledger, W: Wait>(
    rt: &W,
    alloc: Global,
    shared: &SharedNode<R, L>,
    hand: &mut Hand<L>,
    port: Port,
    round: u64,
) {
    let number = (round % 60_000) as u16;
    let (kind, seq) = match round % 64 {
        0 => (Kind::Known(1), 0),
        part if part % 2 == 0 => (Kind::Known(1), 1000),
        _ => (Kind::New(number), number),
    };
    comes_in(rt, alloc, shared, hand, port, kind, seq, NOW);
}

// A thread that floods a port and takes out what waits there, until all that the host sends went out.
fn floods<R: Role, L: Ledger, W: Wait>(
    rt: &W,
    alloc: Global,
    shared: &SharedNode<R, L>,
    hand: Hand<L>,
    port: Port,
    out: &AtomicU64,
) -> Hand<L> {
    let mut hand = hand;
    hand.tally = NOTHING;
    for round in 0..MOST_ROUNDS {
        if round >= FEWEST_ROUNDS && out.load(Ordering::SeqCst) >= 3 * SENDS {
            return hand;
        }
        flood_once(rt, alloc, shared, &mut hand, port, round);
        takes(rt, shared, &mut hand, port, out);
        thread::yield_now();
    }
    hand
}

// The host's frame for all. None where an allocation failed.
fn sending(alloc: Global) -> Option<Event> {
    let frame = Frame::copy(alloc, &plain_from(OWN, EVERYONE)).ok()?;
    Some(Event::Send { frame, now: NOW })
}

// A thread that sends what the host has.
fn sends<R: Role, L: Ledger, W: Wait>(
    rt: &W,
    alloc: Global,
    shared: &SharedNode<R, L>,
    hand: Hand<L>,
) -> Hand<L> {
    let mut hand = hand;
    hand.tally = NOTHING;
    for _ in 0..SENDS {
        if let Some(event) = sending(alloc) {
            let _ = tries(rt, shared, &mut hand, event);
        }
        thread::yield_now();
    }
    hand
}

// All four threads.
fn flooded<R: Role + Send, L: Ledger + Send + Sync, W: Threads + Wait + Sync>(
    rt: &W,
    alloc: Global,
    shared: &SharedNode<R, L>,
    hands: Hands<L>,
) -> Hands<L> {
    let Hands { a, b, c, host } = hands;
    let out = AtomicU64::new(0);
    let seen = &out;
    let ((a, b), (c, host)) = join(
        rt,
        || {
            join(
                rt,
                || floods(rt, alloc, shared, a, Port::A, seen),
                || floods(rt, alloc, shared, b, Port::B, seen),
            )
        },
        || {
            join(
                rt,
                || floods(rt, alloc, shared, c, Port::C, seen),
                || sends(rt, alloc, shared, host),
            )
        },
    );
    Hands { a, b, c, host }
}

// What came of it: what the logs settle to, how many parcels wait for the host, how many of its frames were sent, how many parcels went
// out at A, B and C, and whether each was flooded.
type Report = (Settlement, usize, u64, [u64; 3], [bool; 3]);

// The log of a thread that is done.
fn log_of<L: Ledger>(hand: Hand<L>) -> Log {
    let Hand { pass, log, .. } = hand;
    drop(pass);
    log
}

fn report_of<R: Role, L: Ledger>(kept: Kept<R, L>, hands: Hands<L>) -> Report {
    let Hands { a, b, c, host } = hands;
    let waiting = kept.node.waiting(Port::H);
    let entered = host.tally.entered;
    let taken = [a.tally.taken, b.tally.taken, c.tally.taken];
    let floods = [a.tally.is_flood(), b.tally.is_flood(), c.tally.is_flood()];
    let logs = [log_of(a), log_of(b), log_of(c), log_of(host)];
    let settlement = settle(kept.journal.as_slice(), &logs);
    drop(logs);
    drop(kept);
    (settlement, waiting, entered, taken, floods)
}

fn told<R: Role + Send, L: Ledger + Send + Sync, W: Threads + Wait + Sync>(
    rt: &W,
    alloc: Global,
    shared: SharedNode<R, L>,
    passes: Passes<L>,
) -> Report {
    let Passes {
        a,
        b,
        c,
        ager,
        host,
    } = passes;
    drop(ager);
    let mut a = hand_of(alloc, a, Worker::A);
    let b = hand_of(alloc, b, Worker::B);
    let mut c = hand_of(alloc, c, Worker::C);
    let mut host = hand_of(alloc, host, Worker::Host);
    fill(rt, alloc, &shared, &mut a, &mut c, &mut host);
    let hands = flooded(rt, alloc, &shared, Hands { a, b, c, host });
    report_of(shared.into_kept(), hands)
}

fn reported<R: Role + Send, L: Ledger + Send + Sync, W: Threads + Wait + Sync>(
    rt: &W,
    alloc: Global,
    node: NodeOf<R>,
    blank: Blank,
) -> Option<Report>
    requires name { blank.name ≡ L.name }
    requires parts { blank.parts ≡ L.parts }
    requires five { L.parts ≡ 5 }
{
    match SharedNode::<R, L>::new(alloc, node, blank) {
        Ok((shared, passes)) => Some(told(rt, alloc, shared, passes)),
        Err(_) => None,
    }
}

// None where an allocation failed.
fn flooded_san<W: Threads + Wait + Sync>(rt: &W, alloc: Global) -> Option<Report> {
    match NodeOf::new(alloc, SanBox::new(alloc, OWN)) {
        Ok(node) => reported::<SanBox, Brand, W>(rt, alloc, node, Blank::new(5)),
        Err(_) => None,
    }
}

// All went out, and nothing more came to the host.
const ALL_OUT: Option<Report> = Some((
    Settlement::Settled,
    WAITING as usize,
    SENDS,
    [SENDS; 3],
    [true; 3],
));

// An allocation that fails is met by another try.
#[test]
fn what_the_host_sends_goes_out_while_three_ports_are_flooded(rt: HostRuntime) {
    let alloc = rt.alloc();
    assert!(&rt; flooded_san(&rt, alloc) == ALL_OUT || flooded_san(&rt, alloc) == ALL_OUT);
}
