//! Events that look random: frames of a ring and of nodes that know no redundancy, sends, ticks and takes.

use super::frames::{EVERYONE, OWN, plain_from, tagged_from};
use sr_forwarding::{Framing, HsrFraming, Parcel, PlainFraming};
use sr_frame::{Frame, Mac, NoMemory, Port};
use sr_node::Event;
use std::alloc::Global;

// Of so many events the last ones are takes.
const ROUND: u64 = 4096;

// From this one of a round on there are takes alone: as many as all outboxes hold.
const TAKES_FROM: u64 = 3072;

// Where supervision frames go.
const SUPERVISION: Mac = Mac([1, 0x15, 0x4e, 0, 1, 0]);

// What an event is.
#[derive(Clone, Copy)]
enum Kind {
    // A frame comes in from the ring.
    Ring,
    // A supervision frame comes in from the ring.
    Life,
    // A frame comes in at the interlink.
    San,
    // The host sends a frame.
    Send,
    // Time passes.
    Tick,
    // A parcel is asked for.
    Take,
}

/// What comes next. The same event can be made of it again.
#[derive(Clone, Copy)]
pub struct Draw {
    kind: Kind,
    port: Port,
    src: Mac,
    dst: Mac,
    number: u16,
    now: u64,
}

/// What draws events. Each of its numbers follows from the one before, so that two who begin alike draw alike.
#[derive(Clone, Copy)]
pub struct Drawing {
    state: u64,
    time: u64,
    drawn: u64,
}

// A node of the ring.
fn ring_node(number: u16) -> Mac {
    let [high, low] = number.to_be_bytes();
    Mac([2, 0, 0, 1, high, low])
}

// A node behind the interlink.
fn san(number: u16) -> Mac {
    let [high, low] = number.to_be_bytes();
    Mac([2, 0, 0, 2, high, low])
}

fn kind_of(roll: u64) -> Kind {
    match roll % 64 {
        0..16 => Kind::Ring,
        16..20 => Kind::Life,
        20..24 => Kind::San,
        24..27 => Kind::Send,
        27 => Kind::Tick,
        _ => Kind::Take,
    }
}

fn port_of(roll: u64) -> Port {
    match roll % 4 {
        0 => Port::H,
        1 => Port::A,
        2 => Port::B,
        _ => Port::C,
    }
}

impl Drawing {
    /// A beginning.
    pub fn new() -> Drawing {
        Drawing {
            state: 1,
            time: 0,
            drawn: 0,
        }
    }

    // The high bits of a linear congruential generator.
    fn roll(&mut self) -> u64 {
        self.state = self
            .state
            .wrapping_mul(6_364_136_223_846_793_005)
            .wrapping_add(1_442_695_040_888_963_407);
        self.state >> 33
    }

    // Of 3000 nodes more are heard in a round in which time stands still than a table has room for.
    fn ring_source(&mut self) -> Mac {
        ring_node((self.roll() % 3000) as u16)
    }

    // More than a RedBox stands for.
    fn san_source(&mut self) -> Mac {
        san((self.roll() % 300) as u16)
    }

    fn destination(&mut self) -> Mac {
        match self.roll() % 4 {
            0 => EVERYONE,
            1 => OWN,
            2 => self.ring_source(),
            _ => self.san_source(),
        }
    }

    // In every other round time goes on, in the others it stands still. An event may be late.
    fn now(&mut self) -> u64 {
        if self.drawn / ROUND % 2 == 0 && self.roll() % 4 == 0 {
            self.time = self.time.saturating_add(1);
        }
        self.time.saturating_sub(self.roll() % 4)
    }

    fn source(&mut self, kind: Kind) -> Mac {
        match kind {
            Kind::San => self.san_source(),
            Kind::Send => OWN,
            _ => self.ring_source(),
        }
    }

    fn drawn_as(&mut self, kind: Kind, port: Port) -> Draw {
        let src = self.source(kind);
        let dst = self.destination();
        let number = (self.roll() % 1500) as u16;
        let now = self.now();
        Draw {
            kind,
            port,
            src,
            dst,
            number,
            now,
        }
    }

    /// What comes next.
    pub fn next(&mut self) -> Draw {
        let place = self.drawn % ROUND;
        self.drawn = self.drawn.saturating_add(1);
        let kind = kind_of(self.roll());
        let port = port_of(self.roll());
        if place < TAKES_FROM {
            self.drawn_as(kind, port)
        } else {
            self.drawn_as(Kind::Take, port_of(place))
        }
    }

    /// Whether a round is over, and nothing waits at the node.
    pub fn is_round(&self) -> bool {
        self.drawn % ROUND == 0
    }
}

// A life check of that source, which names another node as the one that it is of, and the source as its RedBox.
fn life(of: Mac, src: Mac, number: u16) -> [u8; 66] {
    let Mac([n0, n1, n2, n3, n4, n5]) = of;
    let Mac([r0, r1, r2, r3, r4, r5]) = src;
    let told = [
        0x88, 0xfb, 0, 1, 0, 0, 23, 6, n0, n1, n2, n3, n4, n5, 30, 6, r0, r1, r2, r3, r4, r5,
    ];
    let mut octets = tagged_from(src, SUPERVISION, 0, number);
    octets[18..40].copy_from_slice(&told);
    octets
}

fn ring_parcel(alloc: Global, octets: &[u8]) -> Result<Parcel, NoMemory> {
    match (HsrFraming { path: 0 }).decode(alloc, octets) {
        Ok(parcel) => Ok(parcel),
        Err(_) => Err(NoMemory),
    }
}

fn san_parcel(alloc: Global, octets: &[u8]) -> Result<Parcel, NoMemory> {
    match PlainFraming.decode(alloc, octets) {
        Ok(parcel) => Ok(parcel),
        Err(_) => Err(NoMemory),
    }
}

fn frame(alloc: Global, octets: &[u8]) -> Result<Frame, NoMemory> {
    match Frame::copy(alloc, octets) {
        Ok(frame) => Ok(frame),
        Err(_) => Err(NoMemory),
    }
}

// A port of the ring.
fn ring_port(port: Port) -> Port {
    match port {
        Port::H | Port::A => Port::A,
        Port::B | Port::C => Port::B,
    }
}

/// The event.
pub fn event_of(alloc: Global, draw: &Draw) -> Result<Event, NoMemory> {
    let Draw {
        kind,
        port,
        src,
        dst,
        number,
        now,
    } = *draw;
    Ok(match kind {
        Kind::Ring => Event::Arrive {
            port: ring_port(port),
            parcel: ring_parcel(alloc, &tagged_from(src, dst, 0, number))?,
            now,
        },
        Kind::Life => Event::Arrive {
            port: ring_port(port),
            parcel: ring_parcel(alloc, &life(dst, src, number))?,
            now,
        },
        Kind::San => Event::Arrive {
            port: Port::C,
            parcel: san_parcel(alloc, &plain_from(src, dst))?,
            now,
        },
        Kind::Send => Event::Send {
            frame: frame(alloc, &plain_from(src, dst))?,
            now,
        },
        Kind::Tick => Event::Tick { now },
        Kind::Take => Event::Take { port },
    })
}
