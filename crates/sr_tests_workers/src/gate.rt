//! Framings of a node's ports, of which one may wait as it reads or writes.

use sr_forwarding::{Framing, ParcelView, PlainFraming, PrpFraming, ReadFault};
use std::sync::Arc;
use std::sync::atomic::{AtomicU64, Ordering};
use std::thread;

/// What a framing does.
#[derive(Clone, Copy, Debug, PartialEq, Eq)]
pub enum Act {
    /// It reads.
    Read,
    /// It writes.
    Write,
}

/// What a framing waits for.
#[derive(Drop)]
pub struct Gate {
    /// As it does this, it waits.
    pub act: Act,
    /// It waits for this count.
    pub seen: Arc<AtomicU64>,
    /// It waits until the count is as high.
    pub until: u64,
    /// How often it looks for that.
    pub looks: u64,
    /// Counts where it begins to wait.
    pub begun: Arc<AtomicU64>,
    /// Counts where it looked in vain.
    pub missed: Arc<AtomicU64>,
}

/// How frames look at a port.
#[derive(Drop)]
pub enum Way {
    /// As at a LAN.
    Lan(PrpFraming),
    /// As at the host.
    Host,
}

/// How a port carries frames.
#[derive(Drop)]
pub struct Carriage {
    /// How frames look.
    pub way: Way,
    /// What it waits for.
    pub gate: Option<Gate>,
}

impl Gate {
    fn wait(&self) {
        self.begun.fetch_add(1, Ordering::SeqCst);
        for _look in 0..self.looks {
            if self.seen.load(Ordering::SeqCst) >= self.until {
                return;
            }
            thread::yield_now();
        }
        self.missed.fetch_add(1, Ordering::SeqCst);
    }
}

impl Carriage {
    fn wait_at(&self, act: Act) {
        if let Some(gate) = &self.gate {
            if gate.act == act {
                gate.wait();
            }
        }
    }
}

impl Framing for Carriage {
    ghost use Rattle.sr_tests_workers.specs.Carriages.{meaning_of};

    ghost meaning = { λ c. meaning_of c.way };

    fn read<'a>(&self, octets: &'a [u8]) -> Result<ParcelView<'a>, ReadFault> {
        self.wait_at(Act::Read);
        match &self.way {
            Way::Lan(framing) => framing.read(octets),
            Way::Host => PlainFraming.read(octets),
        }
    }

    fn write(&self, out: &mut Vec<u8>, parcel: &ParcelView<'_>) -> Result<(), ReadFault> {
        self.wait_at(Act::Write);
        match &self.way {
            Way::Lan(framing) => framing.write(out, parcel),
            Way::Host => PlainFraming.write(out, parcel),
        }
    }
}
