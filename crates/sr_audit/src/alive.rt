//! Signs of life of a node.

ghost use Rattle.std.specs.Prelude.{◌≡◌};
ghost use Rattle.sr_audit.specs.Hearing.{wider, lives_with, alive_begun, alive_before, alive_with};

use crate::side::Side;

/// The supervision frames for an address, as they came in at one side.
#[derive(Clone, Copy, Debug, PartialEq, Eq)]
pub struct Lives {
    /// How many came.
    pub rx: u64,
    last: Option<u64>,
    /// The greatest time between two in a row, in nanoseconds. None: fewer than two came.
    pub gap: Option<u64>,
}

/// The greatest time between two in a row, where another time between two is known.
fn wider(most: Option<u64>, gap: u64) -> u64
    ensures { result ≡ wider gap most }
{
    match most {
        Some(most) => most.max(gap),
        None => gap,
    }
}

impl Lives {
    /// None came.
    pub const NONE: Lives = Lives {
        rx: 0,
        last: None,
        gap: None,
    };

    /// Takes the time of the next one.
    fn note(&mut self, time: u64)
        ensures { self.new ≡ lives_with time self.old }
    {
        self.rx = self.rx.saturating_add(1);
        if let Some(last) = self.last {
            self.gap = Some(wider(self.gap, time.saturating_sub(last)));
        }
        self.last = Some(time);
    }
}

/// The supervision frames for an address.
#[derive(Clone, Copy, Debug, PartialEq, Eq)]
pub struct Alive {
    /// The type of the first TLV of the last one: 20 or 21 of a PRP node, 22 or 23 of an HSR node.
    pub kind: u8,
    /// Those that came by side A.
    pub a: Lives,
    /// Those that came by side B.
    pub b: Lives,
}

impl Alive {
    /// None came yet; the next one has this type.
    fn begin(kind: u8) -> Alive
        ensures { result ≡ alive_begun kind }
    {
        Alive {
            kind,
            a: Lives::NONE,
            b: Lives::NONE,
        }
    }

    /// What is known before the next one comes, which has this type.
    pub(crate) fn before(alive: Option<Alive>, kind: u8) -> Alive
        ensures { result ≡ alive_before kind alive }
    {
        match alive {
            Some(alive) => alive,
            None => Alive::begin(kind),
        }
    }

    /// Takes the next one.
    pub(crate) fn note(&mut self, kind: u8, side: Side, time: u64)
        ensures { self.new ≡ alive_with kind side time self.old }
    {
        self.kind = kind;
        match side {
            Side::A => self.a.note(time),
            Side::B => self.b.note(time),
        }
    }
}
