//! Packets that wait until it is known by which sides their frames came.

ghost use Rattle.std.specs.Prelude.{◌≡◌};
ghost use Rattle.sr_merge.specs.Merging.{pending_of, verdict_of};
ghost use Rattle.sr_merge.specs.Verdicts.{last_verdict};

use crate::came::Came;

/// A copy that comes so many nanoseconds behind the first one, or later, is no longer waited for: 400 ms, as long as a silent source
/// is remembered (choice of this project).
pub const COPY_TIME: u64 = 400_000_000;

/// By which sides a packet came.
#[derive(Clone, Copy, Debug, PartialEq, Eq)]
pub enum Verdict {
    /// A copy came by the other side within 400 ms.
    Both,
    /// No copy came by the other side within 400 ms.
    Alone,
    /// It has no number, so that no copy can be told.
    Unnumbered,
}

/// A packet that is to be written.
#[derive(Debug, Drop)]
pub struct Waiting {
    /// Where and when it came in.
    pub came: Came,
    /// The number of the packet in its capture.
    pub number: u64,
    /// The octets that are written of it.
    pub octets: Vec<u8>,
    /// A copy of it came by the other side.
    pub is_met: bool,
    /// Whether its trailer names the other LAN.
    pub is_astray: bool,
}

impl Waiting {
    /// By which sides it came, if that is known when a packet comes at this time. None: a copy may come yet.
    pub fn verdict(&self, now: u64) -> Option<Verdict>
        ensures { result ≡ verdict_of now (pending_of self.now) }
    {
        if self.came.frame.is_none() {
            Some(Verdict::Unnumbered)
        } else if self.is_met {
            Some(Verdict::Both)
        } else if now.saturating_sub(self.came.time) >= COPY_TIME {
            Some(Verdict::Alone)
        } else {
            None
        }
    }
    /// By which sides it came, where no more copies will come.
    pub fn last_verdict(&self) -> Verdict
        ensures { result ≡ last_verdict (pending_of self.now) }
    {
        if self.came.frame.is_none() {
            Verdict::Unnumbered
        } else if self.is_met {
            Verdict::Both
        } else {
            Verdict::Alone
        }
    }
}
