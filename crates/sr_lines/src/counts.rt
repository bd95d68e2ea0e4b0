//! What a line counts.

ghost use Rattle.std.specs.Prelude.{◌≡◌, ◌≢◌, ◌+◌, ◌-◌, ◌^◌, ◌<◌, OnOk, OnErr, MatchBool, true};
ghost use Rattle.sr_workers.specs.Told.{lost_after};

use sr_workers::{FeedFault, Given};

/// What a line counts. It ends only where it has answered as many turns, or failed as often, as can be counted.
#[derive(Clone, Copy, Debug, Drop)]
pub(crate) struct Counts {
    /// How often it failed.
    pub(crate) failures: u64,
    /// How many turns it answered before its end.
    pub(crate) asked: u64,
    /// How many frames were lost, up to the greatest number.
    pub(crate) lost: u64,
    /// It has answered `End`.
    pub(crate) ended: bool,
    ghost ends: { ended ≡ true → asked ≢ 2 ^ 64 - 1 → failures ≡ 2 ^ 64 - 1 },
}

impl Counts {
    /// Nothing was counted yet.
    pub(crate) const NONE: Counts = Counts {
        failures: 0,
        asked: 0,
        lost: 0,
        ended: false,
    };

    /// An allocation failed: that is a failure, or nothing where there were as many as can be counted.
    pub(crate) fn fail(&mut self) -> Result<(), FeedFault>
        ensures ok { OnOk result (self.new.failures ≡ self.old.failures) }
        ensures most { OnOk result (self.old.failures ≡ 2 ^ 64 - 1) }
        ensures err { OnErr result (self.new.failures ≡ self.old.failures + 1) }
        ensures asked { self.new.asked ≡ self.old.asked }
        ensures lost { self.new.lost ≡ self.old.lost }
        ensures ended { self.new.ended ≡ self.old.ended }
    {
        if self.failures == u64::MAX {
            return Ok(());
        }
        self.failures += 1;
        Err(FeedFault)
    }

    /// Counts a frame that was given.
    pub(crate) fn count(&mut self, given: Given)
        ensures lost { self.new.lost ≡ lost_after self.old.lost given }
        ensures failures { self.new.failures ≡ self.old.failures }
        ensures asked { self.new.asked ≡ self.old.asked }
        ensures ended { self.new.ended ≡ self.old.ended }
    {
        match given {
            Given::Put => {}
            Given::Lost => self.lost = self.lost.saturating_add(1),
        }
    }

    /// Whether it answers another turn. It ends where it has answered as many as can be counted.
    pub(crate) fn goes_on(&mut self) -> bool
        ensures more { MatchBool result ((self.old.asked < 2 ^ 64 - 1)
            × (self.new.ended ≡ self.old.ended)) (self.new.ended ≡ true) }
        ensures failures { self.new.failures ≡ self.old.failures }
        ensures asked { self.new.asked ≡ self.old.asked }
        ensures lost { self.new.lost ≡ self.old.lost }
    {
        if self.asked < u64::MAX {
            return true;
        }
        self.ended = true;
        false
    }

    /// An allocation failed for a turn: that is a failure, or the end where there were as many as can be counted.
    pub(crate) fn fail_or_end(&mut self) -> Result<(), FeedFault>
        ensures ok { OnOk result (self.new.failures ≡ self.old.failures) }
        ensures err { OnErr result (self.new.failures ≡ self.old.failures + 1) }
        ensures ended { OnOk result (self.new.ended ≡ true) }
        ensures goes_on { OnErr result (self.new.ended ≡ self.old.ended) }
        ensures asked { self.new.asked ≡ self.old.asked }
        ensures lost { self.new.lost ≡ self.old.lost }
    {
        self.fail()?;
        self.ended = true;
        Ok(())
    }
}
