//! A value with its age.
ghost use Rattle.std.specs.Prelude.{◌≡◌};
ghost use Rattle.sr_aged_slots.specs.Ages.{is_recent};

use sr_slots::Ranked;

/// A value, and when its address was last heard, in milliseconds.
#[derive(Clone, Copy, Drop)]
pub struct Aged<V> {
    pub value: V,
    pub time: u64,
}

impl<V> Aged<V> {
    /// Whether the address was heard less than `span` ago. A later time counts as now.
    pub fn is_live(&self, span: u64, now: u64) -> bool
        ensures { result ≡ is_recent span now self.now.time }
    {
        is_recent(span, now, self.time)
    }
}

// By the time of its last hearing.
impl<V> Ranked for Aged<V> {
    ghost rank_of = { λ entry. entry.time };

    fn rank(&self) -> u64 {
        self.time
    }
}

/// Whether a time is less than `span` ago. A later time counts as now.
pub(crate) fn is_recent(span: u64, now: u64, time: u64) -> bool
    ensures { result ≡ is_recent span now time }
{
    now.saturating_sub(time) < span
}
