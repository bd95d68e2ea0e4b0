//! How alarms are numbered, so that one who asks again and again is told of each once.

ghost use Rattle.std.specs.Prelude.{◌≡◌};
ghost use Rattle.sr_endpoint.specs.AlarmLogs.{after_look, first_kept_number, from_first, kept_from, missed_from, no_alarms, still_kept};

use sr_node_table::Alarm;
use std::alloc::Global;
use std::marker::Model;

/// What is known of the alarms of a node: how many were counted, and which were kept when they were last looked at.
#[derive(Drop)]
pub struct AlarmLog {
    raised: u64,
    kept: Vec<Alarm>,
}

impl Model for AlarmLog {
    ghost use Rattle.sr_endpoint.specs.AlarmLogs.{Log};

    ghost Value = { Log };

    ghost view = { λ l. record { raised = l.raised; kept = l.kept.items } };
}

/// How many alarms there are from this one on.
fn from_first(first: &Alarm, old: &[Alarm]) -> usize
    ensures { result ≡ from_first first.now old.now }
{
    let mut rest = old;
    while let Some((alarm, behind)) = rest.split_first() {
        if alarm == first {
            return rest.len();
        }
        rest = behind;
    }
    0
}

/// How many of the alarms that were kept before are still kept.
fn still_kept(old: &[Alarm], new: &[Alarm]) -> usize
    ensures { result ≡ still_kept old.now new.now }
{
    match new.split_first() {
        Some((first, _)) => from_first(first, old),
        None => 0,
    }
}

impl AlarmLog {
    /// No alarm was counted yet.
    pub(crate) fn new(alloc: Global) -> AlarmLog
        ensures { result ≡ no_alarms }
    {
        AlarmLog {
            raised: 0,
            kept: Vec::new(alloc),
        }
    }

    /// Counts those of the alarms that are kept now which were not kept before.
    pub(crate) fn look(&mut self, alarms: Vec<Alarm>)
        ensures { self.new ≡ after_look self.old alarms.items }
    {
        let known = still_kept(&self.kept, &alarms);
        let more = alarms.len().saturating_sub(known);
        self.raised = self.raised.saturating_add(more as u64);
        self.kept = alarms;
    }

    // The number of the first alarm that is kept.
    fn first_kept_number(&self) -> u64
        ensures { result ≡ first_kept_number self.now }
    {
        self.raised.saturating_sub(self.kept.len() as u64)
    }

    /// The alarms from this number on that were kept at the last look, the oldest first.
    pub fn kept_from(&self, number: u64) -> &[Alarm]
        ensures { result.now ≡ kept_from self.now number }
    {
        let skipped = number.saturating_sub(self.first_kept_number()) as usize;
        let (_, rest) = self.kept.split_at(skipped.min(self.kept.len()));
        rest
    }

    /// How many alarms from this number on were not kept any more at the last look.
    pub fn missed_from(&self, number: u64) -> u64
        ensures { result ≡ missed_from self.now number }
    {
        self.first_kept_number().saturating_sub(number)
    }
}
