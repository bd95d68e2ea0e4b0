//! What workers wrote down is compared with the journal.

ghost use Rattle.sr_ports.specs.Settling.{IsSettlement};

use crate::rests::Rests;
use crate::{Entry, Log, Worker};

/// How the logs of workers stand to a history.
#[derive(Clone, Copy, Debug, PartialEq, Eq)]
pub enum Settlement {
    /// The log of each worker is its part of the history.
    Settled,
    /// The first worker, in the order A, B, C, Ager, Host, whose log is not.
    Disagrees(Worker),
    /// The first segment, counted from 0, that does not follow the one before.
    Torn(usize),
}

/// Settled exactly where the log of each worker is its part of the journal, and else the first, in the order A, B, C, Ager,
/// Host, whose log is not. Where a worker has no log, it counts as an empty one; two disagree.
pub fn settle(entries: &[Entry], logs: &[Log]) -> Settlement
    ensures { IsSettlement entries.now logs.now result }
{
    let mut rests = Rests::of(logs);
    rests.walk(entries);
    rests.settlement()
}
