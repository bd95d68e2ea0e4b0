//! Counts of a source since the start, and how they changed since the last report.

ghost use Rattle.std.specs.Prelude.{◌≡◌};
ghost use Rattle.sr_watch.specs.Changed.{change, side_changes, changes_between, none_counted};
ghost use Rattle.sr_watch.specs.Forgetting.{sides_with, forgot_with};
ghost use Rattle.sr_watch.specs.Counted.{called_lost, counts_from};

use sr_audit::{Figures, Sides, Skews};

/// What is counted of a source since the start, up to a mark. Counts stay at 2^64 - 1.
#[derive(Clone, Copy, Debug, PartialEq, Eq)]
pub struct Counts {
    /// Copies that came by a LAN.
    pub rx: Sides,
    /// Frames of which a copy came by both LANs, the second less than 400 ms behind the first.
    pub both: u64,
    /// Frames that a LAN lost: no copy came by it within 400 ms of the first copy by the other LAN.
    pub lost: Sides,
    /// Of the frames that a LAN lost, those of which a copy came by it later.
    pub late: Sides,
    /// Copies behind an earlier one of their frame by the same LAN.
    pub repeats: Sides,
    /// First copies behind a greater number of their LAN.
    pub order: Sides,
    /// Numbers of stretches that no frame had.
    pub neither: u64,
    /// Stretches that begin with a number more than 1023 ahead, of a source that was not silent.
    pub jumps: u64,
    /// Stretches that begin behind a silence of 400 ms with a number that does not lie 1 to 1023 ahead.
    pub restarts: u64,
    /// How far apart the copies of frames came, in nanoseconds, those that were late among them: positive where A was first.
    pub skews: Skews,
}

/// How a count of each LAN changed.
#[derive(Clone, Copy, Debug, PartialEq, Eq)]
pub struct SideChanges {
    /// That of LAN A.
    pub a: i128,
    /// That of LAN B.
    pub b: i128,
}

/// The least and the greatest skew of some frames, in nanoseconds: positive where A was first.
#[derive(Clone, Copy, Debug, PartialEq, Eq)]
pub struct Spread {
    /// The least.
    pub least: i128,
    /// The greatest.
    pub greatest: i128,
}

/// How the counts of a source changed since the last report that told of it. All are 0 or more, but for `neither`, which falls where a
/// number comes after all, and for `skew_sum`.
#[derive(Clone, Copy, Debug, PartialEq, Eq)]
pub struct Changes {
    /// Of the copies.
    pub rx: SideChanges,
    /// Of the frames that came by both LANs in time.
    pub both: i128,
    /// Of the frames that a LAN lost.
    pub lost: SideChanges,
    /// Of the copies that came late.
    pub late: SideChanges,
    /// Of the repeats.
    pub repeats: SideChanges,
    /// Of the copies out of order.
    pub order: SideChanges,
    /// Of the numbers that no frame had. It may be negative.
    pub neither: i128,
    /// Of the jumps.
    pub jumps: i128,
    /// Of the restarts.
    pub restarts: i128,
    /// Of the frames that came by both LANs, in time or not: of so many skews is `skew_sum` the sum.
    pub pairs: i128,
    /// Of the sum of the skews, in nanoseconds.
    pub skew_sum: i128,
}

impl Changes {
    /// Nothing changed.
    pub const NONE: Changes = Changes {
        rx: SideChanges::NONE,
        both: 0,
        lost: SideChanges::NONE,
        late: SideChanges::NONE,
        repeats: SideChanges::NONE,
        order: SideChanges::NONE,
        neither: 0,
        jumps: 0,
        restarts: 0,
        pairs: 0,
        skew_sum: 0,
    };
}

impl SideChanges {
    /// Neither changed.
    pub const NONE: SideChanges = SideChanges { a: 0, b: 0 };
}

/// What was not told of a count.
fn change(told: u64, all: u64) -> i128
    ensures { result ≡ change told all }
{
    i128::from(all) - i128::from(told)
}

/// What was not told of the counts of both LANs.
fn side_changes(told: Sides, all: Sides) -> SideChanges
    ensures { result ≡ side_changes told all }
{
    SideChanges {
        a: change(told.a, all.a),
        b: change(told.b, all.b),
    }
}

/// The frames that a LAN lost: those that came by the other one alone or late by this one, but for those that wait.
fn called_lost(alone: u64, late: u64, waits: u64) -> u64
    ensures { result ≡ called_lost alone late waits }
{
    alone.saturating_add(late).saturating_sub(waits)
}

impl Counts {
    /// Nothing was counted.
    pub const NONE: Counts = Counts {
        rx: Sides::NONE,
        both: 0,
        lost: Sides::NONE,
        late: Sides::NONE,
        repeats: Sides::NONE,
        order: Sides::NONE,
        neither: 0,
        jumps: 0,
        restarts: 0,
        skews: Skews::NONE,
    };

    /// What is counted, by the figures of an audit, the copies that came late and the frames that wait.
    pub(crate) fn of(f: Figures, late: Sides, waits: Sides) -> Counts
        ensures { result ≡ counts_from f late waits }
    {
        Counts {
            rx: f.tally.rx,
            both: f.tally.pairs.saturating_sub(late.a).saturating_sub(late.b),
            lost: Sides {
                a: called_lost(f.tally.alone.b, late.a, waits.b),
                b: called_lost(f.tally.alone.a, late.b, waits.a),
            },
            late,
            repeats: f.tally.repeats,
            order: f.order,
            neither: f.neither,
            jumps: f.jumps,
            restarts: f.restarts,
            skews: f.skews,
        }
    }

    /// What was not told of them.
    pub(crate) fn since(&self, told: &Counts) -> Changes
        ensures { result ≡ changes_between told.now self.now }
    {
        Changes {
            rx: side_changes(told.rx, self.rx),
            both: change(told.both, self.both),
            lost: side_changes(told.lost, self.lost),
            late: side_changes(told.late, self.late),
            repeats: side_changes(told.repeats, self.repeats),
            order: side_changes(told.order, self.order),
            neither: change(told.neither, self.neither),
            jumps: change(told.jumps, self.jumps),
            restarts: change(told.restarts, self.restarts),
            pairs: change(told.skews.count, self.skews.count),
            skew_sum: self.skews.sum.saturating_sub(told.skews.sum),
        }
    }
}

/// What was counted of the sources that were forgotten, together. Counts stay at 2^64 - 1.
#[derive(Clone, Copy, Debug, PartialEq, Eq)]
pub struct Forgotten {
    /// How many sources there were.
    pub sources: u64,
    /// Copies that came by a LAN.
    pub rx: Sides,
    /// Frames of both LANs, in time.
    pub both: u64,
    /// Frames that a LAN lost.
    pub lost: Sides,
    /// Those of which a copy came later.
    pub late: Sides,
    /// Copies behind an earlier one of their frame by the same LAN.
    pub repeats: Sides,
    /// First copies behind a greater number of their LAN.
    pub order: Sides,
    /// Numbers that no frame had.
    pub neither: u64,
    /// Stretches that begin with a jump.
    pub jumps: u64,
    /// Stretches that begin behind a silence.
    pub restarts: u64,
}

/// Counts of both LANs together with others.
fn sides_with(sides: Sides, others: Sides) -> Sides
    ensures { result ≡ sides_with sides others }
{
    Sides {
        a: sides.a.saturating_add(others.a),
        b: sides.b.saturating_add(others.b),
    }
}

impl Forgotten {
    /// None was forgotten.
    pub const NONE: Forgotten = Forgotten {
        sources: 0,
        rx: Sides::NONE,
        both: 0,
        lost: Sides::NONE,
        late: Sides::NONE,
        repeats: Sides::NONE,
        order: Sides::NONE,
        neither: 0,
        jumps: 0,
        restarts: 0,
    };

    /// With a source of which so much was told.
    pub(crate) fn with(self, told: &Counts) -> Forgotten
        ensures { result ≡ forgot_with told.now self }
    {
        Forgotten {
            sources: self.sources.saturating_add(1),
            rx: sides_with(self.rx, told.rx),
            both: self.both.saturating_add(told.both),
            lost: sides_with(self.lost, told.lost),
            late: sides_with(self.late, told.late),
            repeats: sides_with(self.repeats, told.repeats),
            order: sides_with(self.order, told.order),
            neither: self.neither.saturating_add(told.neither),
            jumps: self.jumps.saturating_add(told.jumps),
            restarts: self.restarts.saturating_add(told.restarts),
        }
    }
}
