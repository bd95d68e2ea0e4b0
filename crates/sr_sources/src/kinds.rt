//! What is told of a source by what is kept of it.

ghost use Rattle.std.specs.Prelude.{◌≡◌};
ghost use Rattle.sr_sources.specs.Kinds.{turned_since, has_lost, lost_at, is_bare_in, san_at, life_from, seconds_between, is_quiet, babbling_at, is_busy_at, last_in, kind_by_life};

use crate::lane::{Lane, Tail};
use crate::rates::{SECOND, Second, second_of};
use crate::senders::Turns;
use crate::source::Source;
use sr_frame::Mac;
use sr_prp_trailer::Lan;
use sr_supervision::Life;

/// So many frames tell something (choice of this project): one is a stray, and two may be.
const LEAST_TOLD: u64 = 3;

/// A source that is heard for fewer seconds, and is then silent for more than one, is judged by the whole recording (choice of this project).
const SHORT_LIFE: u64 = 5;

/// What kind of node a source is.
#[derive(Clone, Copy, Debug, PartialEq, Eq)]
pub enum NodeKind {
    /// A node at both LANs of a PRP network.
    Danp,
    /// A node in an HSR ring.
    Danh,
    /// A RedBox.
    RedBox,
    /// A node behind this RedBox.
    BehindRedBox(Mac),
    /// A node without redundancy: none of its frames has a number.
    San,
    /// Supervision does not tell.
    Untold,
}

/// Since when numbers go to and fro between two runs, if they do.
fn turned_since(turns: Turns) -> Option<u64>
    ensures { result ≡ turned_since turns }
{
    if LEAST_TOLD <= turns.back && turns.elsewhere < turns.back {
        turns.since
    } else {
        None
    }
}

/// Whether frames with numbers came, and behind them some without, as none before.
fn has_lost(lane: &Lane) -> bool
    ensures { result ≡ has_lost lane.now }
{
    lane.bare < lane.frames && lane.tail.frames == lane.bare && LEAST_TOLD <= lane.bare
}

/// The frames without a number behind all others, if there are such.
fn lost_at(lan: Lan, lane: &Lane) -> Option<(Lan, Tail)>
    ensures { result ≡ lost_at lan lane.now }
{
    if has_lost(lane) {
        Some((lan, lane.tail))
    } else {
        None
    }
}

/// Whether frames without a number came by one LAN alone.
fn is_bare_in(own: &Lane, other: &Lane) -> bool
    ensures { result ≡ is_bare_in own.now other.now }
{
    LEAST_TOLD <= own.frames && own.bare == own.frames && other.frames == 0
}

/// The LAN by which alone frames without a number came, and how many, if that is so.
fn san_at(lan: Lan, own: &Lane, other: &Lane) -> Option<(Lan, u64)>
    ensures { result ≡ san_at lan own.now other.now }
{
    if is_bare_in(own, other) {
        Some((lan, own.frames))
    } else {
        None
    }
}

/// How many whole seconds a source is judged over: those from its first frame to its last, and of a short life those of the recording.
fn seconds_between(end: u64, first: u64, last: u64) -> u64
    ensures { result ≡ seconds_between end first last }
{
    let own = second_of(last).saturating_sub(second_of(first)) + 1;
    if own < SHORT_LIFE && end.saturating_sub(last) > SECOND {
        second_of(end) + 1
    } else {
        own
    }
}

/// How many whole seconds a source is judged over that has a first frame and a last one.
fn life_from(end: u64, first: Option<u64>, last: Option<u64>) -> u64
    ensures { result ≡ life_from end first last }
{
    match (first, last) {
        (Some(first), Some(last)) => seconds_between(end, first, last),
        _ => 0,
    }
}

/// Whether few frames came in half of these seconds or more.
fn is_quiet(end: u64, lane: &Lane) -> bool
    ensures { result ≡ is_quiet end lane.now }
{
    lane.rates.busy <= life_from(end, lane.first, lane.rates.last) / 2
}

/// The most frames in a second, and since when they are many, if a source babbles in a LAN.
fn babbling_at(end: u64, lane: &Lane) -> Option<Second>
    ensures { result ≡ babbling_at end lane.now }
{
    match lane.rates.loud {
        Some(since) if is_quiet(end, lane) => Some(Second {
            frames: lane.rates.fullest.frames,
            since,
        }),
        _ => None,
    }
}

/// Whether a source has many frames in a LAN all the time.
fn is_busy_at(end: u64, lane: &Lane) -> bool
    ensures { result ≡ is_busy_at end lane.now }
{
    match lane.rates.loud {
        Some(_) => !is_quiet(end, lane),
        None => false,
    }
}

/// What kind of node a source is by how it announced itself.
fn kind_by_life(life: Option<Life>, source: &Source) -> NodeKind
    ensures { result ≡ kind_by_life life source.now }
{
    match life {
        Some(Life::Hsr) => NodeKind::Danh,
        Some(Life::PrpDiscard) | Some(Life::PrpAccept) => NodeKind::Danp,
        Some(Life::Announce) => NodeKind::Untold,
        None => {
            if source.a.bare == source.a.frames && source.b.bare == source.b.frames {
                NodeKind::San
            } else {
                NodeKind::Untold
            }
        }
    }
}

/// When the last frame of a source came in a LAN.
pub(crate) fn last_in(lan: Lan, source: &Source) -> Option<u64>
    ensures { result ≡ last_in lan source.now }
{
    match lan {
        Lan::A => source.a.rates.last,
        Lan::B => source.b.rates.last,
    }
}

impl Source {
    ghost use Rattle.std.specs.Prelude.{◌≡◌};
    ghost use Rattle.sr_sources.specs.Kinds.{doubled_since, lost_redundancy, san_of, babbling, node_kind};

    /// Since when its numbers are those of two senders, in nanoseconds. None: they are of one.
    pub fn doubled_since(&self) -> Option<u64>
        ensures { result ≡ doubled_since self.now }
    {
        match turned_since(self.a.turns) {
            Some(since) => Some(since),
            None => turned_since(self.b.turns),
        }
    }

    /// The LAN in which it lost its redundancy, and its frames since then. None: it did not.
    pub fn lost_redundancy(&self) -> Option<(Lan, Tail)>
        ensures { result ≡ lost_redundancy self.now }
    {
        match lost_at(Lan::A, &self.a) {
            Some(lost) => Some(lost),
            None => lost_at(Lan::B, &self.b),
        }
    }

    /// The LAN by which alone it is heard without numbers, and how many frames of it. None: it is no such source.
    pub fn san(&self) -> Option<(Lan, u64)>
        ensures { result ≡ san_of self.now }
    {
        match san_at(Lan::A, &self.a, &self.b) {
            Some(san) => Some(san),
            None => san_at(Lan::B, &self.b, &self.a),
        }
    }

    /// The most frames of it in a whole second, and since when they are many, where it babbles. The recordings end at these times. Where
    /// one LAN has many of it all the time, it does not, whatever the other one lost.
    pub fn babbling(&self, end_a: u64, end_b: u64) -> Option<Second>
        ensures { result ≡ babbling end_a end_b self.now }
    {
        if is_busy_at(end_a, &self.a) || is_busy_at(end_b, &self.b) {
            return None;
        }
        match babbling_at(end_a, &self.a) {
            Some(second) => Some(second),
            None => babbling_at(end_b, &self.b),
        }
    }

    /// What kind of node it is.
    pub fn kind(&self) -> NodeKind
        ensures { result ≡ node_kind self.now }
    {
        if self.is_redbox {
            return NodeKind::RedBox;
        }
        match self.redbox {
            Some(redbox) => NodeKind::BehindRedBox(redbox),
            None => kind_by_life(self.life, self),
        }
    }
}
