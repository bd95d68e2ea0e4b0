//! The verdicts on sources by their frames.

ghost use Rattle.std.specs.Prelude.{◌≡◌};
ghost use Rattle.sr_verdict.specs.Verdicts.{has_astray, astray_with, astray_names, side_of_lan, told_lan, two_senders_told, lost_told, babbling_told, san_told, node_verdict, is_doubled};

use crate::names::Names;
use crate::verdict::Verdict;
use sr_audit::Side;
use sr_capture_audit::Ports;
use sr_frame::Mac;
use sr_prp_trailer::Lan;
use sr_sources::{Second, Source, Sources, Tail};

/// A kind of verdicts on sources by their frames.
#[derive(Clone, Copy, Debug, PartialEq, Eq)]
pub(crate) enum NodeVerdict {
    /// Two nodes have its address.
    TwoSenders,
    /// Its frames have no number any more.
    LostRedundancy,
    /// It sends many frames at a time.
    Babbling,
    /// Its frames have no number.
    San,
}

/// The side of a LAN.
fn side_of(lan: Lan) -> Side
    ensures { result ≡ side_of_lan lan }
{
    match lan {
        Lan::A => Side::A,
        Lan::B => Side::B,
    }
}

/// The LAN that is told. None: a mirror port has the frames of both.
fn told_lan(ports: Ports, lan: Lan) -> Option<Side>
    ensures { result ≡ told_lan ports lan }
{
    match ports {
        Ports::Two => Some(side_of(lan)),
        Ports::Mirror => None,
    }
}

/// The verdict of two senders, if there are.
fn two_senders_told(mac: Mac, since: Option<u64>) -> Option<Verdict>
    ensures { result ≡ two_senders_told mac since }
{
    match since {
        Some(since) => Some(Verdict::TwoSenders(mac, since)),
        None => None,
    }
}

/// The verdict of a redundancy that is lost, if it is.
fn lost_told(ports: Ports, mac: Mac, lost: Option<(Lan, Tail)>) -> Option<Verdict>
    ensures { result ≡ lost_told ports mac lost }
{
    match lost {
        Some((lan, tail)) => Some(Verdict::LostRedundancy(mac, told_lan(ports, lan), tail)),
        None => None,
    }
}

/// The verdict of many frames in a second, if there are.
fn babbling_told(mac: Mac, second: Option<Second>) -> Option<Verdict>
    ensures { result ≡ babbling_told mac second }
{
    match second {
        Some(second) => Some(Verdict::Babbling(mac, second)),
        None => None,
    }
}

/// The verdict of a source without redundancy, if it is one.
fn san_told(ports: Ports, mac: Mac, san: Option<(Lan, u64)>) -> Option<Verdict>
    ensures { result ≡ san_told ports mac san }
{
    match san {
        Some((lan, frames)) => Some(Verdict::San(mac, told_lan(ports, lan), frames)),
        None => None,
    }
}

/// The verdict of a kind on a source, if it stands.
pub(crate) fn node_verdict(
    kind: NodeVerdict,
    ports: Ports,
    end_a: u64,
    end_b: u64,
    mac: Mac,
    source: &Source,
) -> Option<Verdict>
    ensures { result ≡ node_verdict kind ports end_a end_b (mac, source.now) }
{
    match kind {
        NodeVerdict::TwoSenders => two_senders_told(mac, source.doubled_since()),
        NodeVerdict::LostRedundancy => lost_told(ports, mac, source.lost_redundancy()),
        NodeVerdict::Babbling => babbling_told(mac, source.babbling(end_a, end_b)),
        NodeVerdict::San => san_told(ports, mac, source.san()),
    }
}

/// Whether the numbers of a source are those of two senders.
pub(crate) fn is_doubled(sources: &Sources, mac: Mac) -> bool
    ensures { result ≡ is_doubled sources.now.sources.entries mac }
{
    match sources.find(mac) {
        Some(source) => source.doubled_since().is_some(),
        None => false,
    }
}

/// Whether copies of a source had the other LAN's id, at a side or at either.
fn has_astray(side: Option<Side>, source: &Source) -> bool
    ensures { result ≡ has_astray side source.now }
{
    match side {
        Some(Side::A) => source.a.astray > 0,
        Some(Side::B) => source.b.astray > 0,
        None => source.a.astray > 0 || source.b.astray > 0,
    }
}

/// The names, with a source more whose copies had the other LAN's id.
fn astray_with(side: Option<Side>, names: Names, mac: Mac, source: &Source) -> Names
    ensures { result ≡ astray_with side names (mac, source.now) }
{
    if has_astray(side, source) {
        names.with(mac)
    } else {
        names
    }
}

/// The sources whose copies had the other LAN's id, at a side or at either.
pub(crate) fn astray_names(side: Option<Side>, sources: &Sources) -> Names
    ensures { result ≡ astray_names side sources.now.sources.entries }
{
    let mut names = Names::NONE;
    for (mac, source) in sources.sources() {
        names = astray_with(side, names, mac, source);
    }
    names
}
