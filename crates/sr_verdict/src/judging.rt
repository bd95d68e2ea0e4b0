//! The verdicts on a network, by the figures of its captures.

ghost use Rattle.std.specs.Prelude.{◌≡◌, [], ◌∷◌, ◌++◌, IfOk, OnOk};
ghost use Rattle.sr_verdict.specs.Verdicts.{
  as_list,
  verdicts_on,
  verdicts_where,
  cut_told,
  cut_at,
  cut_mended,
  sided_verdicts,
  loss_by,
  loss_at,
  are_crossed,
  wrong_at,
  misfit_at,
  id_verdicts,
  other_id_verdicts,
  in_prp,
  node_verdicts,
  prp_verdicts,
  has_all_sent,
  fault_verdicts,
  notice_verdicts,
  clock_told,
};
ghost use Rattle.sr_verdict.specs.Told.{why_of, why_told, AreVerdictsOf};

use crate::drops::{note_dropped, settle};
use crate::heard::{Heard, When};
use crate::hearing::{Hearing, single_hearing};
use crate::kinds::{Kind, verdict_on, when_counted};
use crate::limits::{Limits, note_limited, note_skews};
use crate::mending::cut_time;
use crate::nodes::{NodeVerdict, astray_names, node_verdict};
use crate::place::{Place, cut_place};
use crate::shared::{Cut, Share, cut_in, share_by};
use crate::verdict::Verdict;
use crate::why::Why;
use sr_audit::{Side, Sides};
use sr_capture_audit::{Counts, Judgement, Network, Ports, Reason, Report, Sight, Subject};
use sr_frame::NoMemory;
use sr_prp_trailer::Lan;
use sr_sources::Sources;
use std::alloc::{AllocError, Global};

/// How many copies at each side have the id of the other LAN where cables are crossed (choice of this project): one is a stray.
const LEAST_CROSSED: u64 = 3;

/// What is known of captures besides their figures.
#[derive(Clone, Copy, Debug, PartialEq, Eq)]
pub struct Outside {
    /// Why nothing can be judged by the figures. None: they judge.
    pub reason: Option<Reason>,
    /// How far the clock of B was ahead, in nanoseconds, where it was put right.
    pub ahead: Option<i128>,
    /// How many packets the recorders say that they dropped: that of a mirror port at A.
    pub dropped: Sides,
    /// What the user takes for no fault, and what for one.
    pub limits: Limits,
}

/// Takes a verdict.
pub(crate) fn note(verdicts: &mut Vec<Verdict>, verdict: Verdict) -> Result<(), NoMemory>
    ensures { OnOk result (verdicts.new.items ≡ verdicts.old.items ++ verdict ∷ []) }
{
    match verdicts.push(verdict) {
        Ok(()) => Ok(()),
        Err(refused) => Err(AllocError::from(refused).into()),
    }
}

/// Takes a verdict, if there is one.
pub(crate) fn note_one(
    verdicts: &mut Vec<Verdict>,
    verdict: Option<Verdict>,
) -> Result<(), NoMemory>
    ensures { OnOk result (verdicts.new.items ≡ verdicts.old.items ++ as_list verdict) }
{
    if let Some(verdict) = verdict {
        note(verdicts, verdict)?;
    }
    Ok(())
}

/// Takes the verdicts of a kind on sources.
fn note_each(verdicts: &mut Vec<Verdict>, kind: Kind, heard: &[Heard]) -> Result<(), NoMemory>
    ensures { OnOk result (verdicts.new.items ≡ verdicts.old.items ++ verdicts_on kind heard.now) }
{
    for own in heard {
        note_one(verdicts, verdict_on(kind, own))?;
    }
    Ok(())
}

/// Takes the verdicts of a kind on sources, where a test holds.
fn note_where(
    verdicts: &mut Vec<Verdict>,
    holds: bool,
    kind: Kind,
    heard: &[Heard],
) -> Result<(), NoMemory>
    ensures { OnOk result
        (verdicts.new.items ≡ verdicts.old.items ++ verdicts_where holds kind heard.now) }
{
    if holds {
        note_each(verdicts, kind, heard)?;
    }
    Ok(())
}

/// Takes the verdicts of a kind on sources by their frames.
fn note_nodes(
    verdicts: &mut Vec<Verdict>,
    kind: NodeVerdict,
    ports: Ports,
    sources: &Sources,
) -> Result<(), NoMemory>
    ensures { OnOk result (verdicts.new.items
        ≡ verdicts.old.items ++ node_verdicts kind ports sources.now.sources.entries) }
{
    let (end_a, end_b) = (sources.end_at(Lan::A), sources.end_at(Lan::B));
    for (mac, source) in sources.sources() {
        note_one(
            verdicts,
            node_verdict(kind, ports, end_a, end_b, mac, source),
        )?;
    }
    Ok(())
}

/// Takes those of a kind that is told in a PRP network alone.
fn note_prp(
    verdicts: &mut Vec<Verdict>,
    kind: NodeVerdict,
    subject: Subject,
    sources: &Sources,
) -> Result<(), NoMemory>
    ensures { OnOk result (verdicts.new.items
        ≡ verdicts.old.items ++ prp_verdicts kind subject sources.now.sources.entries) }
{
    match subject.network {
        Network::Prp => note_nodes(verdicts, kind, subject.ports, sources),
        Network::Hsr => Ok(()),
    }
}

/// The verdict of a cut at this place, if there is one.
fn cut_told(place: Place, cut: Option<Cut>) -> Option<Verdict>
    ensures { result ≡ cut_told place cut }
{
    match cut {
        Some(cut) => Some(Verdict::CutRing(cut, place)),
        None => None,
    }
}

/// Takes what is told of a cut of a ring.
fn note_cut(verdicts: &mut Vec<Verdict>, when: When, telling: &[Heard]) -> Result<(), NoMemory>
    ensures { OnOk result (verdicts.new.items ≡ verdicts.old.items ++ cut_at when telling.now) }
{
    note_one(
        verdicts,
        cut_told(cut_place(when, telling), cut_in(when, telling)),
    )
}

/// Takes what is told of a cut of a ring that was mended, if there was one at a time.
fn note_mended(
    verdicts: &mut Vec<Verdict>,
    mended: Option<u64>,
    telling: &[Heard],
) -> Result<(), NoMemory>
    ensures { OnOk result
        (verdicts.new.items ≡ verdicts.old.items ++ cut_mended mended telling.now) }
{
    match mended {
        Some(time) => note_cut(verdicts, When::At(time), telling),
        None => Ok(()),
    }
}

/// Takes what is told of sources that are heard by one side alone at last, or were while a ring was cut.
fn note_sided(
    verdicts: &mut Vec<Verdict>,
    network: Network,
    mended: Option<u64>,
    telling: &[Heard],
) -> Result<(), NoMemory>
    ensures { OnOk result
        (verdicts.new.items ≡ verdicts.old.items ++ sided_verdicts network mended telling.now) }
{
    match network {
        Network::Prp => note_each(verdicts, Kind::DeadPort, telling),
        Network::Hsr => {
            note_cut(verdicts, When::AtLast, telling)?;
            note_mended(verdicts, mended, telling)
        }
    }
}

/// The verdict of the frames that a LAN lost, and the other one.
fn loss_by(lan: Side, own: Share, other: Share) -> Option<Verdict>
    ensures { result ≡ loss_by lan own other }
{
    when_counted(own.sources, Verdict::Loss(lan, own, other.frames))
}

/// Takes what is told of the frames that a LAN lost.
fn note_loss(
    verdicts: &mut Vec<Verdict>,
    mended: Option<u64>,
    lan: Side,
    telling: &[Heard],
) -> Result<(), NoMemory>
    ensures { OnOk result
        (verdicts.new.items ≡ verdicts.old.items ++ loss_at mended lan telling.now) }
{
    let own = share_by(mended, lan.other(), telling);
    let other = share_by(mended, lan, telling);
    note_one(verdicts, loss_by(lan, own, other))
}

/// Whether copies at both sides have the id of the other LAN.
fn are_crossed(counts: &Counts) -> bool
    ensures { result ≡ are_crossed counts.now }
{
    counts.a.wrong_lan >= LEAST_CROSSED && counts.b.wrong_lan >= LEAST_CROSSED
}

/// Takes what is told of copies at a side that have the id of the other LAN.
fn note_wrong(
    verdicts: &mut Vec<Verdict>,
    side: Option<Side>,
    copies: u64,
    sources: &Sources,
) -> Result<(), NoMemory>
    ensures { OnOk result (verdicts.new.items
        ≡ verdicts.old.items ++ wrong_at side copies sources.now.sources.entries) }
{
    let names = astray_names(side, sources);
    note_one(
        verdicts,
        when_counted(copies, Verdict::WrongLan(side, copies, names)),
    )
}

/// Takes what is told of frames at a side whose trailer is none.
fn note_misfits(
    verdicts: &mut Vec<Verdict>,
    side: Option<Side>,
    frames: u64,
) -> Result<(), NoMemory>
    ensures { OnOk result (verdicts.new.items ≡ verdicts.old.items ++ misfit_at side frames) }
{
    note_one(
        verdicts,
        when_counted(frames, Verdict::Misfit(side, frames)),
    )
}

/// Takes what is told of the ids of copies at both sides.
fn note_ids(verdicts: &mut Vec<Verdict>, counts: &Counts, sources: &Sources) -> Result<(), NoMemory>
    ensures { OnOk result (verdicts.new.items
        ≡ verdicts.old.items ++ id_verdicts counts.now sources.now.sources.entries) }
{
    let (a, b) = (counts.a.wrong_lan, counts.b.wrong_lan);
    if are_crossed(counts) {
        let names = astray_names(None, sources);
        return note_one(verdicts, Some(Verdict::Crossed(Sides { a, b }, names)));
    }
    note_wrong(verdicts, Some(Side::A), a, sources)?;
    note_wrong(verdicts, Some(Side::B), b, sources)
}

/// Takes what is told of the ids of frames at a mirror port, and of trailers that are none.
fn note_other_ids(
    verdicts: &mut Vec<Verdict>,
    counts: &Counts,
    sources: &Sources,
) -> Result<(), NoMemory>
    ensures { OnOk result (verdicts.new.items
        ≡ verdicts.old.items ++ other_id_verdicts counts.now sources.now.sources.entries) }
{
    note_wrong(verdicts, None, counts.neither.wrong_lan, sources)?;
    note_misfits(verdicts, Some(Side::A), counts.a.misfit)?;
    note_misfits(verdicts, Some(Side::B), counts.b.misfit)?;
    note_misfits(verdicts, None, counts.neither.misfit)
}

/// Whether the captures have all that was sent, but what was lost.
fn has_all_sent(report: &Report) -> bool
    ensures { result ≡ has_all_sent report.now.sight report.now.counters }
{
    report.sight == Sight::All || report.counters.is_none()
}

/// Takes the faults that the figures tell of.
fn note_faults(
    verdicts: &mut Vec<Verdict>,
    report: &Report,
    sources: &Sources,
    hearing: &Hearing,
) -> Result<(), NoMemory>
    ensures { OnOk result (verdicts.new.items ≡ verdicts.old.items
        ++ fault_verdicts report.now sources.now.sources.entries
        hearing.now.own.items hearing.now.telling.items hearing.now.counters.items) }
{
    let Hearing {
        own,
        telling,
        counters,
    } = hearing;
    let subject = report.subject;
    let mended = cut_time(subject.network, telling);
    note_where(verdicts, has_all_sent(report), Kind::BothLost, counters)?;
    note_nodes(verdicts, NodeVerdict::TwoSenders, subject.ports, sources)?;
    note_sided(verdicts, subject.network, mended, telling)?;
    note_ids(verdicts, &report.counts, sources)?;
    note_prp(verdicts, NodeVerdict::LostRedundancy, subject, sources)?;
    note_loss(verdicts, mended, Side::A, telling)?;
    note_loss(verdicts, mended, Side::B, telling)?;
    note_other_ids(verdicts, &report.counts, sources)?;
    note_each(verdicts, Kind::Repeated, own)?;
    note_each(verdicts, Kind::Late, own)
}

/// The verdict of a clock that was put right, if it was.
fn clock_told(ahead: Option<i128>) -> Option<Verdict>
    ensures { result ≡ clock_told ahead }
{
    match ahead {
        Some(ahead) => Some(Verdict::Clock(ahead)),
        None => None,
    }
}

/// Takes the notices that the figures give.
fn note_notices(
    verdicts: &mut Vec<Verdict>,
    report: &Report,
    sources: &Sources,
    ahead: Option<i128>,
    counters: &[Heard],
) -> Result<(), NoMemory>
    ensures { OnOk result (verdicts.new.items ≡ verdicts.old.items
        ++ notice_verdicts report.now sources.now.sources.entries ahead counters.now) }
{
    let (has_all_sent, subject) = (has_all_sent(report), report.subject);
    note_where(verdicts, has_all_sent, Kind::Restart, counters)?;
    note_nodes(verdicts, NodeVerdict::Babbling, subject.ports, sources)?;
    note_where(verdicts, !has_all_sent, Kind::Unseen, counters)?;
    note_prp(verdicts, NodeVerdict::San, subject, sources)?;
    note_one(verdicts, clock_told(ahead))
}

/// Why nothing can be judged.
fn why_told(outside: Option<Reason>, report: &Report) -> Option<Reason>
    ensures { result ≡ why_told outside report.now }
{
    if outside.is_some() {
        return outside;
    }
    match report.summary().judgement {
        Judgement::Unjudged(reason) => Some(reason),
        Judgement::Sound | Judgement::Faulty => None,
    }
}

/// The verdicts on a network, the most severe kind first, and of a kind those on sources in their order: each stands exactly where the
/// figures say so. Where nothing can be judged, that is the only one. A loss that a recorder may have dropped is not told; where no other
/// fault stands, then nothing can be judged. A loss within the limit of the user is a notice.
///
/// # Errors
/// `NoMemory` where an allocation failed.
pub fn verdicts_of(
    alloc: Global,
    report: &Report,
    sources: &Sources,
    outside: Outside,
) -> Result<Vec<Verdict>, NoMemory>
    ensures { IfOk result (λ verdicts.
        AreVerdictsOf report.now sources.now outside verdicts.items) }
{
    let hearing = single_hearing(alloc, report, sources)?;
    let mut verdicts = Vec::new(alloc);
    if let Some(reason) = why_told(outside.reason, report) {
        note(&mut verdicts, Verdict::Unjudged(Why::Figures(reason)))?;
        return Ok(verdicts);
    }
    let (mut faults, limits) = (Vec::new(alloc), outside.limits);
    note_faults(&mut faults, report, sources, &hearing)?;
    note_skews(&mut faults, limits.skew, &hearing.own)?;
    note_limited(&mut verdicts, limits.lost, &faults)?;
    let (ports, dropped) = (report.subject.ports, outside.dropped);
    settle(&mut verdicts, ports, dropped)?;
    note_dropped(&mut verdicts, ports, dropped)?;
    note_notices(
        &mut verdicts,
        report,
        sources,
        outside.ahead,
        &hearing.counters,
    )?;
    Ok(verdicts)
}
