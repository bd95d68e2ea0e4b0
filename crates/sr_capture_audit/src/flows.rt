//! Flows: the frames of one source to one single address, and which flows both captures see.

ghost use Rattle.std.specs.Prelude.{◌≡◌, ℕ, OnOk, IfOk, IfErr, fold};
ghost use Rattle.std.specs.List.{list_any};
ghost use Rattle.sr_audit.specs.Shown.{figures_of, frames_in};
ghost use Rattle.sr_capture_audit.specs.Flows.{flow_name, flow_end, lone_frames, is_paired, is_unpaired, is_single, with_name, paired_in, ends_in, AreFlowsIn, lacks_many, shows_part, sight_of, judges_all};

use crate::figures::shows_lost;
use crate::kind::Numbered;
use crate::network::Network;
use sr_audit::{Audit, Figures, Tally};
use sr_capture_script::ScriptFault;
use sr_frame::Mac;
use sr_slots::{Keys, Ranked, Slots};
use std::alloc::Global;

/// How many pairs a flow has at least that both captures see.
const LEAST_PAIRED: u64 = 18;

/// How many of its frames are in pairs, for each one that came by one side alone.
const PAIRS_FOR_ONE: u64 = 9;

/// How many frames a flow has at least of which it is told that one capture does not see it.
const LEAST_LONG: u64 = 20;

/// To how many addresses flows lead at least that two mirrors see.
const LEAST_ENDS: usize = 3;

/// How many numbers of a counter never came at least, where captures have but part of what was sent.
const LEAST_LACKED: u64 = 20;

/// How many frames came at most, for each number that never did.
const FRAMES_FOR_ONE: u64 = 8;

/// Where a flow leads: the last three octets of its destination.
#[derive(Clone, Copy, Drop)]
struct End(Mac);

impl Ranked for End {
    ghost rank_of = { λ e. 0 };

    // None goes.
    fn rank(&self) -> u64 {
        0
    }
}

/// Which flows both captures see, of up to 1024.
#[derive(Drop)]
pub struct Flows {
    /// Those that both see, by their names.
    paired: Slots<End>,
    /// Whether both recorders are mirrors, which see all flows.
    are_mirrors: bool,
    /// Whether frames of other flows came by one side alone.
    has_single: bool,
}

/// Which of the frames that were sent the captures have.
#[derive(Clone, Copy, Debug, PartialEq, Eq)]
pub enum Sight {
    /// All, but those that were lost.
    All,
    /// Part of them: some went past no recorder.
    Part,
}

/// The name of a flow: the last three octets of both its addresses.
pub(crate) fn flow_name(src: Mac, dst: Mac) -> Mac
    ensures { result ≡ flow_name src dst }
{
    let (src, dst) = (src.0, dst.0);
    Mac([src[3], src[4], src[5], dst[3], dst[4], dst[5]])
}

/// Where a flow of a name leads.
fn flow_end(name: Mac) -> Mac
    ensures { result ≡ flow_end name }
{
    let name = name.0;
    Mac([0, 0, 0, name[3], name[4], name[5]])
}

/// How many frames came by one side alone while the capture of the other side ran.
fn lone_frames(figures: &Figures) -> u64
    ensures { result ≡ lone_frames figures.now }
{
    let only = figures.only();
    only.a.saturating_add(only.b)
}

/// Whether both captures see a flow.
fn is_paired(figures: &Figures) -> bool
    ensures { result ≡ is_paired figures.now }
{
    let pairs = figures.tally.pairs;
    pairs >= LEAST_PAIRED && lone_frames(figures) <= pairs / PAIRS_FOR_ONE
}

/// Whether one capture does not see it, of a flow that has many frames.
fn is_unpaired(figures: &Figures) -> bool
    ensures { result ≡ is_unpaired figures.now }
{
    let frames = figures.tally.pairs.saturating_add(lone_frames(figures));
    !is_paired(figures) && frames >= LEAST_LONG
}

/// Whether frames of a flow came by one side alone, of which it is not known that both captures see it.
fn is_single(figures: &Figures) -> bool
    ensures { result ≡ is_single figures.now }
{
    !is_paired(figures) && shows_lost(figures)
}

/// Whether one capture does not see some flow that has many frames.
fn have_unpaired(audit: &Audit) -> bool
    ensures { result ≡ list_any (λ e. is_unpaired (figures_of e.1)) audit.now.sources.entries }
{
    for (_, source) in audit.sources() {
        if is_unpaired(&source.figures()) {
            return true;
        }
    }
    false
}

/// Whether frames of some flow came by one side alone.
fn have_single(audit: &Audit) -> bool
    ensures { result ≡ list_any (λ e. is_single (figures_of e.1)) audit.now.sources.entries }
{
    for (_, source) in audit.sources() {
        if is_single(&source.figures()) {
            return true;
        }
    }
    false
}

/// Takes a name into a table, unless it is there.
fn note(names: &mut Slots<End>, name: Mac, end: Mac) -> Result<(), ScriptFault>
    ensures taken { OnOk result (names.new.entries ≡ with_name names.old.entries (name, end)) }
    ensures refused { IfErr result (λ fault. fault ≡ ScriptFault.NoMemory) }
{
    if names.get(name).is_some() {
        return Ok(());
    }
    names.append(name, End(end))?;
    Ok(())
}

/// Takes the flows that both captures see.
fn note_paired(names: &mut Slots<End>, audit: &Audit) -> Result<(), ScriptFault>
    ensures taken { OnOk result (names.new.entries
        ≡ fold with_name names.old.entries (paired_in audit.now.sources.entries)) }
    ensures refused { IfErr result (λ fault. fault ≡ ScriptFault.NoMemory) }
{
    for (name, source) in audit.sources() {
        if is_paired(&source.figures()) {
            note(names, name, flow_end(name))?;
        }
    }
    Ok(())
}

/// Takes where they lead.
fn note_ends(names: &mut Slots<End>, audit: &Audit) -> Result<(), ScriptFault>
    ensures taken { OnOk result (names.new.entries
        ≡ fold with_name names.old.entries (ends_in audit.now.sources.entries)) }
    ensures refused { IfErr result (λ fault. fault ≡ ScriptFault.NoMemory) }
{
    for (name, source) in audit.sources() {
        if is_paired(&source.figures()) {
            note(names, flow_end(name), flow_end(name))?;
        }
    }
    Ok(())
}

/// How many frames came, by whichever side.
fn frames_in(tally: Tally) -> u64
    ensures { result ≡ frames_in tally }
{
    tally
        .pairs
        .saturating_add(tally.alone.a)
        .saturating_add(tally.alone.b)
}

/// Whether 20 numbers or more of a counter never came, and more than one for eight frames that did.
fn lacks_many(figures: &Figures) -> bool
    ensures { result ≡ lacks_many figures.now }
{
    figures.neither >= LEAST_LACKED && frames_in(figures.tally) / FRAMES_FOR_ONE < figures.neither
}

/// Whether many numbers of some counter never came.
fn have_lacking(counters: &Audit) -> bool
    ensures { result
        ≡ list_any (λ e. lacks_many (figures_of e.1)) counters.now.sources.entries }
{
    for (_, source) in counters.sources() {
        if lacks_many(&source.figures()) {
            return true;
        }
    }
    false
}

/// What an audit of frames by flow tells of the flows.
///
/// # Errors
/// `NoMemory` where an allocation failed.
pub fn flows_in(alloc: Global, keys: Keys, audit: &Audit) -> Result<Flows, ScriptFault>
    ensures flows { IfOk result (λ flows. AreFlowsIn audit.now.sources.entries flows) }
    ensures refused { IfErr result (λ fault. fault ≡ ScriptFault.NoMemory) }
{
    let mut ends = Slots::with_keys(alloc, keys);
    note_ends(&mut ends, audit)?;
    let are_mirrors = ends.len() >= LEAST_ENDS && !have_unpaired(audit);
    let mut paired = Slots::with_keys(alloc, keys);
    note_paired(&mut paired, audit)?;
    Ok(Flows {
        paired,
        are_mirrors,
        has_single: !are_mirrors && have_single(audit),
    })
}

impl Flows {
    ghost use Rattle.std.specs.Prelude.{◌≡◌, []};
    ghost use Rattle.sr_capture_audit.specs.Flows.{AreFlowsIn, judges, shows_part};

    /// No flow.
    pub fn none(alloc: Global, keys: Keys) -> Flows
        ensures { AreFlowsIn [] result }
    {
        Flows {
            paired: Slots::with_keys(alloc, keys),
            are_mirrors: false,
            has_single: false,
        }
    }

    /// Whether a frame tells of losses: it was sent to a group, or both recorders are mirrors, or both captures see its flow.
    pub(crate) fn judges(&self, numbered: Numbered) -> bool
        ensures { result ≡ judges self.now numbered }
    {
        numbered.to_group
            || self.are_mirrors
            || self
                .paired
                .get(flow_name(numbered.src, numbered.dst))
                .is_some()
    }

    /// Whether the flows of a network show that the captures have but part of what was sent.
    fn show_part(&self, network: Network) -> bool
        ensures { result ≡ shows_part network self.now }
    {
        match network {
            Network::Prp => self.has_single,
            Network::Hsr => false,
        }
    }
}

/// Whether all frames tell of losses: both recorders are mirrors, or no frame was sent to a single address, as an audit by flow tells. Then
/// an audit of the frames that do is one of all frames.
pub fn judges_all(flows: &Flows, by_flow: &Audit) -> bool
    ensures { result ≡ judges_all flows.now by_flow.now }
{
    flows.are_mirrors || by_flow.len() == 0
}

/// Whether captures have all that was sent, but what was lost, or a part.
pub fn sight_of(network: Network, flows: &Flows, counters: &Audit) -> Sight
    ensures { result ≡ sight_of network flows.now counters.now }
{
    if flows.show_part(network) || have_lacking(counters) {
        Sight::Part
    } else {
        Sight::All
    }
}
