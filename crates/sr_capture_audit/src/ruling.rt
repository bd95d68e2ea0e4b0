//! Audits of some frames, or of frames by other sources.

ghost use Rattle.std.specs.Prelude.{◌≡◌, ◌||◌, [], List, ℕ, Option, OnOk, IfOk, IfErr};
ghost use Rattle.sr_audit.specs.declared.side.Side.TheVariants.{A, B};
ghost use Rattle.sr_audit.specs.Edges.{is_beyond};
ghost use Rattle.sr_capture_script.specs.declared.choice.Inlet.TheVariants.{A as AtA, B as AtB, C as AtC};
ghost use Rattle.sr_capture_script.specs.Merging.{feed_of};
ghost use Rattle.sr_capture_script.specs.Passing.{EndsFor};
ghost use Rattle.sr_capture_script.specs.SourceViews.{IsFed};
ghost use Rattle.sr_capture_audit.specs.Ruling.{TakesRuled, IsRuledAuditOf};

use crate::flows::{Flows, flow_name};
use crate::kind::{Kind, Numbered, kind_of};
use crate::network::Subject;
use crate::redboxes::RedBoxes;
use crate::timing::{Timed, pass_after};
use sr_audit::{Arrival, Audit, Side, Spans};
use sr_capture::Packet;
use sr_capture_script::{Captures, Choice, Pass, Place, ScriptFault};
use sr_frame::Mac;
use sr_slots::Keys;
use std::alloc::Global;
use std::io::BufRead;

/// Whether a time is before the beginning of a capture, or behind its end.
fn is_outer(spans: &Spans, time: u64) -> bool
    ensures { result ≡ (is_beyond spans.now A time || is_beyond spans.now B time) }
{
    spans.is_beyond(Side::A, time) || spans.is_beyond(Side::B, time)
}

/// Which frames are audited, and of which source each is.
#[derive(Drop)]
pub enum Rule {
    /// Frames to single addresses, each of the flow that it belongs to.
    ByFlow,
    /// Frames to groups, and those of flows that both captures see, of their sources. These alone tell what was lost: a frame to a single
    /// address goes past one recorder alone, or past none, where it takes no way to the other one.
    Judged(Flows),
    /// All frames, each of the source whose counter numbered it.
    Counters(RedBoxes),
    /// Frames that came while both captures ran, each of the source whose counter numbered it: in a ring one to a single address goes past
    /// on one way, whose recorder may not have run.
    InnerCounters(RedBoxes),
}

impl Rule {
    ghost use Rattle.std.specs.Prelude.{◌≡◌};
    ghost use Rattle.sr_capture_audit.specs.Ruling.{source_under};

    /// The source of a frame. None: it is not audited.
    fn source_of(&self, spans: &Spans, numbered: Numbered, time: u64) -> Option<Mac>
        ensures { result ≡ source_under self.now spans.now numbered time }
    {
        match self {
            Rule::ByFlow if numbered.to_group => None,
            Rule::ByFlow => Some(flow_name(numbered.src, numbered.dst)),
            Rule::Judged(flows) if flows.judges(numbered) => Some(numbered.src),
            Rule::Judged(_) => None,
            Rule::Counters(redboxes) => Some(redboxes.counter_of(numbered.src)),
            Rule::InnerCounters(_) if is_outer(spans, time) => None,
            Rule::InnerCounters(redboxes) => Some(redboxes.counter_of(numbered.src)),
        }
    }
}

/// An audit under a rule, of captures whose spans are known.
#[derive(Drop)]
pub struct Ruling {
    subject: Subject,
    rule: Rule,
    spans: Spans,
    /// The figures.
    pub audit: Audit,
}

/// Has an audit take a packet, if it is a frame with a number that is audited.
fn note_ruled(
    audit: &mut Audit,
    rule: &Rule,
    spans: &Spans,
    kind: Kind,
    time: u64,
) -> Result<(), ScriptFault>
    ensures taken { OnOk result (TakesRuled rule.now spans.now kind time audit.old audit.new) }
    ensures refused { IfErr result (λ fault. fault ≡ ScriptFault.NoMemory) }
{
    let Kind::Numbered(numbered) = kind else {
        return Ok(());
    };
    let Some(src) = rule.source_of(spans, numbered, time) else {
        return Ok(());
    };
    let arrival = Arrival {
        side: numbered.side,
        seq: numbered.seq,
        time,
    };
    audit.note(src, arrival)?;
    Ok(())
}

impl Ruling {
    ghost use Rattle.std.specs.Prelude.{◌≡◌, [], OnOk, IfErr};
    ghost use Rattle.sr_capture_audit.specs.Gathering.{IsRulingOf, TakesOwn};

    /// No packet came.
    pub(crate) fn new(
        alloc: Global,
        keys: Keys,
        subject: Subject,
        spans: Spans,
        rule: Rule,
    ) -> Ruling
        ensures { IsRulingOf rule subject spans [] result }
    {
        Ruling {
            subject,
            rule,
            spans,
            audit: Audit::new(alloc, keys, spans),
        }
    }

    /// Takes a packet, if it is a frame with a number that is audited.
    pub(crate) fn note(&mut self, kind: Kind, time: u64) -> Result<(), ScriptFault>
        ensures taken { OnOk result (TakesOwn kind time self.old self.new) }
        ensures refused { IfErr result (λ fault. fault ≡ ScriptFault.NoMemory) }
    {
        note_ruled(&mut self.audit, &self.rule, &self.spans, kind, time)
    }
}

impl Pass for Ruling {
    ghost use Rattle.std.specs.Prelude.{◌≡◌};
    ghost use Rattle.sr_capture_script.specs.declared.fault.ScriptFault.TheVariants.{NoMemory as OutOfMemory};
    ghost use Rattle.sr_capture_audit.specs.Ruling.{RulesMore};

    ghost takes = { λ old x new. RulesMore x old new };

    ghost refuses = { λ fault. fault ≡ OutOfMemory };

    fn take(&mut self, place: Place, packet: &Packet) -> Result<(), ScriptFault> {
        let Some(tap) = self.subject.tap_at(place.inlet) else {
            return Ok(());
        };
        let kind = kind_of(self.subject.network, tap, packet);
        note_ruled(&mut self.audit, &self.rule, &self.spans, kind, place.time)
    }
}

/// The figures under a rule, of captures whose spans are known.
///
/// # Errors
/// The fault of a file, `NoMemory` or `Endless`.
pub fn ruled_of<R: BufRead + Drop>(
    alloc: Global,
    keys: Keys,
    captures: &mut Captures<R>,
    choice: &Choice,
    subject: Subject,
    spans: Spans,
    rule: Rule,
) -> Result<Audit, ScriptFault>
    ensures audits { IfOk result (λ audit. (start_a start_b start_c : Option (List ℕ))
        → IsFed R.remaining AtA start_a captures.old.a []
        → IsFed R.remaining AtB start_b captures.old.b []
        → IsFed R.remaining AtC start_c captures.old.c []
        → IsRuledAuditOf rule choice.now subject spans (feed_of captures.old.a start_a)
        (feed_of captures.old.b start_b) (feed_of captures.old.c start_c) audit) }

    // What ends it early is a fault of a file, behind all of its packets that came, more packets than are counted, or memory.
    ensures ends { IfErr result (λ fault. (start_a start_b start_c : Option (List ℕ))
        → IsFed R.remaining AtA start_a captures.old.a []
        → IsFed R.remaining AtB start_b captures.old.b []
        → IsFed R.remaining AtC start_c captures.old.c []
        → EndsFor (λ own. own ≡ ScriptFault.NoMemory) (feed_of captures.old.a start_a)
        (feed_of captures.old.b start_b) (feed_of captures.old.c start_c) fault) }
{
    let timed = Timed {
        clock: subject.clock,
        pass: Ruling::new(alloc, keys, subject, spans, rule),
    };
    let ruling = pass_after(captures, choice, timed)?;
    Ok(ruling.audit)
}
