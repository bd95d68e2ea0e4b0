//! What one reading of captures gathers: their figures, the RedBoxes that supervision names, and audits under rules.

ghost use Rattle.std.specs.Prelude.{◌≡◌, ◌++◌, [], List, ℕ, Option, OnOk, IfOk, IfErr};
ghost use Rattle.sr_audit.specs.Audits.{Sent, Audits, IsLeftOut};
ghost use Rattle.sr_audit.specs.Hearing.{Reported, Hears};
ghost use Rattle.sr_capture_script.specs.declared.choice.Inlet.TheVariants.{A as AtA, B as AtB, C as AtC};
ghost use Rattle.sr_capture_script.specs.Merging.{feed_of};
ghost use Rattle.sr_capture_script.specs.Passing.{EndsFor};
ghost use Rattle.sr_capture_script.specs.SourceViews.{IsFed};
ghost use Rattle.sr_capture_audit.specs.Auditing.{sign_with, TakesKind, IsAuditOf};
ghost use Rattle.sr_capture_audit.specs.Gathering.{AreRuledIn, TakesRuledIf, IsGatheredOfAll};

use crate::figures::Report;
use crate::kind::{Kind, Sign, kind_of};
use crate::network::Subject;
use crate::redboxes::{RedBoxes, learn};
use crate::ruling::{Rule, Ruling};
use crate::timing::{Timed, pass_after};
use sr_audit::{Arrival, Audit, Side, Span, Spans};
use sr_capture::Packet;
use sr_capture_script::{Captures, Choice, Pass, Place, ScriptFault};
use sr_slots::Keys;
use std::alloc::Global;
use std::io::BufRead;

/// What one reading of captures gathers.
#[derive(Drop)]
pub struct Gathered {
    /// The report of all frames.
    pub report: Report,
    /// The RedBoxes that supervision names.
    pub redboxes: RedBoxes,
    /// The audit of frames by flow, where it was asked for.
    pub flows: Option<Ruling>,
    /// That of the counters, where it was asked for.
    pub counters: Option<Ruling>,
}

/// Has an audit take a sign of life, if there is one.
fn hear_sign(
    audit: &mut Audit,
    sign: Option<Sign>,
    side: Side,
    time: u64,
) -> Result<(), ScriptFault>
    ensures audits { (spans : Spans) (xs : List Sent)
        → Audits spans xs audit.old.sources.entries → Audits spans xs audit.new.sources.entries }
    ensures hears { OnOk result ((signs : List Reported)
        → Hears signs audit.old.sources.entries
        → Hears (sign_with sign side time ++ signs) audit.new.sources.entries) }
    ensures spans { audit.new.spans ≡ audit.old.spans }
    ensures left_out { (spans : Spans) (xs : List Sent)
        → Audits spans xs audit.old.sources.entries
        → IsLeftOut audit.old.sources.entries xs audit.old.left_out
        → IsLeftOut audit.new.sources.entries xs audit.new.left_out }
    ensures refused { IfErr result (λ fault. fault ≡ ScriptFault.NoMemory) }
{
    let Some(sign) = sign else {
        return Ok(());
    };
    audit.hear(sign.mac, sign.kind, side, time)?;
    Ok(())
}

/// Has an audit take a packet, if it is a frame with a number.
fn note_kind(audit: &mut Audit, kind: Kind, time: u64) -> Result<(), ScriptFault>
    ensures taken { OnOk result (TakesKind kind time audit.old audit.new) }
    ensures refused { IfErr result (λ fault. fault ≡ ScriptFault.NoMemory) }
{
    let Kind::Numbered(numbered) = kind else {
        return Ok(());
    };
    let arrival = Arrival {
        side: numbered.side,
        seq: numbered.seq,
        time,
    };
    audit.note(numbered.src, arrival)?;
    hear_sign(audit, numbered.sign, numbered.side, time)
}

/// Has an audit under a rule take a packet, if there is one.
fn note_part(part: &mut Option<Ruling>, kind: Kind, time: u64) -> Result<(), ScriptFault>
    ensures taken { OnOk result (TakesRuledIf kind time part.old part.new) }
    ensures refused { IfErr result (λ fault. fault ≡ ScriptFault.NoMemory) }
{
    match part.as_mut() {
        Some(ruling) => ruling.note(kind, time),
        None => Ok(()),
    }
}

/// Has both audits under rules take a packet, as far as there are any.
fn note_parts(
    flows: &mut Option<Ruling>,
    counters: &mut Option<Ruling>,
    kind: Kind,
    time: u64,
) -> Result<(), ScriptFault>
    ensures taken { OnOk result (TakesRuledIf kind time flows.old flows.new
        × TakesRuledIf kind time counters.old counters.new) }
    ensures refused { IfErr result (λ fault. fault ≡ ScriptFault.NoMemory) }
{
    note_part(flows, kind, time)?;
    note_part(counters, kind, time)
}

impl Pass for Gathered {
    ghost use Rattle.std.specs.Prelude.{◌≡◌};
    ghost use Rattle.sr_capture_script.specs.declared.fault.ScriptFault.TheVariants.{NoMemory as OutOfMemory};
    ghost use Rattle.sr_capture_audit.specs.Gathering.{GathersMore};

    ghost takes = { λ old x new. GathersMore x old new };

    ghost refuses = { λ fault. fault ≡ OutOfMemory };

    fn take(&mut self, place: Place, packet: &Packet) -> Result<(), ScriptFault> {
        let Some(tap) = self.report.subject.tap_at(place.inlet) else {
            return Ok(());
        };
        let kind = kind_of(self.report.subject.network, tap, packet);
        self.report.counts.note(tap, kind, packet.octets.as_slice());
        self.report.whole = Span::lengthened(self.report.whole, place.time);
        note_kind(&mut self.report.audit, kind, place.time)?;
        learn(&mut self.redboxes, kind)?;
        note_parts(&mut self.flows, &mut self.counters, kind, place.time)
    }
}

/// An audit under a rule that took no packet, where there is a rule.
fn begin_part(
    alloc: Global,
    keys: Keys,
    subject: Subject,
    spans: Spans,
    rule: Option<Rule>,
) -> Option<Ruling>
    ensures { AreRuledIn rule subject spans [] result }
{
    match rule {
        Some(rule) => Some(Ruling::new(alloc, keys, subject, spans, rule)),
        None => None,
    }
}

/// What one reading gathers of captures whose spans are known: their report, the RedBoxes that supervision names, and the audits under two rules,
/// where these are asked for. Each is what a reading of its own would have.
///
/// # Errors
/// The fault of a file, `NoMemory` or `Endless`.
pub fn gathered_of<R: BufRead + Drop>(
    alloc: Global,
    keys: Keys,
    captures: &mut Captures<R>,
    choice: &Choice,
    subject: Subject,
    spans: Spans,
    by_flow: Option<Rule>,
    by_counter: Option<Rule>,
) -> Result<Gathered, ScriptFault>
    ensures gathers { IfOk result (λ gathered. (start_a start_b start_c : Option (List ℕ))
        → IsFed R.remaining AtA start_a captures.old.a []
        → IsFed R.remaining AtB start_b captures.old.b []
        → IsFed R.remaining AtC start_c captures.old.c []
        → IsGatheredOfAll by_flow by_counter choice.now subject spans
        (feed_of captures.old.a start_a) (feed_of captures.old.b start_b)
        (feed_of captures.old.c start_c) gathered) }

    // What ends it early is a fault of a file, behind all of its packets that came, more packets than are counted, or memory.
    ensures ends { IfErr result (λ fault. (start_a start_b start_c : Option (List ℕ))
        → IsFed R.remaining AtA start_a captures.old.a []
        → IsFed R.remaining AtB start_b captures.old.b []
        → IsFed R.remaining AtC start_c captures.old.c []
        → EndsFor (λ own. own ≡ ScriptFault.NoMemory) (feed_of captures.old.a start_a)
        (feed_of captures.old.b start_b) (feed_of captures.old.c start_c) fault) }
{
    let gathered = Gathered {
        report: Report::new(alloc, keys, subject, spans),
        redboxes: RedBoxes::new(alloc, keys),
        flows: begin_part(alloc, keys, subject, spans, by_flow),
        counters: begin_part(alloc, keys, subject, spans, by_counter),
    };
    let timed = Timed {
        clock: subject.clock,
        pass: gathered,
    };
    pass_after(captures, choice, timed)
}

/// The figures of captures whose spans are known.
///
/// # Errors
/// The fault of a file, `NoMemory` or `Endless`.
pub fn figures_of<R: BufRead + Drop>(
    alloc: Global,
    keys: Keys,
    captures: &mut Captures<R>,
    choice: &Choice,
    subject: Subject,
    spans: Spans,
) -> Result<Report, ScriptFault>
    // The report is that of all packets of all captures that are wanted, each once, in order of time.
    ensures audits { IfOk result (λ report. (start_a start_b start_c : Option (List ℕ))
        → IsFed R.remaining AtA start_a captures.old.a []
        → IsFed R.remaining AtB start_b captures.old.b []
        → IsFed R.remaining AtC start_c captures.old.c []
        → IsAuditOf choice.now subject spans (feed_of captures.old.a start_a)
        (feed_of captures.old.b start_b) (feed_of captures.old.c start_c) report) }

    // What ends it early is a fault of a file, behind all of its packets that came, more packets than are counted, or memory.
    ensures ends { IfErr result (λ fault. (start_a start_b start_c : Option (List ℕ))
        → IsFed R.remaining AtA start_a captures.old.a []
        → IsFed R.remaining AtB start_b captures.old.b []
        → IsFed R.remaining AtC start_c captures.old.c []
        → EndsFor (λ own. own ≡ ScriptFault.NoMemory) (feed_of captures.old.a start_a)
        (feed_of captures.old.b start_b) (feed_of captures.old.c start_c) fault) }
{
    let gathered = gathered_of(alloc, keys, captures, choice, subject, spans, None, None)?;
    let Gathered {
        report,
        redboxes,
        flows,
        counters,
    } = gathered;
    drop((redboxes, flows, counters));
    Ok(report)
}
