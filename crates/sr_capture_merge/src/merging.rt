//! Going over the packets of two captures, and writing each frame once.

ghost use Rattle.std.specs.Prelude.{◌≡◌, ◌≢◌, [], List, ℕ, Option, OnOk, IfOk, IfErr};
ghost use Rattle.sr_capture_script.specs.declared.choice.Inlet.TheVariants.{A as AtA, B as AtB, C as AtC};
ghost use Rattle.sr_capture_script.specs.Merging.{feed_of};
ghost use Rattle.sr_capture_script.specs.SourceViews.{IsFed};
ghost use Rattle.sr_capture_merge.specs.Reading.{side_at};
ghost use Rattle.sr_capture_merge.specs.Files.{sink, IsStop, WritesOn, TakesOn, EndsOn, EndsBy};
ghost use Rattle.sr_capture_merge.specs.Merged.{MergesOn, MergesAll, MergesUntil, IsMerged, IsMergedUpTo};
ghost use Rattle.sr_merge.specs.Due.{due};
ghost use Rattle.sr_merge.specs.Merging.{Pending, pending_of};
ghost use Rattle.sr_merge.specs.Verdicts.{verdict_until};

use crate::counts::{Counts, more};
use crate::output::Output;
use crate::plan::Plan;
use crate::reading::packet_of;
use sr_audit::Side;
use sr_capture::{Extent, MAX_KEPT, Packet};
use sr_capture_script::{Captures, Choice, Front, Inlet, ScriptFault, start_of};
use sr_merge::{Due, Merge, Verdict, Waiting};
use sr_slots::Keys;
use std::alloc::Global;
use std::io::{BufRead, Write};

/// The side of an inlet.
fn side_of(inlet: Inlet) -> Side
    ensures { result ≡ side_at inlet }
{
    match inlet {
        Inlet::A => Side::A,
        Inlet::B | Inlet::C => Side::B,
    }
}

/// Writes the packets that are due when the next packet comes at this time.
fn write_due<W: Write>(
    merge: &mut Merge,
    output: &mut Output,
    now: u64,
    writer: &mut W,
) -> Result<(), ScriptFault>
    ensures goes { OnOk result (WritesOn output.old.plan output.old.start now merge.old merge.new
        (sink (W.contents writer.old) output.old.counts)
        (sink (W.contents writer.new) output.new.counts)) }
    ensures stops { IfErr result (λ fault. IsStop fault (WritesOn output.old.plan
        output.old.start now merge.old merge.new (sink (W.contents writer.old) output.old.counts)
        (sink (W.contents writer.new) output.new.counts))) }
    ensures due { OnOk result (due now merge.new.waiting ≡ []) }
    ensures plan { output.new.plan ≡ output.old.plan }
    ensures start { output.new.start ≡ output.old.start }
{
    'waiting: while let Some(Due { waiting, verdict }) = merge.due(now) {
        output.put(waiting, verdict, writer)?;
        merge.drop_front();
    }
    Ok(())
}

/// By which sides a packet came, as far as that will be known: of captures that are at their ends, or that can't be read on behind a
/// time.
fn verdict_until(waiting: &Waiting, until: Option<u64>) -> Option<Verdict>
    ensures { result ≡ verdict_until until (pending_of waiting.now) }
{
    match until {
        None => Some(waiting.last_verdict()),
        Some(now) => waiting.verdict(now),
    }
}

/// Writes all packets that wait: no more will come of captures that are at their ends, or that can't be read on behind a time.
fn write_rest<W: Write>(
    merge: &mut Merge,
    output: &mut Output,
    until: Option<u64>,
    writer: &mut W,
) -> Result<(), ScriptFault>
    ensures goes { OnOk result (EndsOn output.old.plan output.old.start until merge.old.waiting []
        (sink (W.contents writer.old) output.old.counts)
        (sink (W.contents writer.new) output.new.counts)) }
    ensures stops { IfErr result (λ fault. IsStop fault (EndsOn output.old.plan
        output.old.start until merge.old.waiting merge.new.waiting
        (sink (W.contents writer.old) output.old.counts)
        (sink (W.contents writer.new) output.new.counts))) }
    ensures untold { merge.new.untold ≡ merge.old.untold }
{
    'waiting: while let Some(waiting) = merge.front() {
        let verdict = verdict_until(waiting, until);
        output.put(waiting, verdict, writer)?;
        merge.drop_front();
    }
    Ok(())
}

/// Takes a packet that is wanted. One that is cut, or longer than a frame, is left out.
fn take<W: Write>(
    merge: &mut Merge,
    output: &mut Output,
    side: Side,
    number: u64,
    time: u64,
    packet: &Packet,
    writer: &mut W,
) -> Result<(), ScriptFault>
    ensures goes { OnOk result (TakesOn output.old.plan output.old.start side number time packet.now
        merge.old merge.new (sink (W.contents writer.old) output.old.counts)
        (sink (W.contents writer.new) output.new.counts)) }
    ensures stops { IfErr result (λ fault. IsStop fault (WritesOn output.old.plan
        output.old.start time merge.old merge.new (sink (W.contents writer.old) output.old.counts)
        (sink (W.contents writer.new) output.new.counts))) }
    ensures plan { output.new.plan ≡ output.old.plan }
    ensures start { output.new.start ≡ output.old.start }
{
    match packet.extent {
        Extent::Cut => {
            more(&mut output.counts.cut);
            return Ok(());
        }
        Extent::Whole if packet.len > MAX_KEPT as u64 => {
            more(&mut output.counts.long);
            return Ok(());
        }
        Extent::Whole => {}
    }
    write_due(merge, output, time, writer)?;
    let plan = output.plan;
    merge.take(packet_of(&plan, side, number, time, packet.octets.as_slice()))?;
    Ok(())
}

/// A merge of nothing yet.
fn begin(alloc: Global, keys: Keys) -> Result<Merge, ScriptFault>
    ensures sources { IfOk result (λ merge. merge.sources ≡ []) }
    ensures waiting { IfOk result (λ merge. merge.waiting ≡ []) }
    ensures untold { IfOk result (λ merge. merge.untold ≡ 0) }
    ensures err { IfErr result (λ fault. fault ≡ ScriptFault.NoMemory) }
{
    Ok(Merge::new(alloc, keys)?)
}

/// Takes the packet that is due, if it is wanted, and the next one of its file.
fn pass<R: BufRead + Drop, W: Write>(
    merge: &mut Merge,
    output: &mut Output,
    captures: &mut Captures<R>,
    choice: &Choice,
    front: Front,
    now: &mut u64,
    writer: &mut W,
) -> Result<(), ScriptFault>
    ensures goes { OnOk result (MergesOn R.remaining choice.now output.old.plan output.old.start
        captures.old captures.new front now.old now.new merge.old merge.new
        (sink (W.contents writer.old) output.old.counts)
        (sink (W.contents writer.new) output.new.counts)) }
    ensures stops { IfErr result (λ fault. fault ≢ ScriptFault.Write → MergesUntil R.remaining
        choice.now output.old.plan output.old.start captures.old (Some front) fault now.old now.new
        merge.old merge.new (sink (W.contents writer.old) output.old.counts)
        (sink (W.contents writer.new) output.new.counts)) }
    ensures plan { output.new.plan ≡ output.old.plan }
    ensures start { output.new.start ≡ output.old.start }
{
    let time = front.moment.saturating_sub(output.start);
    if choice.covers(time) {
        let side = side_of(front.inlet);
        let packet = captures.packet(front.inlet);
        take(merge, output, side, front.number, time, packet, writer)?;
    }
    *now = time;
    captures.advance(front.inlet)
}

/// Takes the packets of captures in the order of their times, and writes those that are decided.
fn take_all<R: BufRead + Drop, W: Write>(
    merge: &mut Merge,
    output: &mut Output,
    captures: &mut Captures<R>,
    choice: &Choice,
    first: Option<Front>,
    now: &mut u64,
    writer: &mut W,
) -> Result<(), ScriptFault>
    ensures goes { OnOk result (MergesAll R.remaining choice.now output.old.plan output.old.start
        captures.old captures.new first now.old now.new merge.old merge.new
        (sink (W.contents writer.old) output.old.counts)
        (sink (W.contents writer.new) output.new.counts)) }
    ensures stops { IfErr result (λ fault. fault ≢ ScriptFault.Write → MergesUntil R.remaining
        choice.now output.old.plan output.old.start captures.old first fault now.old now.new
        merge.old merge.new (sink (W.contents writer.old) output.old.counts)
        (sink (W.contents writer.new) output.new.counts)) }
    ensures plan { output.new.plan ≡ output.old.plan }
    ensures start { output.new.start ≡ output.old.start }
{
    let mut next = first;
    'packets: for _ in 0..u64::MAX {
        let Some(front) = next else {
            return Ok(());
        };
        pass(merge, output, captures, choice, front, now, writer)?;
        next = captures.front();
    }
    Err(ScriptFault::Endless)
}

/// Writes what waits where this ended the taking: a file that can't be read on behind a time, or that no more could be written. Answers
/// that no more could be written, or else what ended the taking.
fn finish_broken<W: Write>(
    merge: &mut Merge,
    output: &mut Output,
    own: ScriptFault,
    now: u64,
    writer: &mut W,
) -> Result<(), ScriptFault>
    ensures never { OnOk result ⊥ }
    ensures stops { IfErr result (λ fault. EndsBy own fault output.old.plan output.old.start now
        merge.old.waiting (sink (W.contents writer.old) output.old.counts)
        (sink (W.contents writer.new) output.new.counts)) }
    ensures untold { merge.new.untold ≡ merge.old.untold }
{
    match own {
        ScriptFault::File(_, _) => {
            write_rest(merge, output, Some(now), writer)?;
            Err(own)
        }
        ScriptFault::Write | ScriptFault::NoMemory | ScriptFault::Endless => Err(own),
    }
}

/// Writes what waits behind the last packet that was taken, and answers what ended the merge early.
fn finish<W: Write>(
    merge: &mut Merge,
    output: &mut Output,
    taken: Result<(), ScriptFault>,
    now: u64,
    writer: &mut W,
) -> Result<(), ScriptFault>
    ensures goes { OnOk result (OnOk taken (EndsOn output.old.plan output.old.start None
        merge.old.waiting [] (sink (W.contents writer.old) output.old.counts)
        (sink (W.contents writer.new) output.new.counts))
        × IfErr taken (λ own. ⊥)) }
    ensures stops { IfErr result (λ fault. OnOk taken (IsStop fault ((left : List Pending)
        × EndsOn output.old.plan output.old.start None merge.old.waiting left
        (sink (W.contents writer.old) output.old.counts)
        (sink (W.contents writer.new) output.new.counts)))
        × IfErr taken (λ own. EndsBy own fault output.old.plan output.old.start now
        merge.old.waiting (sink (W.contents writer.old) output.old.counts)
        (sink (W.contents writer.new) output.new.counts))) }
    ensures untold { merge.new.untold ≡ merge.old.untold }
{
    match taken {
        Ok(()) => write_rest(merge, output, None, writer),
        Err(own) => finish_broken(merge, output, own, now, writer),
    }
}

/// Merges captures into a file: each frame once, by its first copy, and each packet without number each time. Where a capture can't be
/// read on, the file has what came before.
///
/// The counts are answered, and the fault that ended the merge early, if one did: that of a file, `Write`, `NoMemory` or `Endless`.
pub fn merge<R: BufRead + Drop, W: Write>(
    alloc: Global,
    keys: Keys,
    captures: &mut Captures<R>,
    choice: &Choice,
    plan: &Plan,
    writer: &mut W,
) -> (Counts, Result<(), ScriptFault>)
    // What is written is the file of the packets of all captures, each capture's in its own order and all in order of time: of those
    // that are taken each that is to be written, in order, with its verdict; and so the packets are counted, and how many were taken as
    // they came, and how many of those that are wanted were left out, cut or too long.
    ensures merges { OnOk result.1 ((start_a start_b start_c : Option (List ℕ))
        → IsFed R.remaining AtA start_a captures.old.a []
        → IsFed R.remaining AtB start_b captures.old.b []
        → IsFed R.remaining AtC start_c captures.old.c []
        → IsMerged choice.now plan.now (feed_of captures.old.a start_a)
        (feed_of captures.old.b start_b) (feed_of captures.old.c start_c)
        (W.contents writer.old) (sink (W.contents writer.new) result.0)) }

    // Where a capture can't be read on, it is the file of the packets that come before the fault, whole; at any other fault, unless it
    // is the writer's, a front of it.
    ensures halts { IfErr result.1 (λ fault. fault ≢ ScriptFault.Write
        → (start_a start_b start_c : Option (List ℕ))
        → IsFed R.remaining AtA start_a captures.old.a []
        → IsFed R.remaining AtB start_b captures.old.b []
        → IsFed R.remaining AtC start_c captures.old.c []
        → IsMergedUpTo choice.now plan.now (feed_of captures.old.a start_a)
        (feed_of captures.old.b start_b) (feed_of captures.old.c start_c) fault
        (W.contents writer.old) (sink (W.contents writer.new) result.0)) }
{
    let first = captures.front();
    let mut output = match Output::begin(alloc, *plan, start_of(first), writer) {
        Ok(output) => output,
        Err(fault) => return (Counts::NONE, Err(fault)),
    };
    let mut merge = match begin(alloc, keys) {
        Ok(merge) => merge,
        Err(fault) => return (Counts::NONE, Err(fault)),
    };
    let mut now = 0;
    let taken = take_all(
        &mut merge,
        &mut output,
        captures,
        choice,
        first,
        &mut now,
        writer,
    );
    let outcome = finish(&mut merge, &mut output, taken, now, writer);
    let mut counts = output.counts;
    counts.untold = merge.untold();
    (counts, outcome)
}
