//! What recorders dropped: losses that it may explain are not told.

ghost use Rattle.std.specs.Prelude.{◌≡◌, ◌∷◌, ◌++◌, OnOk};
ghost use Rattle.std.specs.List.{list_any};
ghost use Rattle.sr_verdict.specs.Drops.{
  frames_where,
  lacks_behind,
  loss_in,
  losses_in,
  explains,
  explained_by,
  is_explained_at,
  is_explained,
  left_unexplained,
  any_dropped,
  why_dropped,
  settled,
  dropped_at,
  dropped_told,
};

use crate::judging::note_one;
use crate::kinds::when_counted;
use crate::shared::Cut;
use crate::verdict::{Verdict, has_fault};
use crate::why::Why;
use sr_audit::{Side, Sides};
use sr_capture_audit::Ports;
use sr_frame::NoMemory;
use std::alloc::AllocError;

/// Of which LANs the recorder may have dropped all that is said to be lost.
#[derive(Clone, Copy, Debug, PartialEq, Eq)]
pub(crate) struct Explained {
    /// Of A.
    pub a: bool,
    /// Of B.
    pub b: bool,
}

/// So many frames, where a test holds.
fn frames_where(holds: bool, frames: u64) -> u64
    ensures { result ≡ frames_where holds frames }
{
    if holds { frames } else { 0 }
}

/// Whether a port of a ring lacks sources that stand behind a cut.
fn lacks_behind(lan: Side, cut: &Cut) -> bool
    ensures { result ≡ lacks_behind lan cut.now }
{
    match lan {
        Side::A => cut.at_b > 0,
        Side::B => cut.at_a > 0,
    }
}

/// How many frames of a LAN were lost by a verdict.
fn loss_in(lan: Side, verdict: &Verdict) -> u64
    ensures { result ≡ loss_in lan verdict.now }
{
    match *verdict {
        Verdict::BothLost(_, numbers) | Verdict::BothLostWithin(_, numbers) => numbers,
        Verdict::DeadPort(_, row) => frames_where(row.side == lan.other(), row.frames),
        Verdict::CutRing(cut, _) => frames_where(lacks_behind(lan, &cut), cut.frames),
        Verdict::Loss(own, share, _) | Verdict::LossWithin(own, share, _) => {
            frames_where(own == lan, share.frames)
        }
        _ => 0,
    }
}

/// How many frames of a LAN were lost by verdicts.
fn losses_in(lan: Side, verdicts: &[Verdict]) -> u64
    ensures { result ≡ losses_in lan verdicts.now }
{
    let mut lost: u64 = 0;
    for verdict in verdicts {
        lost = lost.saturating_add(loss_in(lan, verdict));
    }
    lost
}

/// Whether a recorder dropped at least as many packets as are said to be lost.
fn explains(dropped: u64, lost: u64) -> bool
    ensures { result ≡ explains dropped lost }
{
    lost > 0 && lost <= dropped
}

/// Of which LANs the recorder may have dropped all that is said to be lost. That of a mirror port records both.
fn explained_by(ports: Ports, dropped: Sides, verdicts: &[Verdict]) -> Explained
    ensures { result ≡ explained_by ports dropped verdicts.now }
{
    let of_b = match ports {
        Ports::Two => dropped.b,
        Ports::Mirror => dropped.a,
    };
    Explained {
        a: explains(dropped.a, losses_in(Side::A, verdicts)),
        b: explains(of_b, losses_in(Side::B, verdicts)),
    }
}

/// Whether the recorder of a LAN may have dropped all that is said to be lost.
fn is_explained_at(by: Explained, lan: Side) -> bool
    ensures { result ≡ is_explained_at by lan }
{
    match lan {
        Side::A => by.a,
        Side::B => by.b,
    }
}

/// Whether what a verdict says was lost may have been dropped by a recorder.
fn is_explained(by: Explained, verdict: &Verdict) -> bool
    ensures { result ≡ is_explained by verdict.now }
{
    match *verdict {
        Verdict::BothLost(_, _) | Verdict::BothLostWithin(_, _) => by.a || by.b,
        Verdict::DeadPort(_, row) => is_explained_at(by, row.side.other()),
        Verdict::CutRing(cut, _) => {
            (by.a || !lacks_behind(Side::A, &cut)) && (by.b || !lacks_behind(Side::B, &cut))
        }
        Verdict::Loss(lan, _, _) | Verdict::LossWithin(lan, _, _) => is_explained_at(by, lan),
        _ => false,
    }
}

/// Leaves out what recorders may have dropped.
fn leave_explained_out(verdicts: &mut Vec<Verdict>, by: Explained)
    ensures { verdicts.new.items ≡ left_unexplained by verdicts.old.items }
{
    verdicts.retain(|verdict: &Verdict| !is_explained(by, verdict));
}

/// Whether a recorder dropped packets.
fn any_dropped(dropped: Sides) -> bool
    ensures { result ≡ any_dropped dropped }
{
    dropped.a > 0 || dropped.b > 0
}

/// Why nothing can be judged where recorders may have dropped all that is said to be lost.
fn why_dropped(ports: Ports, dropped: Sides, by: Explained) -> Why
    ensures { result ≡ why_dropped ports dropped by }
{
    match ports {
        Ports::Mirror => Why::Dropped(None, dropped.a),
        Ports::Two if by.a => Why::Dropped(Some(Side::A), dropped.a),
        Ports::Two => Why::Dropped(Some(Side::B), dropped.b),
    }
}

/// Takes a verdict before all others.
fn note_first(verdicts: &mut Vec<Verdict>, verdict: Verdict) -> Result<(), NoMemory>
    ensures { OnOk result (verdicts.new.items ≡ verdict ∷ verdicts.old.items) }
{
    match verdicts.insert(0, verdict) {
        Ok(()) => Ok(()),
        Err(refused) => Err(AllocError::from(refused).into()),
    }
}

/// Leaves out what recorders may have dropped. Where no other fault stands nothing can be judged.
///
/// # Errors
/// `NoMemory` where an allocation failed.
pub(crate) fn settle(
    verdicts: &mut Vec<Verdict>,
    ports: Ports,
    dropped: Sides,
) -> Result<(), NoMemory>
    ensures { OnOk result (verdicts.new.items ≡ settled ports dropped verdicts.old.items) }
{
    if !any_dropped(dropped) {
        return Ok(());
    }
    let was_faulty = has_fault(verdicts);
    let by = explained_by(ports, dropped, verdicts);
    leave_explained_out(verdicts, by);
    if was_faulty && !has_fault(verdicts) {
        return note_first(verdicts, Verdict::Unjudged(why_dropped(ports, dropped, by)));
    }
    Ok(())
}

/// The notice of what a recorder dropped, if it did.
fn dropped_at(lan: Option<Side>, packets: u64) -> Option<Verdict>
    ensures { result ≡ dropped_at lan packets }
{
    when_counted(packets, Verdict::RecorderDropped(lan, packets))
}

/// Takes the notices of what recorders dropped.
///
/// # Errors
/// `NoMemory` where an allocation failed.
pub(crate) fn note_dropped(
    verdicts: &mut Vec<Verdict>,
    ports: Ports,
    dropped: Sides,
) -> Result<(), NoMemory>
    ensures { OnOk result
        (verdicts.new.items ≡ verdicts.old.items ++ dropped_told ports dropped) }
{
    match ports {
        Ports::Two => {
            note_one(verdicts, dropped_at(Some(Side::A), dropped.a))?;
            note_one(verdicts, dropped_at(Some(Side::B), dropped.b))
        }
        Ports::Mirror => note_one(verdicts, dropped_at(None, dropped.a)),
    }
}
