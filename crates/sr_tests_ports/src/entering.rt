//! One event is entered and written down, and where it is refused, all is as it was.

ghost use Rattle.std.specs.Prelude.{◌<◌, vec_len, vec_capacity};

use super::frames::{FOR_OWN, in_lan};
use super::steps::{Act, Outcome};
use sr_forwarding::{Parcel, ReadFault, Role};
use sr_frame::Port;
use sr_node::{Answer, Event, NodeImage, NodeOf, StepFault};
use sr_ports::{EnterFault, Kept, Log, Pass, enter};
use sr_prp_trailer::Lan;
use sr_sequence::Seq;
use std::alloc::Global;
use std::sync::ledger::Ledger;

/// An allocation failed.
pub const NO_MEMORY: Outcome = Outcome::Refused(EnterFault::Step(StepFault::NoMemory));

fn port_of(lan: Lan) -> Port {
    match lan {
        Lan::A => Port::A,
        Lan::B => Port::B,
    }
}

/// The event that is entered.
pub fn event_of(alloc: Global, act: Act) -> Result<Event, ReadFault> {
    Ok(match act {
        Act::In(lan, seq) => Event::Arrive {
            port: port_of(lan),
            parcel: in_lan(alloc, lan, seq)?,
            now: 0,
        },
        Act::Tick(now) => Event::Tick { now },
        Act::Take(port) => Event::Take { port },
    })
}

fn is_for_own(parcel: &Parcel) -> bool {
    let (plain, rest) = parcel.plain_pieces();
    plain == FOR_OWN.as_slice() && rest.is_empty()
}

fn took(parcel: &Parcel) -> Outcome {
    match parcel.seq() {
        Some(Seq(seq)) if is_for_own(parcel) => Outcome::TookFrame(seq),
        Some(Seq(seq)) => Outcome::TookLife(seq),
        None => Outcome::Other,
    }
}

fn said(answer: &Answer) -> Outcome {
    match answer {
        Answer::Passed(ports) if matches!(ports.as_slice(), [Port::H]) => Outcome::Up,
        Answer::Ticked { life, .. } => match life {
            Some(Seq(seq)) => Outcome::Lived(*seq),
            None => Outcome::Ticked,
        },
        Answer::Taken(Some(parcel)) => took(parcel),
        Answer::Taken(None) => Outcome::Nothing,
        _ => Outcome::Other,
    }
}

/// Writes down what was answered. An event that was refused is let go.
pub fn write_down(
    log: &mut Log,
    event: Event,
    entered: Result<Answer, EnterFault>,
) -> Result<(), EnterFault>
    requires { vec_len log.old.pairs < vec_capacity log.old.pairs }
{
    match entered {
        Ok(answer) => {
            log.push(event, answer);
            Ok(())
        }
        Err(fault) => {
            drop(event);
            Err(fault)
        }
    }
}

fn enter_and_log<R: Role, L: Ledger>(
    kept: &mut Kept<R, L>,
    pass: &mut Pass<L>,
    log: &mut Log,
    event: Event,
) -> Result<Outcome, EnterFault> {
    if let Err(refused) = log.reserve() {
        drop(event);
        return Err(refused.into());
    }
    let entered = enter(kept, pass, &event);
    let outcome = match &entered {
        Ok(answer) => said(answer),
        Err(_) => Outcome::Other,
    };
    write_down(log, event, entered)?;
    Ok(outcome)
}

// None where an allocation failed.
fn is_still<R: Role>(node: &NodeOf<R>, before: &NodeImage) -> Option<bool> {
    match node.image() {
        Ok(image) => {
            let is_same = image == *before;
            drop(image);
            Some(is_same)
        }
        Err(_) => None,
    }
}

fn is_as<R: Role>(node: &NodeOf<R>, before: &NodeImage) -> bool {
    match is_still(node, before) {
        Some(is_same) => is_same,
        None => is_still(node, before) == Some(true),
    }
}

// Entries in the journal and in closed ones, events entered with the pass, and pairs in the log.
fn counts<R: Role, L: Ledger>(
    kept: &Kept<R, L>,
    pass: &Pass<L>,
    log: &Log,
) -> (usize, u64, u64, usize) {
    (
        kept.journal.len(),
        kept.closed,
        pass.count(),
        log.pairs.len(),
    )
}

// The outcome, where a refusal left all as it was.
fn enter_from<R: Role, L: Ledger>(
    kept: &mut Kept<R, L>,
    pass: &mut Pass<L>,
    log: &mut Log,
    event: Event,
    before: &NodeImage,
) -> Outcome {
    let counted = counts(kept, pass, log);
    match enter_and_log(kept, pass, log, event) {
        Ok(outcome) => outcome,
        Err(fault) if counts(kept, pass, log) == counted && is_as(&kept.node, before) => {
            Outcome::Refused(fault)
        }
        Err(_) => Outcome::Changed,
    }
}

/// What it comes to that this event is entered. None where the allocation for the image of the node failed.
pub fn enter_beside<R: Role, L: Ledger>(
    kept: &mut Kept<R, L>,
    pass: &mut Pass<L>,
    log: &mut Log,
    event: Event,
) -> Option<Outcome> {
    match kept.node.image() {
        Ok(before) => {
            let outcome = enter_from(kept, pass, log, event, &before);
            drop(before);
            Some(outcome)
        }
        Err(_) => {
            drop(event);
            None
        }
    }
}

fn ticks_once<R: Role, L: Ledger>(kept: &mut Kept<R, L>, pass: &mut Pass<L>) -> bool {
    let event = Event::Tick { now: 0 };
    let entered = enter(kept, pass, &event);
    drop(event);
    let is_ticked = match &entered {
        Ok(answer) => said(answer) == Outcome::Ticked,
        Err(_) => false,
    };
    drop(entered);
    is_ticked
}

/// Enters so many ticks of time 0 and writes none of them down. An allocation that fails is met by another try.
pub fn ticks<R: Role, L: Ledger>(kept: &mut Kept<R, L>, pass: &mut Pass<L>, count: u32) -> bool {
    for _ in 0..count {
        if !ticks_once(kept, pass) && !ticks_once(kept, pass) {
            return false;
        }
    }
    true
}
