//! One event under the lock.

ghost use Rattle.std.specs.Prelude.{◌≡◌, ◌+◌, ◌++◌, ◌∷◌, [], ◌<◌, IfOk, IfErr, OnErr, OnOk, None, Some, false, true, vec_len, vec_capacity};
ghost use Rattle.sr_node.specs.States.{state_of};
ghost use Rattle.sr_node.specs.Steps.{Step, refusal_of};
ghost use Rattle.sr_ports.specs.Histories.{entry};
ghost use Rattle.sr_ports.specs.Entering.{is_journal_full, enter_fault, IsEntered};

use crate::{EnterFault, Entry, Kept, Pass, Worker};
use sr_forwarding::{Parcel, Role};
use sr_frame::{Frame, NoMemory, Port};
use sr_node::{Answer, Event, NodeOf};
use std::sync::ledger::Ledger;

/// The most entries of a journal.
const MAX_ENTRIES: usize = 1_000_000;

/// Enters an event whole, as one step of the node with its entry in the journal, or refuses it and changes nothing.
///
/// It is refused as by `NodeOf::step`, but for `JournalFull` before `NoMemory`: where the journal has 1,000,000 entries, or all
/// journals together 2^64 - 1.
// speed: D-ports-nothing-taken
#[inline(always)]
pub fn enter<R: Role, L: Ledger>(
    kept: &mut Kept<R, L>,
    pass: &mut Pass<L>,
    event: &Event,
) -> Result<Answer, EnterFault>
    ensures step { IfOk result (λ a. Step (state_of R.meaning kept.old.node) event.now a
        (state_of R.meaning kept.new.node)) }
    ensures taken { OnOk result (refusal_of (state_of R.meaning kept.old.node) event.now ≡ None) }
    ensures room { OnOk result
        (is_journal_full (vec_len kept.old.journal) kept.old.book.total ≡ false) }
    ensures entry { IfOk result (λ a. kept.new.journal.items
        ≡ kept.old.journal.items ++ entry pass.old.worker event.now a ∷ []) }
    ensures count { OnOk result (pass.new.count ≡ pass.old.count + 1) }
    ensures book { OnOk result (kept.new.book.total ≡ kept.old.book.total + 1) }
    ensures worker { pass.new.worker ≡ pass.old.worker }
    ensures opening { kept.new.opening ≡ kept.old.opening }
    ensures closed { kept.new.closed ≡ kept.old.closed }
    ensures err { IfErr result (λ f. f ≡ enter_fault (refusal_of (state_of R.meaning kept.old.node)
        event.now) (is_journal_full (vec_len kept.old.journal) kept.old.book.total)) }
    ensures node { OnErr result (state_of R.meaning kept.new.node
        ≡ state_of R.meaning kept.old.node) }
    ensures journal { OnErr result (kept.new.journal.items ≡ kept.old.journal.items) }
    ensures total { OnErr result (kept.new.book.total ≡ kept.old.book.total) }
    ensures pass { OnErr result (pass.new.count ≡ pass.old.count) }
{
    let Kept {
        node,
        journal,
        closed,
        book,
        ..
    } = kept;
    if journal.len() >= MAX_ENTRIES || *closed + journal.len() as u64 == u64::MAX {
        node.check(event)?;
        return Err(EnterFault::JournalFull);
    }
    if let Err(refused) = journal.reserve(1) {
        return Err(unmet(node, event, refused.into()));
    }
    let answer = written(node, journal, pass.worker(), event)?;
    pass.raise(book);
    Ok(answer)
}

// Why an event is not entered for which an allocation failed: the node's own refusal comes first.
#[cold]
#[inline(never)]
fn unmet<R: Role>(node: &NodeOf<R>, event: &Event, refused: NoMemory) -> EnterFault
    ensures { result ≡ enter_fault (refusal_of (state_of R.meaning node.now) event.now) false }
{
    match node.check(event) {
        Ok(()) => refused.into(),
        Err(fault) => fault.into(),
    }
}

// The node's step with its entry, where the journal has room. A take where nothing waits changes nothing at the node, so its entry
// is all of it; any other event is stepped, out of line.
// speed: D-ports-nothing-taken
#[inline(always)]
fn written<R: Role>(
    node: &mut NodeOf<R>,
    journal: &mut Vec<Entry>,
    worker: Worker,
    event: &Event,
) -> Result<Answer, EnterFault>
    requires { vec_len journal.old < vec_capacity journal.old }
    ensures { IsEntered (state_of R.meaning node.old) journal.old.items worker event.now result
        (state_of R.meaning node.new) journal.new.items }
{
    if let Event::Take { port } = event
        && node.front(*port).is_none()
    {
        journal.push_reserved(Entry {
            worker,
            event: Event::Take { port: *port },
            answer: Answer::Taken(None),
        });
        return Ok(Answer::Taken(None));
    }
    stepped(node, journal, worker, event)
}

// A step that the node takes, with its entry. Each kind of event has a function of its own, so that nothing is asked of the answer
// that the kind tells, and its entry is made where it lies.
#[inline(never)]
fn stepped<R: Role>(
    node: &mut NodeOf<R>,
    journal: &mut Vec<Entry>,
    worker: Worker,
    event: &Event,
) -> Result<Answer, EnterFault>
    requires { vec_len journal.old < vec_capacity journal.old }
    ensures { IsEntered (state_of R.meaning node.old) journal.old.items worker event.now result
        (state_of R.meaning node.new) journal.new.items }
{
    match event {
        Event::Arrive { port, parcel, now } => {
            arrived(node, journal, worker, event, *port, parcel, *now)
        }
        Event::Send { frame, now } => sent(node, journal, worker, event, frame, *now),
        Event::Tick { now } => ticked(node, journal, worker, event, *now),
        Event::Take { port } => took(node, journal, worker, *port),
    }
}

// A frame comes in. Its copy for the journal is made before the step.
#[inline(always)]
fn arrived<R: Role>(
    node: &mut NodeOf<R>,
    journal: &mut Vec<Entry>,
    worker: Worker,
    event: &Event,
    port: Port,
    parcel: &Parcel,
    now: u64,
) -> Result<Answer, EnterFault>
    requires room { vec_len journal.old < vec_capacity journal.old }
    requires event { event.now ≡ Event.Arrive port parcel.now now }
    ensures { IsEntered (state_of R.meaning node.old) journal.old.items worker event.now result
        (state_of R.meaning node.new) journal.new.items }
{
    let twin = match parcel.try_clone(*journal.allocator()) {
        Ok(twin) => twin,
        Err(refused) => return Err(unmet(node, event, refused)),
    };
    let answer = node.step(event)?;
    let again = match &answer {
        Answer::Own => Answer::Own,
        Answer::Passed(ports) => Answer::Passed(ports.copy()),
        _ => unreachable!(),
    };
    journal.push_reserved(Entry {
        worker,
        event: Event::Arrive {
            port,
            parcel: twin,
            now,
        },
        answer: again,
    });
    Ok(answer)
}

// The host sends a frame. Its copy for the journal is made before the step.
#[inline(always)]
fn sent<R: Role>(
    node: &mut NodeOf<R>,
    journal: &mut Vec<Entry>,
    worker: Worker,
    event: &Event,
    frame: &Frame,
    now: u64,
) -> Result<Answer, EnterFault>
    requires room { vec_len journal.old < vec_capacity journal.old }
    requires event { event.now ≡ Event.Send frame.now now }
    ensures { IsEntered (state_of R.meaning node.old) journal.old.items worker event.now result
        (state_of R.meaning node.new) journal.new.items }
{
    let twin = match frame.try_clone(*journal.allocator()) {
        Ok(twin) => twin,
        Err(refused) => return Err(unmet(node, event, refused)),
    };
    let Answer::Sent(number) = node.step(event)? else {
        unreachable!()
    };
    journal.push_reserved(Entry {
        worker,
        event: Event::Send { frame: twin, now },
        answer: Answer::Sent(number),
    });
    Ok(Answer::Sent(number))
}

// Time passes.
#[inline(always)]
fn ticked<R: Role>(
    node: &mut NodeOf<R>,
    journal: &mut Vec<Entry>,
    worker: Worker,
    event: &Event,
    now: u64,
) -> Result<Answer, EnterFault>
    requires room { vec_len journal.old < vec_capacity journal.old }
    requires event { event.now ≡ Event.Tick now }
    ensures { IsEntered (state_of R.meaning node.old) journal.old.items worker event.now result
        (state_of R.meaning node.new) journal.new.items }
{
    let Answer::Ticked {
        sources,
        nodes,
        proxies,
        life,
    } = node.step(event)?
    else {
        unreachable!()
    };
    journal.push_reserved(Entry {
        worker,
        event: Event::Tick { now },
        answer: Answer::Ticked {
            sources,
            nodes,
            proxies,
            life,
        },
    });
    Ok(Answer::Ticked {
        sources,
        nodes,
        proxies,
        life,
    })
}

// The first parcel that waits at a port is taken. Its copy for the journal is made before that.
#[inline(always)]
fn took<R: Role>(
    node: &mut NodeOf<R>,
    journal: &mut Vec<Entry>,
    worker: Worker,
    port: Port,
) -> Result<Answer, EnterFault>
    requires { vec_len journal.old < vec_capacity journal.old }
    ensures { IsEntered (state_of R.meaning node.old) journal.old.items worker (Event.Take port)
        result (state_of R.meaning node.new) journal.new.items }
{
    let copy = match node.front(port) {
        Some(parcel) => Some(parcel.try_clone(*journal.allocator())?),
        None => None,
    };
    let taken = node.take(port);
    journal.push_reserved(Entry {
        worker,
        event: Event::Take { port },
        answer: Answer::Taken(copy),
    });
    Ok(Answer::Taken(taken))
}
