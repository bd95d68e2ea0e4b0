//! A node of any role.

ghost use Rattle.std.specs.Prelude.{◌≡◌, ◌≢◌, Err, IfOk, OnErr, OnOk};
ghost use Rattle.sr_forwarding.specs.Kinds.{carriage};
ghost use Rattle.sr_node.specs.declared.event.Event.TheVariants as event;
ghost use Rattle.sr_node.specs.Arriving.{arrival_answer};
ghost use Rattle.sr_node.specs.Octets.{TakesOctets};
ghost use Rattle.sr_node.specs.States.{state_of};
ghost use Rattle.sr_node.specs.Steps.{TakesEvent};
ghost use Rattle.sr_endpoint.specs.AlarmLogs.{Looks, no_alarms};
ghost use Rattle.sr_endpoint.specs.Counting.{after_arrival, after_reception, no_traffic};
ghost use Rattle.sr_endpoint.specs.AnyRoles.{image_of};
ghost use Rattle.sr_endpoint.specs.Endpoints.{new_state, state_by};

use crate::{AlarmLog, AnyRole, Counters, Setup};
use sr_forwarding::{Outlets, PortFraming, ReadFault, Role, framing_at};
use sr_frame::{Frame, FrameFault, MAX_FRAME_LEN, NoMemory, Port, view};
use sr_node::{Answer, Event, NodeOf, StepFault};
use sr_slots::Keys;
use std::alloc::{AllocError, Global};

/// A node of any role, with lists that are used again for each frame, and with what is counted at its ports.
#[derive(Drop)]
pub struct Endpoint {
    pub(crate) node: NodeOf<AnyRole>,
    pub(crate) counters: Counters,
    pub(crate) log: AlarmLog,
    pub(crate) alloc: Global,
    // The frame that the host sends.
    pub(crate) sending: Vec<u8>,
    // A frame that goes out and is written anew.
    pub(crate) frame: Vec<u8>,
}

// A list with room for a frame.
fn room(alloc: Global) -> Result<Vec<u8>, AllocError> {
    Vec::with_capacity(alloc, MAX_FRAME_LEN)
}

// Puts octets into a list in place of its own.
fn refill(list: &mut Vec<u8>, octets: &[u8]) -> Result<(), NoMemory>
    ensures { OnOk result (list.new.items ≡ octets.now) }
{
    list.clear();
    list.extend_from_slice(octets)?;
    Ok(())
}

// The frame's list, from an event.
fn list_of(alloc: Global, event: Event) -> Vec<u8> {
    match event {
        Event::Send { frame, .. } => frame.into_octets(),
        Event::Arrive { .. } | Event::Tick { .. } | Event::Take { .. } => Vec::new(alloc),
    }
}

// The host sends the octets of a list, which it has again afterwards.
fn send_list<R: Role>(
    alloc: Global,
    node: &mut NodeOf<R>,
    octets: &mut Vec<u8>,
    now: u64,
) -> Result<Answer, StepFault>
    ensures takes { TakesEvent (state_of R.meaning node.old) (event.Send octets.old.items now)
        result (state_of R.meaning node.new) }
{
    match view(octets) {
        Ok(_) => {}
        Err(FrameFault::TooLong) => return Err(StepFault::Reading(ReadFault::TooLong)),
        Err(_) => return Err(StepFault::Reading(ReadFault::TooShort)),
    }
    let frame = Frame::of(std::mem::replace(octets, Vec::new(alloc)));
    let event = Event::Send { frame, now };
    let answer = node.step(&event);
    *octets = list_of(alloc, event);
    answer
}

// Octets come in at a port, which its framing reads.
fn receive_at<R: Role>(
    node: &mut NodeOf<R>,
    port: Port,
    octets: &[u8],
    now: u64,
) -> Result<Option<Outlets>, StepFault>
    ensures { TakesOctets arrival_answer (carriage (R.meaning node.old.role).kind port)
        (state_of R.meaning node.old) port octets.now now result (state_of R.meaning node.new) }
{
    match framing_at(node.kind(), port) {
        PortFraming::Plain(framing) => node.receive(&framing, port, octets, now),
        PortFraming::Hsr(framing) => node.receive(&framing, port, octets, now),
        PortFraming::Prp(framing) => node.receive(&framing, port, octets, now),
    }
}

impl Endpoint {
    /// A new node, whose tables have these keys. NoMemory: an allocation failed.
    pub fn new(alloc: Global, setup: &Setup, keys: Keys) -> Result<Endpoint, NoMemory>
        ensures begun { IfOk result (λ e. state_by e ≡ new_state setup.now) }
        ensures uncounted { IfOk result (λ e. (e.counters ≡ no_traffic) × (e.log ≡ no_alarms)) }
    {
        let sending = room(alloc)?;
        let frame = room(alloc)?;
        let role = AnyRole::new(alloc, setup.kind, setup.mac, keys);
        let node = NodeOf::with_keys(alloc, role, setup.settings, keys)?;
        Ok(Endpoint {
            node,
            counters: Counters::none(),
            log: AlarmLog::new(alloc),
            alloc,
            sending,
            frame,
        })
    }

    /// Octets come in at a port, and are counted there.
    pub fn receive(
        &mut self,
        port: Port,
        octets: &[u8],
        now: u64,
    ) -> Result<Option<Outlets>, StepFault>
        ensures takes { TakesOctets arrival_answer (carriage (state_by self.old).role.kind port)
            (state_by self.old) port octets.now now result (state_by self.new) }
        ensures counted { self.new.counters ≡ after_reception self.old.counters port result }
        ensures unlogged { self.new.log ≡ self.old.log }
    {
        let outcome = receive_at(&mut self.node, port, octets, now);
        self.counters.count_reception(port, &outcome);
        outcome
    }

    // The host sends octets.
    fn send_uncounted(&mut self, octets: &[u8], now: u64) -> Result<Answer, StepFault>
        ensures takes { result ≢ Err StepFault.NoMemory → TakesEvent (state_by self.old)
            (event.Send octets.now now) result (state_by self.new) }
        ensures same { OnErr result (state_by self.new ≡ state_by self.old) }
        ensures uncounted { self.new.counters ≡ self.old.counters }
        ensures unlogged { self.new.log ≡ self.old.log }
    {
        refill(&mut self.sending, octets)?;
        send_list(self.alloc, &mut self.node, &mut self.sending, now)
    }

    /// The host sends octets, and they are counted at its port. NoMemory comes where an allocation failed, also before another fault
    /// was looked for.
    pub fn send(&mut self, octets: &[u8], now: u64) -> Result<Answer, StepFault>
        ensures takes { result ≢ Err StepFault.NoMemory → TakesEvent (state_by self.old)
            (event.Send octets.now now) result (state_by self.new) }
        ensures same { OnErr result (state_by self.new ≡ state_by self.old) }
        ensures counted { self.new.counters ≡ after_arrival self.old.counters Port.H result }
        ensures unlogged { self.new.log ≡ self.old.log }
    {
        let outcome = self.send_uncounted(octets, now);
        self.counters.count_arrival(Port::H, &outcome);
        outcome
    }

    // Looks at the alarms, where memory is to be had.
    fn note_alarms(&mut self)
        ensures same { state_by self.new ≡ state_by self.old }
        ensures uncounted { self.new.counters ≡ self.old.counters }
        ensures looked { Looks (state_by self.old).core.nodes.alarms self.old.log self.new.log }
    {
        if let Ok(alarms) = self.node.alarms() {
            self.log.look(alarms);
        }
    }

    /// Time passes. The alarms that are raised are counted, unless an allocation fails: then a later look at them does it.
    pub fn tick(&mut self, now: u64) -> Result<Answer, StepFault>
        ensures takes { TakesEvent (state_by self.old) (event.Tick now) result (state_by self.new) }
        ensures uncounted { self.new.counters ≡ self.old.counters }
        ensures looked { Looks (state_by self.new).core.nodes.alarms self.old.log self.new.log }
    {
        let outcome = self.node.step(&Event::Tick { now });
        self.note_alarms();
        outcome
    }
}
