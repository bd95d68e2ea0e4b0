//! What a frame that comes in makes known of other nodes.

ghost use Rattle.std.specs.Prelude.{◌≡◌, ◌||◌, true, not, is_some};
ghost use Rattle.sr_forwarding.specs.Octets.{is_supervision};
ghost use Rattle.sr_forwarding.specs.Parcels.{plain_of};
ghost use Rattle.sr_forwarding.specs.RoleImages.{owned};
ghost use Rattle.sr_node.specs.Hearing.{SaysOf, is_network, number_heard, announced};
ghost use Rattle.sr_node.specs.Plans.{IsWanted, IsObserved, IsOfNetwork};
ghost use Rattle.sr_node.specs.States.{state_of};
ghost use Rattle.sr_slots.specs.Places.{IsFound};

use crate::NodeOf;
use crate::passing::Arrival;
use bitflags::Flags;
use sr_forwarding::{Header, ParcelView, Role};
use sr_frame::Port;
use sr_sequence::Seq;
use sr_slots::Hint;
use sr_supervision::{Supervision, read};

/// What a frame that comes in makes known of other nodes.
#[derive(Clone, Copy)]
pub(crate) struct Observations {
    /// The number under which its source is observed, if it is.
    pub(crate) number: Option<Seq>,
    /// Where the entry of its source was found.
    pub(crate) source: Option<Hint>,
    /// What it announces, if anything.
    pub(crate) announced: Option<Supervision>,
    /// Where the entry of the announced node was found.
    pub(crate) node: Option<Hint>,
}

impl Observations {
    /// Whether its source is not observed, or has an entry: then it takes nobody's place.
    pub(crate) fn takes_no_place(&self) -> bool
        ensures { result ≡ (not (is_some self.now.number) || is_some self.now.source) }
    {
        self.number.is_none() || self.source.is_some()
    }
}

/// What a frame with this header says, if it is supervision that can be read.
// speed: D-node-inlined
#[inline(always)]
pub(crate) fn said_by(parcel: &ParcelView<'_>, header: &Header) -> Option<Supervision>
    requires { header.now.supervision ≡ is_supervision (plain_of parcel.now) }
    ensures { SaysOf parcel.now result }
{
    if !header.supervision {
        return None;
    }
    match read(&parcel.plain()) {
        Ok(said) => Some(said),
        Err(_) => None,
    }
}

// Whether this is a port of the networks.
fn is_network(port: Port) -> bool
    ensures { result ≡ is_network port }
{
    match port {
        Port::A | Port::B => true,
        Port::H | Port::C => false,
    }
}

impl<R: Role> NodeOf<R> {
    // Whether the role owns the source of a frame. It is asked only where its routes don't tell.
    // speed: D-node-inlined
    #[tactic(auto, using(crate::proofs::HearingLemmas::owned_where_unwanted))]
    #[inline(always)]
    fn owns_source(&self, arrival: &Arrival<'_>) -> bool
        requires network { is_network arrival.now.inlet ≡ true }
        requires wanted { IsWanted (state_of R.meaning self.now) arrival.now }
        ensures { result
            ≡ owned (R.meaning self.now.role) arrival.now.header.now.src arrival.now.moment }
    {
        if self.role.kind().drops_only_own_sources() {
            arrival.wanted.is_empty()
        } else {
            self.role.owns(arrival.header.src, arrival.moment)
        }
    }

    // The number under which the source of a frame is observed, if it is.
    // speed: D-node-inlined
    #[inline(always)]
    fn observed_number(&self, arrival: &Arrival<'_>) -> Option<Seq>
        requires { IsWanted (state_of R.meaning self.now) arrival.now }
        ensures { result ≡ number_heard (R.meaning self.now.role) arrival.now.inlet
            arrival.now.header.now.src arrival.now.header.now.seq arrival.now.moment }
    {
        if is_network(arrival.inlet) && !self.owns_source(arrival) {
            arrival.header.seq
        } else {
            None
        }
    }

    // What a frame announces that says this.
    // speed: D-node-inlined
    #[inline(always)]
    fn announced(&self, arrival: &Arrival<'_>, said: Option<Supervision>) -> Option<Supervision>
        ensures { result ≡ announced (R.meaning self.now.role) arrival.now.inlet
            arrival.now.header.now.seq said }
    {
        let said = said?;
        if is_network(arrival.inlet)
            && arrival.header.seq.is_some()
            && said.mac != self.role.mac()
        {
            Some(said)
        } else {
            None
        }
    }

    /// What a frame that says this makes known: its source, and the node that its supervision describes. The entry of its source
    /// is looked for first where its record was found: as a rule both tables met their addresses in one order.
    // speed: D-node-inlined
    #[inline(always)]
    pub(crate) fn observations(
        &self,
        arrival: &Arrival<'_>,
        hint: Option<Hint>,
        said: Option<Supervision>,
    ) -> Observations
        requires { IsWanted (state_of R.meaning self.now) arrival.now }
        ensures observed { IsObserved (state_of R.meaning self.now) arrival.now said result }
        ensures source { IsFound result.source self.now.core.nodes.table.entries
            arrival.now.header.now.src }
        ensures network { IsOfNetwork arrival.now.inlet result }
    {
        let src = arrival.header.src;
        let number = self.observed_number(arrival);
        let source = match number {
            Some(_) => self.core.nodes().find_at(hint, src),
            None => None,
        };
        let Some(said) = self.announced(arrival, said) else {
            return Observations {
                number,
                source,
                announced: None,
                node: None,
            };
        };
        let node = if said.mac == src && number.is_some() {
            source
        } else {
            self.core.nodes().find_at(None, said.mac)
        };
        Observations {
            number,
            source,
            announced: Some(said),
            node,
        }
    }
}
