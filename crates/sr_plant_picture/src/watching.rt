//! A plant at work, and a chart of what becomes of its copies.

ghost use Rattle.std.specs.Prelude.{◌≡◌, ◌≤◌, IfErr};
ghost use Rattle.sr_plant.specs.Limits.{most_members};

use crate::flights::{Flights, Flying};
use crate::layout::{link_count, places_of, shape_of};
use crate::network::Network;
use crate::receivers::those_of;
use crate::ways::way_from;
use sr_chart::{Chart, Deed, Fate};
use sr_frame::Port;
use sr_plant::{PlantEvent, PlantFault, Topology};
use sr_plant_script::PlantSetup;
use sr_script::name_of;
use sr_session::FaultKind;
use std::alloc::{AllocError, Global};

/// A plant, and the chart of its run.
#[derive(Drop)]
pub(crate) struct Watch {
    topology: Topology,
    nodes: usize,
    network: Network,
    // Of each link, whether it is cut.
    cut: Vec<bool>,
    flights: Flights,
    chart: Chart,
    // The receivers of what a node puts out, in a list that is used again.
    receivers: Vec<usize>,
}

/// What a node does at an event: which node it is, and of which copy that came in at it.
#[derive(Clone, Copy)]
struct Acting {
    node: usize,
    // None: the node sends.
    came: Option<Flying>,
}

/// A refusal that has no name: an allocation of the plant or of a node failed.
#[derive(Clone, Copy)]
struct Nameless;

impl From<Nameless> for FaultKind {
    ghost use Rattle.sr_session.specs.declared.fault.FaultKind.TheVariants.{Memory};

    ghost from_gives = { λ _ kind. kind ≡ Memory };

    fn from(_refusal: Nameless) -> FaultKind {
        FaultKind::Memory
    }
}

/// What a refusal is called. None: an allocation failed.
fn refusal_of(fault: PlantFault) -> Option<&'static str> {
    match fault {
        PlantFault::NoSuchNode => Some("NoSuchNode"),
        PlantFault::NoSuchCopy => Some("NoSuchCopy"),
        PlantFault::ClockBack => Some("ClockBack"),
        PlantFault::Node(fault) => name_of(fault),
        PlantFault::BadPlant => Some("BadPlant"),
        PlantFault::NoMemory => None,
    }
}

impl Watch {
    /// A new plant, and a chart without an event.
    ///
    /// # Errors
    /// `NoMemory`.
    pub(crate) fn new(alloc: Global, setup: &PlantSetup) -> Result<Watch, PlantFault> {
        let topology = setup.topology;
        let nodes = setup.nodes;
        let cut = Vec::from_elem(alloc, false, link_count(topology, nodes))?;
        let network = Network::new(alloc, setup)?;
        Ok(Watch {
            topology,
            nodes,
            network,
            cut,
            flights: Flights::new(alloc),
            chart: Chart::new(alloc, shape_of(topology, nodes)),
            receivers: Vec::new(alloc),
        })
    }

    /// How many nodes the plant has.
    pub(crate) fn node_count(&self) -> usize
        ensures { result ≤ most_members }
    {
        self.network.node_count()
    }

    /// How many copies are in flight.
    pub(crate) fn in_flight(&self) -> usize {
        self.network.in_flight()
    }

    /// The chart.
    pub(crate) fn chart(&self) -> &Chart {
        &self.chart
    }

    /// The copies in flight.
    pub(crate) fn flights(&self) -> &Flights {
        &self.flights
    }

    /// Whether a link is cut.
    fn is_cut(&self, link: usize) -> bool {
        match self.cut.get(link) {
            Some(is_cut) => *is_cut,
            None => false,
        }
    }

    /// Mends all links that are cut, so that all that a node puts out is to be seen.
    fn open_links(&mut self) {
        for link in 0..self.cut.len() {
            if self.is_cut(link) {
                let _ = self.network.apply(&PlantEvent::Mend(link));
            }
        }
    }

    /// Cuts the links again that are cut.
    fn close_links(&mut self) {
        for link in 0..self.cut.len() {
            if self.is_cut(link) {
                let _ = self.network.apply(&PlantEvent::Cut(link));
            }
        }
    }

    /// Puts a copy in flight, or draws that the link before or behind it is cut.
    fn put(&mut self, flying: Flying) -> Result<(), AllocError> {
        let row = self.chart.row();
        let way = flying.way;
        if self.is_cut(way.first) {
            return self.chart.add_arrow(flying.arrow(row, Fate::StoppedFirst));
        }
        match way.second {
            Some(second) if self.is_cut(second) => {
                self.chart.add_arrow(flying.arrow(row, Fate::StoppedLast))
            }
            _ => self.flights.add(flying),
        }
    }

    /// Puts out the copies of a frame at an outlet of a node.
    fn put_all(&mut self, node: usize, outlet: Port, frame: usize) -> Result<(), AllocError> {
        let start = self.chart.row();
        for to in 0..self.nodes {
            if let Some(way) = way_from(self.topology, self.nodes, node, outlet, to) {
                self.put(Flying {
                    frame,
                    from: node,
                    outlet,
                    way,
                    start,
                })?;
            }
        }
        Ok(())
    }

    /// Notes the receivers of the copies from a place on.
    fn note_receivers(&mut self, first: usize) -> Result<(), AllocError> {
        self.receivers.clear();
        for place in first..self.network.in_flight() {
            if let Some(receiver) = self.network.receiver(place) {
                self.receivers.extend_from_slice(&[receiver])?;
            }
        }
        Ok(())
    }

    /// The frame of what a node does: that of the copy that came in, or a new one.
    fn frame_of(&mut self, acting: Acting) -> Result<usize, AllocError> {
        match acting.came {
            Some(flying) => Ok(flying.frame),
            None => self.chart.add_frame(acting.node),
        }
    }

    /// How many of the receivers from a place on are those of an outlet of a node.
    fn count_at(&self, node: usize, outlet: Port, first: usize) -> Option<usize> {
        let receivers = self.receivers.as_slice();
        those_of(self.topology, self.nodes, node, outlet, receivers, first)
    }

    /// Draws what a node put out: the copies from a place on. A node puts nothing out where the copy came in.
    fn draw_put(&mut self, acting: Acting, frame: usize) -> Result<(), AllocError> {
        let mut seen: usize = 0;
        for outlet in [Port::A, Port::B, Port::C] {
            let is_inlet = match acting.came {
                Some(flying) => flying.way.inlet == outlet,
                None => false,
            };
            if is_inlet {
                continue;
            }
            let Some(count) = self.count_at(acting.node, outlet, seen) else {
                continue;
            };
            if count > 0 {
                seen = seen.saturating_add(count);
                self.put_all(acting.node, outlet, frame)?;
            }
        }
        Ok(())
    }

    /// Draws what a node handed up, and lets it go.
    fn draw_up(&mut self, node: usize, frame: usize) -> Result<(), AllocError> {
        if node >= self.network.host_count() {
            return Ok(());
        }
        let count = self.network.handed_of(node).len();
        self.network.let_go_of(node);
        for _ in 0..count {
            self.chart.add_up(node, frame)?;
        }
        Ok(())
    }

    /// Draws what a node did, whose copies stand from a place on.
    fn draw_act(&mut self, acting: Acting, first: usize) -> Result<(), AllocError> {
        self.note_receivers(first)?;
        if acting.came.is_none() && self.receivers.is_empty() {
            return Ok(());
        }
        let frame = self.frame_of(acting)?;
        self.draw_put(acting, frame)?;
        self.draw_up(acting.node, frame)
    }

    /// Draws that the copy at a place ended so.
    fn draw_end(&mut self, place: usize, fate: Fate) -> Result<(), AllocError> {
        let row = self.chart.row();
        if let Some(flying) = self.flights.get(place) {
            self.chart.add_arrow(flying.arrow(row, fate))?;
        }
        self.flights.remove(place);
        Ok(())
    }

    /// Draws that a copy is doubled.
    fn draw_double(&mut self, place: usize) -> Result<(), AllocError> {
        let start = self.chart.row();
        match self.flights.get(place) {
            Some(flying) => self.flights.add(Flying { start, ..flying }),
            None => Ok(()),
        }
    }

    /// Draws that a link is cut.
    fn draw_cut(&mut self, link: usize) -> Result<(), AllocError> {
        self.flights.cut(link, &mut self.chart)?;
        if self.is_cut(link) {
            return Ok(());
        }
        if let Some(is_cut) = self.cut.get_mut(link) {
            *is_cut = true;
        }
        let places = places_of(self.topology, self.nodes, link);
        self.chart.add_cut(link, places.place)?;
        match places.other {
            Some(other) => self.chart.add_cut(link, other),
            None => Ok(()),
        }
    }

    /// Draws that a link is mended.
    fn draw_mend(&mut self, link: usize) {
        if let Some(is_cut) = self.cut.get_mut(link) {
            *is_cut = false;
        }
        self.chart.end_cut(link);
    }

    /// Draws an event that the plant took. Before it so many copies were in flight.
    fn draw(&mut self, event: &PlantEvent, before: usize) -> Result<(), AllocError> {
        match event {
            PlantEvent::Send { node, .. } | PlantEvent::Tick { node, .. } => {
                let acting = Acting {
                    node: *node,
                    came: None,
                };
                self.draw_act(acting, before)
            }
            PlantEvent::Carry(place) => {
                let came = self.flights.get(*place);
                self.draw_end(*place, Fate::Arrived)?;
                match came {
                    Some(flying) => {
                        let acting = Acting {
                            node: flying.way.to,
                            came,
                        };
                        self.draw_act(acting, before.saturating_sub(1))
                    }
                    None => Ok(()),
                }
            }
            PlantEvent::Drop(place) => self.draw_end(*place, Fate::Dropped),
            PlantEvent::Repeat(place) => self.draw_double(*place),
            PlantEvent::Cut(link) => self.draw_cut(*link),
            PlantEvent::Mend(link) => {
                self.draw_mend(*link);
                Ok(())
            }
        }
    }

    /// Draws that an event is refused.
    fn draw_refusal(&mut self, number: u64, deed: Deed, fault: PlantFault) -> Result<(), FaultKind>
        ensures { IfErr result (λ kind. kind ≡ FaultKind.Memory) }
    {
        let name = refusal_of(fault).ok_or(Nameless)?;
        self.chart.add_event(number, deed, Some(name))?;
        Ok(())
    }

    /// An event of the line with this number happens, and is drawn; or it is refused, which is drawn too.
    fn show(&mut self, number: u64, event: &PlantEvent, deed: Deed) -> Result<(), FaultKind>
        ensures { IfErr result (λ kind. kind ≡ FaultKind.Memory) }
    {
        let before = self.network.in_flight();
        self.open_links();
        let result = self.network.apply(event);
        if let Err(fault) = result {
            self.close_links();
            return self.draw_refusal(number, deed, fault);
        }
        self.chart.add_event(number, deed, None)?;
        self.draw(event, before)?;
        self.close_links();
        Ok(())
    }

    /// An event happens, or is refused, and is not drawn.
    fn leave_out(&mut self, event: &PlantEvent) -> Result<(), FaultKind>
        ensures { IfErr result (λ kind. kind ≡ FaultKind.Memory) }
    {
        self.chart.leave_out();
        let host = self.network.host_of(event);
        if let Err(fault) = self.network.apply(event) {
            let _name = refusal_of(fault).ok_or(Nameless)?;
            return Ok(());
        }
        if let Some(node) = host {
            if node < self.network.host_count() {
                self.network.let_go_of(node);
            }
        }
        Ok(())
    }

    /// An event of the line with this number happens, or is refused. It is drawn where the chart has room for it.
    pub(crate) fn happen(
        &mut self,
        number: u64,
        event: &PlantEvent,
        deed: Deed,
    ) -> Result<(), FaultKind>
        ensures { IfErr result (λ kind. kind ≡ FaultKind.Memory) }
    {
        if self.chart.is_full() {
            self.leave_out(event)
        } else {
            self.show(number, event, deed)
        }
    }

    /// An event of the line with this number is refused before the plant is asked.
    pub(crate) fn refuse(
        &mut self,
        number: u64,
        deed: Deed,
        fault: PlantFault,
    ) -> Result<(), FaultKind>
        ensures { IfErr result (λ kind. kind ≡ FaultKind.Memory) }
    {
        if self.chart.is_full() {
            self.chart.leave_out();
            return Ok(());
        }
        self.draw_refusal(number, deed, fault)
    }
}
