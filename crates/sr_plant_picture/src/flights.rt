//! The copies in flight, as a chart knows them: in the order of the plant's.

use crate::ways::Way;
use sr_chart::{Arrow, Chart, Fate, Outlet};
use sr_frame::Port;
use std::alloc::{AllocError, Global};

/// A copy in flight.
#[derive(Clone, Copy)]
pub(crate) struct Flying {
    /// The place of its frame in the chart.
    pub(crate) frame: usize,
    /// The node that put it out, and where.
    pub(crate) from: usize,
    pub(crate) outlet: Port,
    /// Where it goes.
    pub(crate) way: Way,
    /// The row in which it was put out.
    pub(crate) start: usize,
}

/// An outlet, as charts have it.
fn outlet_of(port: Port) -> Outlet {
    match port {
        Port::B => Outlet::B,
        Port::C => Outlet::C,
        Port::A | Port::H => Outlet::A,
    }
}

impl Flying {
    /// The copy as an arrow that ends in this row.
    pub(crate) fn arrow(&self, end: usize, fate: Fate) -> Arrow {
        Arrow {
            frame: self.frame,
            outlet: outlet_of(self.outlet),
            from: self.from,
            to: self.way.to,
            start: self.start,
            end,
            path: self.way.path,
            fate,
        }
    }
}

/// The copies in flight.
#[derive(Drop)]
pub(crate) struct Flights {
    list: Vec<Flying>,
}

impl Flights {
    /// No copies.
    pub(crate) fn new(alloc: Global) -> Flights {
        Flights {
            list: Vec::new(alloc),
        }
    }

    /// Puts a copy behind all others.
    pub(crate) fn add(&mut self, flying: Flying) -> Result<(), AllocError> {
        self.list.extend_from_slice(&[flying])
    }

    /// The copy at a place.
    pub(crate) fn get(&self, place: usize) -> Option<Flying> {
        match self.list.get(place) {
            Some(flying) => Some(*flying),
            None => None,
        }
    }

    /// Takes the copy at a place out.
    pub(crate) fn remove(&mut self, place: usize) {
        if place < self.list.len() {
            let _ = self.list.remove(place);
        }
    }

    /// Takes all copies on a link out, and draws them: they are lost in the last row.
    pub(crate) fn cut(&mut self, link: usize, chart: &mut Chart) -> Result<(), AllocError> {
        let row = chart.row();
        let mut kept: usize = 0;
        for at in 0..self.list.len() {
            let Some(flying) = self.get(at) else {
                break;
            };
            if flying.way.is_on(link) {
                chart.add_arrow(flying.arrow(row, Fate::CutOff))?;
            } else {
                if let Some(slot) = self.list.get_mut(kept) {
                    *slot = flying;
                }
                kept = kept.saturating_add(1);
            }
        }
        self.list.truncate(kept);
        Ok(())
    }

    /// All copies as arrows that end in this row.
    pub(crate) fn arrows(&self, alloc: Global, end: usize) -> Result<Vec<Arrow>, AllocError> {
        let mut arrows = Vec::new(alloc);
        for flying in &self.list {
            arrows.extend_from_slice(&[flying.arrow(end, Fate::Flying)])?;
        }
        Ok(arrows)
    }
}
