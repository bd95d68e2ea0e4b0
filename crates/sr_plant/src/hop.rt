//! Where copies lead.

ghost use Rattle.std.specs.Prelude.{◌≡◌, ◌==◌};
ghost use Rattle.std.specs.List.{list_any};
ghost use Rattle.sr_plant.specs.Copies.{is_cut};
ghost use Rattle.sr_plant.specs.Flights.{hop_of};

use sr_frame::Port;

/// Where a copy leads: a port of a node, over one link of a ring, or over its sender's and its receiver's of a LAN.
#[derive(Clone, Copy)]
pub(crate) struct Hop {
    pub(crate) node: usize,
    pub(crate) port: Port,
    pub(crate) first: usize,
    pub(crate) second: Option<usize>,
}

impl Hop {
    /// Whether the hop goes over this link.
    pub(crate) fn is_on(&self, link: usize) -> bool
        ensures { result ≡ list_any (λ l. l == link) (hop_of self.now).links }
    {
        match self.second {
            Some(second) => self.first == link || second == link,
            None => self.first == link,
        }
    }

    /// Whether the hop goes over a link that is cut.
    pub(crate) fn is_stopped(&self, cut: &[bool]) -> bool
        ensures { result ≡ list_any (is_cut cut.now) (hop_of self.now).links }
    {
        match self.second {
            Some(second) => is_cut(cut, self.first) || is_cut(cut, second),
            None => is_cut(cut, self.first),
        }
    }
}

// Whether a link is cut.
fn is_cut(cut: &[bool], link: usize) -> bool
    ensures { result ≡ is_cut cut.now link }
{
    match cut.get(link) {
        Some(is_cut) => *is_cut,
        None => false,
    }
}
