//! What a node put out, by the nodes that its copies lead to.

use crate::ways::way_from;
use sr_frame::Port;
use sr_plant::Topology;

/// How many of these receivers from a place on, in this order, are all that an outlet of a node leads to. None where they do
/// not begin with these there.
pub(crate) fn those_of(
    topology: Topology,
    nodes: usize,
    node: usize,
    outlet: Port,
    receivers: &[usize],
    first: usize,
) -> Option<usize> {
    let mut count: usize = 0;
    for to in 0..nodes {
        if way_from(topology, nodes, node, outlet, to).is_some() {
            match receivers.get(first.saturating_add(count)) {
                Some(receiver) if *receiver == to => count = count.saturating_add(1),
                _ => return None,
            }
        }
    }
    Some(count)
}
