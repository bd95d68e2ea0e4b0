//! A node at work on a script of events: at the end is printed what it knows of other nodes.

use crate::answering::{Parcels, answer};
use crate::node_session::NodeSession;
use crate::status_lines::tell_status;
use sr_forwarding::Role;
use sr_session::{FaultKind, Session};
use sr_text::Text;

/// A node at work on a script, whose frames are not printed.
#[derive(Drop)]
pub(crate) struct StatusSession<P: Role>(pub(crate) NodeSession<P>);

impl<P: Role> Session for StatusSession<P> {
    ghost use Rattle.sr_node.specs.Images.{node_state};
    ghost use Rattle.sr_script.specs.Stations.{Station};
    ghost use Rattle.sr_script.specs.Statuses.{status_dialogue};

    ghost State = { Station };

    ghost state = { λ s. record {
      role = s.0.role;
      node = node_state (P.meaning s.0.node.role) s.0.node.core;
    } };

    ghost dialogue = { status_dialogue };

    fn answer(&mut self, number: u64, line: &[u8], text: &mut Text) -> Result<(), FaultKind> {
        let at_work = &mut self.0;
        answer(
            at_work.alloc,
            at_work.role,
            Parcels::Dropped,
            &mut at_work.node,
            number,
            line,
            &mut at_work.octets,
            &mut at_work.frame,
            text,
        )
    }

    fn finish(&self, text: &mut Vec<u8>) -> Result<(), FaultKind> {
        tell_status(&self.0.node, text)
    }
}
