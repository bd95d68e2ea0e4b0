//! A node at work on a script of events: what it puts out is printed.

use crate::answering::{Parcels, answer, answer_unended};
use sr_forwarding::{Role, RoleKind};
use sr_node::NodeOf;
use sr_session::{FaultKind, Session};
use sr_text::Text;
use std::alloc::Global;

/// A node at work on a script.
#[derive(Drop)]
pub(crate) struct NodeSession<P: Role> {
    pub(crate) alloc: Global,
    pub(crate) role: RoleKind,
    pub(crate) node: NodeOf<P>,
    // The octets of a line, in a list that is used again.
    pub(crate) octets: Vec<u8>,
    // The octets of a line at the front of what was read, at the front of a list with room for those of the longest line.
    pub(crate) arriving: Vec<u8>,
    // A frame that is written anew, in a list that is used again.
    pub(crate) frame: Vec<u8>,
}

impl<P: Role> Session for NodeSession<P> {
    ghost use Rattle.sr_node.specs.States.{state_of};
    ghost use Rattle.sr_script.specs.Stations.{Station};
    ghost use Rattle.sr_script.specs.Replies.{replay_dialogue};

    ghost State = { Station };

    ghost state = { λ s. record {
      role = s.role;
      node = state_of P.meaning s.node;
    } };

    ghost dialogue = { replay_dialogue };

    fn answer(&mut self, number: u64, line: &[u8], text: &mut Text) -> Result<(), FaultKind> {
        answer(
            self.alloc,
            self.role,
            Parcels::Printed,
            &mut self.node,
            number,
            line,
            &mut self.octets,
            &mut self.frame,
            text,
        )
    }

    fn answer_unended(
        &mut self,
        number: u64,
        front: &[u8],
        text: &mut Text,
    ) -> Result<Option<usize>, FaultKind> {
        answer_unended(self, number, front, text)
    }

    fn finish(&self, _text: &mut Vec<u8>) -> Result<(), FaultKind> {
        Ok(())
    }
}
