//! A node at work on a script of events: at the end is printed what it knows of other nodes, and what was counted of the lines.

use crate::count_lines::append_counts;
use crate::counts::Counts;
use crate::node_session::NodeSession;
use crate::status_lines::tell_status;
use crate::tallying::tally;
use sr_forwarding::Role;
use sr_session::{FaultKind, Session};
use sr_text::Text;

/// A node at work on a script, of whose lines frames and refusals are counted.
#[derive(Drop)]
pub(crate) struct TallySession<P: Role> {
    pub(crate) at_work: NodeSession<P>,
    pub(crate) counts: Counts,
}

impl<P: Role> Session for TallySession<P> {
    ghost use Rattle.sr_node.specs.States.{state_of};
    ghost use Rattle.sr_script.specs.Stations.{at_work};
    ghost use Rattle.sr_script.specs.Tallies.{Tally, with_counts, tally_dialogue};

    ghost State = { Tally };

    ghost state = { λ s. with_counts
        (at_work s.at_work.role (state_of P.meaning s.at_work.node))
        s.counts };

    ghost dialogue = { tally_dialogue };

    fn answer(&mut self, number: u64, line: &[u8], text: &mut Text) -> Result<(), FaultKind> {
        let at_work = &mut self.at_work;
        tally(
            at_work.alloc,
            at_work.role,
            &mut at_work.node,
            &mut self.counts,
            number,
            line,
            &mut at_work.octets,
            text,
        )
    }

    fn finish(&self, text: &mut Vec<u8>) -> Result<(), FaultKind> {
        tell_status(&self.at_work.node, text)?;
        append_counts(text, self.at_work.role, &self.at_work.node, &self.counts)
    }
}
