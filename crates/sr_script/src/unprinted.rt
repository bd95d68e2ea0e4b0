//! What waits at a node is taken, and not printed.

ghost use Rattle.std.specs.Prelude.{◌≡◌};
ghost use Rattle.sr_node.specs.States.{state_of};
ghost use Rattle.sr_script.specs.Replies.{emptied};
ghost use Rattle.sr_script.specs.Statuses.{all_taken};

use sr_forwarding::Role;
use sr_frame::Port;
use sr_node::NodeOf;

/// Takes all that waits at a port, and keeps none of it.
fn drop_waiting<R: Role>(node: &mut NodeOf<R>, port: Port)
    ensures { state_of R.meaning node.new ≡ emptied (state_of R.meaning node.old) port }
{
    'parcels: while node.waiting(port) > 0 {
        node.drop_first(port);
    }
}

/// Takes all that waits, and keeps none of it.
pub(crate) fn drop_all_waiting<R: Role>(node: &mut NodeOf<R>)
    ensures { state_of R.meaning node.new ≡ all_taken (state_of R.meaning node.old) }
{
    drop_waiting(node, Port::H);
    drop_waiting(node, Port::A);
    drop_waiting(node, Port::B);
    drop_waiting(node, Port::C);
}
