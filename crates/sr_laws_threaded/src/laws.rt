//! What is printed of a node on threads is what a run of that node hands up.

ghost use Rattle.sr_laws_threaded.specs.ReportLaws.{UpLinesWentOnce};

use sr_laws_ports::what_workers_took_out_goes_out_once;
use sr_threaded_script::Host;
use sr_workers::Feed;

/// Each `up` line of a settled node whose history is steady is a frame that went out once. In what `run_threaded` prints of a network, the
/// `up` lines of such a node are, in order, what its host's port writes of the frames that went up there in a run of the new node, each
/// pair of source and number once, but for what its host counts as lost; what went there and was not taken out waits there.
pub fn each_up_line_went_out_once()
    ensures { UpLinesWentOnce ⟦<Host as Feed>⟧ }
{
    what_workers_took_out_goes_out_once();
}
