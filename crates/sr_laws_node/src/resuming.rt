//! Laws over nodes that are resumed with what a table had noted.

ghost use Rattle.sr_laws_node.specs.Origins.{CanBeResumedWith};
ghost use Rattle.sr_laws_node.specs.ResumedExamples.{LaterFramesGoUp, RepeatsAreHeldBack};

use sr_dup_table::DupTable;
use sr_dup_table::join_laws::tables_are_sound;

/// With every table a run of a resumed node can begin, whatever the role and the mode: its state is the one in which `resumed`
/// leaves the node, under every choice of the whole numbers for which the 16 bits of the table stand.
pub fn every_table_can_be_resumed_with(table: &DupTable)
    ensures { CanBeResumedWith table.now.width table.now.sources }
{
    tables_are_sound(table);
}

/// Where a node is resumed with a number that was handed up, a copy of that frame that comes in within 400 ms goes up to
/// nobody; a frame with the same 16 bits that comes in at 400 ms or later is another one, and goes up where it is wanted. Both
/// runs are steady, so the premises of `each_frame_goes_out_once` can be met.
pub fn a_resumed_node_goes_on()
    ensures repeats { RepeatsAreHeldBack }
    ensures later { LaterFramesGoUp }
{}
