//! What a script does is a run.

ghost use Rattle.sr_laws_script.specs.NodeScripts.{NodeScriptsAreRuns, ScriptsPrintEachOnce};
ghost use Rattle.sr_laws_script.specs.PlantScripts.{PlantScriptsAreRuns};
ghost use Rattle.sr_laws_script.specs.StatusScripts.{StatusScriptsAreRuns, StatusesTellWhatWasHeard};

use sr_laws_node::{
    each_frame_goes_out_once, status_is_of_what_was_heard, what_waits_can_be_taken,
};
use sr_laws_plant_runs::runs_with_all_taken_are_runs;
use sr_plant_script::setups_make_plants;

/// What comes of the lines of a script of a node, as `run` answers them, is a run of the node. Its turns are the events that
/// the lines ask for and the node takes, and after each the takes of all that waits, outlet by outlet. What is printed is,
/// piece by piece, of each parcel that was taken out at an outlet a line with the octets that the outlet's framing writes,
/// and the lines that tell refusals. At the end nothing waits.
///
/// It holds for every numbering: whichever whole numbers the 16 bits of the frames that came in stand for. All is said along
/// the answers to the lines, so that nothing in it is left open.
pub fn node_scripts_are_runs()
    ensures { NodeScriptsAreRuns }
{
    what_waits_can_be_taken();
}

/// So what a script prints at each outlet is, in order, what came in and is wanted there, each pair of source and number
/// once: where the numbering makes the run steady.
pub fn scripts_print_each_frame_once()
    ensures { ScriptsPrintEachOnce }
{
    what_waits_can_be_taken();
    each_frame_goes_out_once();
}

/// What comes of the lines of a script of a node at whose end the status is told, as `run_status` answers them, is a run of
/// the node, with the same turns.
pub fn status_scripts_are_runs()
    ensures { StatusScriptsAreRuns }
{
    what_waits_can_be_taken();
}

/// So what such a script tells of each address is what the node heard of it in that run since its last silence.
pub fn statuses_tell_what_was_heard()
    ensures { StatusesTellWhatWasHeard }
{
    what_waits_can_be_taken();
    status_is_of_what_was_heard();
}

/// What comes of the lines of a script of a network, as `run_plant` answers them, is a run of the network from which what
/// nodes handed up is taken away after each event, and of which all that was ever handed up is what a run hands up from
/// which nothing is taken away.
///
/// The turns of the run are the events that the lines ask for and the network takes, in the order of the lines, a flow's
/// carries among them. What is printed is, piece by piece, what was handed up at each turn, node by node, and the lines that
/// tell refusals and counts. All this is said along the answers to the lines, so that nothing in it is left open.
pub fn plant_scripts_are_runs()
    ensures { PlantScriptsAreRuns }
{
    setups_make_plants();
    runs_with_all_taken_are_runs();
}
