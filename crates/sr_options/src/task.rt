//! What the program is to do.

use crate::audit_line::AuditTask;
use crate::merge_line::MergeTask;
use crate::node_line::NodeTask;
use crate::plant_line::{PlantTask, ThreadsTask};
use crate::script_line::ScriptTask;
use crate::watch_line::WatchTask;

/// What the program is to do, by its words: a subcommand, and what its options say.
#[derive(Clone, Copy, Debug)]
pub enum Task<'a> {
    /// Run a script on a node, and print the frames that it hands out.
    Replay(NodeTask),
    /// Run a script on a node, and print what it knows of other nodes at the end.
    Status(NodeTask),
    /// Run a script on a node, and print what it knows of other nodes at the end, and what was counted.
    Tally(NodeTask),
    /// Print a script of captures.
    Script(ScriptTask<'a>),
    /// Print the figures of captures.
    Audit(AuditTask<'a>),
    /// Write captures as one.
    Merge(MergeTask<'a>),
    /// Tell what captures say while they grow.
    Watch(WatchTask<'a>),
    /// Run a script on a network.
    Plant(PlantTask),
    /// Run what a script sends on a network whose nodes run on threads.
    Threads(ThreadsTask),
}
