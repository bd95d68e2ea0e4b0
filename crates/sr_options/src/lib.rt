//! The command line of the program: what its words ask for, as values.
#![tactic(auto)]

mod address;
mod audit_line;
mod captures_line;
mod command_line;
mod counts;
mod coupled_line;
mod examples;
mod fault;
mod merge_line;
mod node_line;
mod node_options;
mod page_words;
mod paths;
mod plant_format;
mod plant_line;
mod refusal;
mod script_line;
mod shifts;
mod task;
mod watch_line;
mod words;

pub use address::mac_of;
pub use audit_line::{AuditTask, Format, Lists, Ports, Times};
pub use captures_line::Network;
pub use command_line::{PROGRAM_VERSION, task_of};
pub use counts::{BoxedNodes, LanNodes, Nodes};
pub use coupled_line::Joins;
pub use fault::OptionFault;
pub use merge_line::{MergeTask, Scope, Spelling};
pub use node_line::NodeTask;
pub use node_options::{Mode, NodeOptions, Window};
pub use page_words::PageWords;
pub use paths::Paths;
pub use plant_format::{LineFormat, PlantFormat};
pub use plant_line::{Net, PlantTask, Shape, ThreadsTask};
pub use refusal::Refused;
pub use script_line::ScriptTask;
pub use shifts::Shift;
pub use task::Task;
pub use watch_line::{Bounds, WatchTask};
pub use words::Words;
