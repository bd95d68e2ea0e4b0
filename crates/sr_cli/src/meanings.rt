//! What the libraries of nodes and networks call what the command line asks for.

use sr_dup_table::Width;
use sr_node::{Mode, Settings};
use sr_options::{
    LineFormat, NodeOptions, NodeTask, PlantFormat, PlantTask, Shape, Task, ThreadsTask, Window,
};
use sr_plant_script::{Joins, PlantSetup};
use sr_script::Setup;
use sr_slots::Keys;
use sr_threaded_script::{ThreadedNet, ThreadedSetup};

/// The settings of nodes.
fn settings_of(options: NodeOptions) -> Settings {
    Settings {
        mode: match options.mode {
            sr_options::Mode::H => Mode::H,
            sr_options::Mode::X => Mode::X,
        },
        width: match options.window {
            Window::Narrow => Width::Narrow,
            Window::Wide => Width::Wide,
        },
    }
}

/// The node that is asked for, under fixed keys.
pub fn setup_of(task: &NodeTask) -> Setup {
    Setup {
        role: task.role,
        mac: task.mac,
        settings: settings_of(task.options),
        keys: Keys::FIXED,
    }
}

/// The network that is asked for.
pub fn plant_of(task: &PlantTask) -> PlantSetup {
    let settings = settings_of(task.options);
    match task.shape {
        Shape::Single(sr_options::Net::Ring, nodes) => PlantSetup::ring(nodes.count, settings),
        Shape::Single(sr_options::Net::TwinLan, nodes) => {
            PlantSetup::twin_lan(nodes.count, settings)
        }
        Shape::RingLan(ring, lan) => PlantSetup::ring_lan(ring.count, lan.count, settings),
        Shape::TwoRings(left, right, joins) => {
            let joins = match joins {
                sr_options::Joins::One => Joins::One,
                sr_options::Joins::Two => Joins::Two,
            };
            PlantSetup::two_rings(left.count, right.count, joins, settings)
        }
    }
}

/// The network on threads that is asked for.
pub fn threads_of(task: &ThreadsTask) -> ThreadedSetup {
    ThreadedSetup {
        net: match task.net {
            sr_options::Net::Ring => ThreadedNet::Ring,
            sr_options::Net::TwinLan => ThreadedNet::TwinLan,
        },
        nodes: task.nodes.count,
        settings: settings_of(task.options),
    }
}

/// How what is told on standard error is spelled: as objects where standard output has them, or what was merged is one.
pub fn told_format_of(task: &Task<'_>) -> LineFormat {
    match task {
        Task::Replay(task) => task.format,
        Task::Status(task) => task.format,
        Task::Tally(task) => task.format,
        Task::Script(task) => task.format,
        Task::Audit(task) => match task.format {
            sr_options::Format::Json => LineFormat::Json,
            _ => LineFormat::Text,
        },
        Task::Merge(task) => task.format,
        Task::Watch(task) => task.format,
        Task::Plant(task) => match task.format {
            PlantFormat::Lines(format) => format,
            PlantFormat::Svg => LineFormat::Text,
        },
        Task::Threads(task) => task.format,
    }
}
