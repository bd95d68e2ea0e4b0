//! The words behind `seamless ring` and `seamless lan`.

ghost use Rattle.std.specs.Prelude.{IfOk};
ghost use Rattle.sr_options.specs.Tasks.{KeepsRules};

use crate::command_line::with_arg;
use crate::counts::{BoxedNodes, LanNodes, Nodes, nodes_in};
use crate::coupled_line::Joins;
use crate::fault::OptionFault;
use crate::node_options::{NodeOptions, node_options_of, with_node_options};
use crate::plant_format::{LineFormat, PlantFormat, format_of, format_option};
use crate::task::Task;
use crate::words::Words;
use clap::{Arg, ArgMatches, Command};
use std::alloc::{AllocError, Global};

/// A network of one ring or of two LANs.
#[derive(Clone, Copy, Debug, PartialEq, Eq)]
pub enum Net {
    /// An HSR ring (IEC 62439-3 clause 5).
    Ring,
    /// The two LANs of a PRP network (IEC 62439-3 clause 4).
    TwinLan,
}

/// How the nodes of a network are joined, and how many there are.
#[derive(Clone, Copy, Debug)]
pub enum Shape {
    /// A network by itself.
    Single(Net, Nodes),
    /// A ring, and two LANs that RedBoxes join with it.
    RingLan(BoxedNodes, LanNodes),
    /// A left and a right ring that RedBoxes join.
    TwoRings(Nodes, Nodes, Joins),
}

/// The network that a script is run on.
#[derive(Clone, Copy, Debug)]
pub struct PlantTask {
    /// Its shape.
    pub shape: Shape,
    /// How its nodes work.
    pub options: NodeOptions,
    /// How the run is told.
    pub format: PlantFormat,
}

/// The network that a script is run on, with each node on threads.
#[derive(Clone, Copy, Debug)]
pub struct ThreadsTask {
    /// What the network is.
    pub net: Net,
    /// How many nodes it has.
    pub nodes: Nodes,
    /// How they work.
    pub options: NodeOptions,
    /// For how many turns each worker runs, 1 to 50,000.
    pub turns: u64,
    /// How the lines of the run are spelled.
    pub format: LineFormat,
}

/// What the parser knows of a subcommand for a plant: `--nodes 2..16 [--turns 1..50000] [--format FORMAT]`.
pub(crate) fn plant_command<'a>(
    alloc: Global,
    words: &'a Words<'a>,
    name: &'a str,
    about: &'a str,
    examples: &'a str,
) -> Result<Command<'a>, AllocError> {
    let nodes = Arg::new(alloc, "nodes")
        .long("nodes")
        .required(true)
        .value_name("2..16")
        .value_parser(clap::value_parser!(u8).range(2..=16))
        .help("How many nodes there are");
    let command = Command::new(alloc, name)
        .about(about)
        .after_help(examples)
        .arg(nodes);
    let command = with_arg(command, turns_option(alloc));
    let command = with_arg(command, format_option(alloc));
    with_node_options(alloc, command, words)
}

/// For how many turns the workers of each node run, each on a thread: `[--turns 1..50000]`.
fn turns_option<'a>(alloc: Global) -> Arg<'a> {
    Arg::new(alloc, "turns")
        .long("turns")
        .value_name("1..50000")
        .value_parser(clap::value_parser!(u16).range(1..=50000))
        .help("Runs each node on threads, for so many turns of each")
}

/// For how many turns threads run, by a word that the parser let through.
fn turns_of(word: &str) -> Option<u64> {
    word.parse::<u64>().ok()
}

/// What `ring` or `lan` asks for: to run the network by steps, or on threads. A fault where a run on threads is to be drawn.
pub(crate) fn network_task<'a>(net: Net, matches: &ArgMatches<'a>) -> Result<Task<'a>, OptionFault>
    ensures { IfOk result (λ task. KeepsRules task) }
{
    let nodes = nodes_in(matches, "nodes");
    let options = node_options_of(matches);
    let format = format_of(matches);
    match (matches.get_str("turns").and_then(turns_of), format) {
        (Some(turns), PlantFormat::Lines(format)) => Ok(Task::Threads(ThreadsTask {
            net,
            nodes,
            options,
            turns,
            format,
        })),
        (Some(_), PlantFormat::Svg) => Err(OptionFault::Drawn),
        (None, format) => Ok(Task::Plant(PlantTask {
            shape: Shape::Single(net, nodes),
            options,
            format,
        })),
    }
}
