//! The words behind `seamless ring-lan` and `seamless two-rings`.

ghost use Rattle.std.specs.Prelude.{IfOk};
ghost use Rattle.sr_options.specs.Tasks.{ShapeKeepsRules};

use crate::command_line::with_arg;
use crate::counts::{boxed_nodes_in, lan_nodes_in, nodes_in};
use crate::examples;
use crate::fault::OptionFault;
use crate::node_options::{node_options_of, with_node_options};
use crate::plant_format::{format_of, format_option};
use crate::plant_line::{PlantTask, Shape};
use crate::words::Words;
use clap::{Arg, ArgMatches, Command};
use std::alloc::{AllocError, Global};

/// How many links join two rings.
#[derive(Clone, Copy, Debug, PartialEq, Eq)]
pub enum Joins {
    /// One, from the first node of the one ring to the first of the other.
    One,
    /// Two, from the first two nodes of the one to the first two of the other.
    Two,
}

/// What the parser knows of `ring-lan`: `--ring 3..16 --lan 1..14 [--format FORMAT]`.
pub(crate) fn ring_lan_command<'a>(
    alloc: Global,
    words: &'a Words<'a>,
) -> Result<Command<'a>, AllocError> {
    let ring = Arg::new(alloc, "ring")
        .long("ring")
        .required(true)
        .value_name("3..16")
        .value_parser(clap::value_parser!(u8).range(3..=16))
        .help("How many nodes the ring has; nodes 0 and 1 are the boxes of LAN A and LAN B");
    let lan = Arg::new(alloc, "lan")
        .long("lan")
        .required(true)
        .value_name("1..14")
        .value_parser(clap::value_parser!(u8).range(1..=14))
        .help("How many nodes the LANs have behind the boxes");
    let command = Command::new(alloc, "ring-lan")
        .about("Runs a script on a ring and two LANs that RedBoxes join with it")
        .after_help(examples::RING_LAN)
        .arg(ring);
    let command = with_arg(with_arg(command, lan), format_option(alloc));
    with_node_options(alloc, command, words)
}

/// What the parser knows of `two-rings`: `--left 2..16 --right 2..16 --joins 1..2 [--format FORMAT]`.
pub(crate) fn two_rings_command<'a>(
    alloc: Global,
    words: &'a Words<'a>,
) -> Result<Command<'a>, AllocError> {
    let left = Arg::new(alloc, "left")
        .long("left")
        .required(true)
        .value_name("2..16")
        .value_parser(clap::value_parser!(u8).range(2..=16))
        .help("How many nodes the left ring has");
    let right = Arg::new(alloc, "right")
        .long("right")
        .required(true)
        .value_name("2..16")
        .value_parser(clap::value_parser!(u8).range(2..=16))
        .help("How many nodes the right ring has");
    let joins = Arg::new(alloc, "joins")
        .long("joins")
        .required(true)
        .value_name("1..2")
        .value_parser(clap::value_parser!(u8).range(1..=2))
        .help("How many links join the rings; so many first nodes of each are boxes");
    let command = Command::new(alloc, "two-rings")
        .about("Runs a script on two rings that RedBoxes join")
        .after_help(examples::TWO_RINGS)
        .arg(left);
    let command = with_arg(with_arg(command, right), joins);
    let command = with_arg(command, format_option(alloc));
    with_node_options(alloc, command, words)
}

/// The ring with two LANs that the subcommand asks for.
pub(crate) fn ring_lan_of(matches: &ArgMatches<'_>) -> PlantTask
    ensures { ShapeKeepsRules result.shape }
{
    PlantTask {
        shape: Shape::RingLan(boxed_nodes_in(matches), lan_nodes_in(matches)),
        options: node_options_of(matches),
        format: format_of(matches),
    }
}

/// The two rings that the subcommand asks for. A fault where they have more joins than a ring has nodes less one.
pub(crate) fn two_rings_of(matches: &ArgMatches<'_>) -> Result<PlantTask, OptionFault>
    ensures { IfOk result (λ task. ShapeKeepsRules task.shape) }
{
    let left = nodes_in(matches, "left");
    let right = nodes_in(matches, "right");
    let joins = match matches.get_str("joins") {
        Some("2") => Joins::Two,
        _ => Joins::One,
    };
    if joins == Joins::Two && (left.count < 3 || right.count < 3) {
        return Err(OptionFault::Joins);
    }
    Ok(PlantTask {
        shape: Shape::TwoRings(left, right, joins),
        options: node_options_of(matches),
        format: format_of(matches),
    })
}
