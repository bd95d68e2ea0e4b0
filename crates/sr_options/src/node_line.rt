//! The options of a node: of `replay` and `status`.

ghost use Rattle.std.specs.Prelude.{IfOk};
ghost use Rattle.sr_options.specs.Tasks.{NamesOneNode, NodeKeepsRules};

use crate::address::mac_of;
use crate::command_line::with_arg;
use crate::fault::OptionFault;
use crate::node_options::{NodeOptions, node_options_of, with_node_options};
use crate::plant_format::{LineFormat, line_format_of, line_format_option};
use crate::refusal::Refused;
use crate::words::Words;
use clap::{Arg, ArgAction, ArgMatches, Command};
use sr_forwarding::{MAX_NET, NetId, RoleKind};
use sr_frame::Mac;
use sr_prp_trailer::Lan;
use std::alloc::{AllocError, Global};

/// The node that a script is run on.
#[derive(Clone, Copy, Debug)]
pub struct NodeTask {
    /// Its role, with the LAN and the network at the interlink where that is a PRP network's.
    pub role: RoleKind,
    /// Its address.
    pub mac: Mac,
    /// How it works.
    pub options: NodeOptions,
    /// How lines are spelled; the object of a status is one for all.
    pub format: LineFormat,
}

/// The role of a node: `--role danp|danh|san|prp|hsr`.
fn role_option<'a>(alloc: Global, words: &'a Words<'a>) -> Arg<'a> {
    Arg::new(alloc, "role")
        .long("role")
        .required(true)
        .value_name("ROLE")
        .value_parser(words.roles.as_slice())
        .help("The role of the node")
}

/// Its address: `--mac M`.
fn mac_option<'a>(alloc: Global) -> Arg<'a> {
    Arg::new(alloc, "mac")
        .long("mac")
        .required(true)
        .value_name("MAC")
        .help(
            "The address of the node: 020000000001 or 02:00:00:00:00:01, not one that sends in the captures",
        )
}

/// The LAN at its interlink: `[--lan a|b]`.
fn lan_option<'a>(alloc: Global, words: &'a Words<'a>) -> Arg<'a> {
    Arg::new(alloc, "lan")
        .long("lan")
        .default_value("a")
        .value_name("LAN")
        .value_parser(words.lans.as_slice())
        .help("The LAN at the interlink, of role prp")
}

/// The network at its interlink: `[--net 1..6]`.
fn net_option<'a>(alloc: Global) -> Arg<'a> {
    Arg::new(alloc, "net")
        .long("net")
        .default_value("1")
        .value_name("1..6")
        .value_parser(clap::value_parser!(u8).range(1..=6))
        .help("The number of the PRP network at the interlink, of role prp")
}

/// Whether the end of a status has counts: `[--counters]`.
pub(crate) fn counters_option<'a>(alloc: Global) -> Arg<'a> {
    Arg::new(alloc, "counters")
        .long("counters")
        .action(ArgAction::SetTrue)
        .help("Ends with the frames that came in at each port, and those that were refused")
}

/// A subcommand that runs a script on a node. `format` is the help of `--format`.
pub(crate) fn node_command<'a>(
    alloc: Global,
    words: &'a Words<'a>,
    name: &'a str,
    about: &'a str,
    format: &'a str,
    examples: &'a str,
) -> Result<Command<'a>, AllocError> {
    let command = Command::new(alloc, name).about(about).after_help(examples);
    let command = with_arg(Ok(command), role_option(alloc, words));
    let command = with_arg(command, mac_option(alloc));
    let command = with_arg(command, lan_option(alloc, words));
    let command = with_arg(command, net_option(alloc));
    let command = with_arg(command, line_format_option(alloc, format));
    with_node_options(alloc, command, words)
}

/// The number of a network, of a word that the parser let through.
fn net_of(word: &str) -> NetId {
    match word.parse::<u8>() {
        Ok(net) => NetId::new(net.clamp(1, MAX_NET)),
        Err(_) => NetId::One,
    }
}

/// The box of the LAN at the interlink.
fn prp_box_of(node: &ArgMatches<'_>) -> RoleKind {
    let lan = match node.get_str("lan") {
        Some("b") => Lan::B,
        _ => Lan::A,
    };
    let net = node.get_str("net").map_or(NetId::One, net_of);
    RoleKind::Prp { lan, net }
}

/// The role that the parser let through.
fn role_of(node: &ArgMatches<'_>) -> RoleKind {
    match node.get_str("role") {
        Some("danh") => RoleKind::Danh,
        Some("san") => RoleKind::San,
        Some("prp") => prp_box_of(node),
        Some("hsr") => RoleKind::Hsr,
        _ => RoleKind::Danp,
    }
}

/// The address of one node.
///
/// # Errors
/// `Mac` where it is no address, `Group` where it is that of a group.
fn node_mac(node: &ArgMatches<'_>) -> Result<Mac, Refused>
    ensures { IfOk result NamesOneNode }
{
    match node.get_str("mac").and_then(mac_of) {
        Some(mac) if mac.is_group() => Err(Refused::Option(OptionFault::Group)),
        Some(mac) => Ok(mac),
        None => Err(Refused::Mac),
    }
}

/// The node that a subcommand's options name.
///
/// # Errors
/// Those of its address.
pub(crate) fn node_task(node: &ArgMatches<'_>) -> Result<NodeTask, Refused>
    ensures { IfOk result NodeKeepsRules }
{
    Ok(NodeTask {
        role: role_of(node),
        mac: node_mac(node)?,
        options: node_options_of(node),
        format: line_format_of(node),
    })
}
