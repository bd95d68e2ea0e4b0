//! The command line.

ghost use Rattle.std.specs.Prelude.{IfOk, IfSome};
ghost use Rattle.sr_options.specs.Tasks.{KeepsRules};

use crate::audit_line::{audit_command, audit_task};
use crate::coupled_line::{ring_lan_command, ring_lan_of, two_rings_command, two_rings_of};
use crate::examples;
use crate::fault::OptionFault;
use crate::merge_line::{merge_command, merge_task};
use crate::node_line::{counters_option, node_command, node_task};
use crate::plant_format::LineFormat;
use crate::plant_line::{Net, network_task, plant_command};
use crate::refusal::Refused;
use crate::script_line::{script_command, script_task};
use crate::task::Task;
use crate::watch_line::{watch_command, watch_task};
use crate::words::Words;
use clap::error::ErrorKind;
use clap::{Arg, ArgGroup, ArgMatches, Command, Error};
use std::alloc::{AllocError, Global};

/// The version of the program, that of CHANGELOG.md.
const VERSION: &str = "0.11.0";

/// The version of the program.
pub const PROGRAM_VERSION: &str = VERSION;

/// The group of the options that name captures.
const CAPTURES: &str = "captures";

/// Adds an option, and passes an earlier error on. Only this function and `with` use `?` on a `Command`: over each such use the
/// checker goes through what letting a command go does.
pub(crate) fn with_arg<'a>(
    command: Result<Command<'a>, AllocError>,
    arg: Arg<'a>,
) -> Result<Command<'a>, AllocError> {
    command?.arg(arg)
}

/// A command with one subcommand more, if both were made.
fn with<'a>(
    command: Result<Command<'a>, AllocError>,
    subcommand: Result<Command<'a>, AllocError>,
) -> Result<Command<'a>, AllocError> {
    let subcommand = subcommand?;
    command?.subcommand(subcommand)
}

/// A command of whose captures one at least has to be given, if it was made.
pub(crate) fn with_captures<'a>(
    alloc: Global,
    command: Result<Command<'a>, AllocError>,
    ids: &[&'a str],
) -> Result<Command<'a>, AllocError> {
    let captures = ArgGroup::new(alloc, CAPTURES)
        .required(true)
        .multiple(true)
        .args(ids)?;
    command?.group(captures)
}

/// The program without its subcommands.
fn program<'a>(alloc: Global) -> Result<Command<'a>, AllocError> {
    Command::new(alloc, "seamless")
        .about(
            "Runs nodes and networks of seamless redundancy, PRP and HSR, on scripts and captures",
        )
        .version(VERSION)
        .after_help(examples::PROGRAM)
        .subcommand_required(true)
        .bin_name("seamless")
}

/// What the parser knows.
fn command<'a>(alloc: Global, words: &'a Words<'a>) -> Result<Command<'a>, AllocError> {
    let replay = node_command(
        alloc,
        words,
        "replay",
        "Prints the frames that the node hands out",
        "How lines are told: json makes an object of each",
        examples::REPLAY,
    );
    let command = with(program(alloc), replay);
    let status = node_command(
        alloc,
        words,
        "status",
        "Prints what the node knows of other nodes at the end, and its alarms",
        "How it is told: json makes one object of all, with the counters",
        examples::STATUS,
    );
    let command = with(command, with_arg(status, counters_option(alloc)));
    let command = with(command, script_command(alloc, words));
    let audit = audit_command(alloc, words);
    let command = with(command, audit);
    let merge = merge_command(alloc, words);
    let command = with(command, merge);
    let command = with(command, watch_command(alloc, words));
    let ring = plant_command(
        alloc,
        words,
        "ring",
        "Runs a script on a ring of doubly attached nodes",
        examples::RING,
    );
    let command = with(command, ring);
    let lan = plant_command(
        alloc,
        words,
        "lan",
        "Runs a script on doubly attached nodes of two LANs",
        examples::LAN,
    );
    let command = with(command, lan);
    let command = with(command, ring_lan_command(alloc, words));
    with(command, two_rings_command(alloc, words))
}

/// What a subcommand over captures asks for, if these are the words of one.
fn captures_task_in<'a>(
    matches: &ArgMatches<'a>,
    words: &'a [String],
) -> Result<Option<Task<'a>>, OptionFault>
    ensures { IfOk result (λ found. IfSome found (λ task. KeepsRules task)) }
{
    if let Some(script) = matches.subcommand_matches("script") {
        return match script_task(script, words) {
            Ok(task) => Ok(Some(Task::Script(task))),
            Err(fault) => Err(fault),
        };
    }
    if let Some(audit) = matches.subcommand_matches("audit") {
        return match audit_task(audit, words) {
            Ok(task) => Ok(Some(Task::Audit(task))),
            Err(fault) => Err(fault),
        };
    }
    if let Some(merge) = matches.subcommand_matches("merge") {
        return match merge_task(merge, words) {
            Ok(task) => Ok(Some(Task::Merge(task))),
            Err(fault) => Err(fault),
        };
    }
    if let Some(watch) = matches.subcommand_matches("watch") {
        return match watch_task(watch, words) {
            Ok(task) => Ok(Some(Task::Watch(task))),
            Err(fault) => Err(fault),
        };
    }
    Ok(None)
}

/// What a subcommand over a network asks for, if these are the words of one.
fn network_task_in<'a>(matches: &ArgMatches<'a>) -> Result<Option<Task<'a>>, OptionFault>
    ensures { IfOk result (λ found. IfSome found (λ task. KeepsRules task)) }
{
    if let Some(ring) = matches.subcommand_matches("ring") {
        return match network_task(Net::Ring, ring) {
            Ok(task) => Ok(Some(task)),
            Err(fault) => Err(fault),
        };
    }
    if let Some(lan) = matches.subcommand_matches("lan") {
        return match network_task(Net::TwinLan, lan) {
            Ok(task) => Ok(Some(task)),
            Err(fault) => Err(fault),
        };
    }
    if let Some(ring_lan) = matches.subcommand_matches("ring-lan") {
        return Ok(Some(Task::Plant(ring_lan_of(ring_lan))));
    }
    if let Some(two_rings) = matches.subcommand_matches("two-rings") {
        return match two_rings_of(two_rings) {
            Ok(task) => Ok(Some(Task::Plant(task))),
            Err(fault) => Err(fault),
        };
    }
    Ok(None)
}

/// What a subcommand over a node asks for, if these are the words of one.
fn node_task_in<'a>(matches: &ArgMatches<'a>) -> Result<Option<Task<'a>>, Refused>
    ensures { IfOk result (λ found. IfSome found (λ task. KeepsRules task)) }
{
    if let Some(replay) = matches.subcommand_matches("replay") {
        return Ok(Some(Task::Replay(node_task(replay)?)));
    }
    let Some(status) = matches.subcommand_matches("status") else {
        return Ok(None);
    };
    let task = node_task(status)?;
    // An object has the counts always.
    if status.get_flag("counters") || task.format == LineFormat::Json {
        Ok(Some(Task::Tally(task)))
    } else {
        Ok(Some(Task::Status(task)))
    }
}

/// What the words that the parser let through ask for.
fn task_in<'a>(matches: &ArgMatches<'a>, words: &'a [String]) -> Result<Task<'a>, Refused>
    ensures { IfOk result (λ task. KeepsRules task) }
{
    match captures_task_in(matches, words) {
        Ok(Some(task)) => return Ok(task),
        Ok(None) => {}
        Err(fault) => return Err(Refused::Option(fault)),
    }
    match network_task_in(matches) {
        Ok(Some(task)) => return Ok(task),
        Ok(None) => {}
        Err(fault) => return Err(Refused::Option(fault)),
    }
    match node_task_in(matches)? {
        Some(task) => Ok(task),
        None => Err(Refused::Mac),
    }
}

/// Why the parser let these words not through. A subcommand that takes captures requires nothing else.
fn refused_by(words: &[String], error: Error) -> Refused {
    if error.kind() == ErrorKind::MissingRequiredArgument {
        match words.get(1).map(|word| word.as_str()) {
            Some("script") => return Refused::Option(OptionFault::NoFiles),
            _ => {}
        }
    }
    Refused::Parser(error)
}

/// What the words of the command line ask for.
///
/// # Errors
/// `Mac` where an address is none, `Option` where options are wrong that the parser let through, or no capture is given, else `Parser`.
pub fn task_of<'a>(
    alloc: Global,
    known: &'a Words<'a>,
    words: &'a [String],
) -> Result<Task<'a>, Refused>
    ensures { IfOk result (λ task. KeepsRules task) }
{
    match command(alloc, known)?.try_get_matches_from(words) {
        Ok(matches) => task_in(&matches, words),
        Err(error) => Err(refused_by(words, error)),
    }
}
