//! The words behind `seamless watch`.

ghost use Rattle.std.specs.Prelude.{◌≤◌, IfOk};
ghost use Rattle.sr_options.specs.Tasks.{WatchKeepsRules};

use crate::audit_line::{Ports, first_capture_of, ports_of, second_capture_of};
use crate::captures_line::{Network, network_of, with_network};
use crate::command_line::with_arg;
use crate::examples;
use crate::fault::OptionFault;
use crate::paths::Paths;
use crate::plant_format::LineFormat;
use crate::script_line::{
    check_len_of, option, shift_a_of, shift_b_of, time_of, with_option, with_shift,
};
use crate::shifts::delays_in;
use crate::words::Words;
use clap::{Arg, ArgAction, ArgMatches, Command};
use sr_capture_script::{Delays, Interfaces};
use sr_pcapng::Wanted;
use std::alloc::{AllocError, Global};

/// How far reports are apart at most, in seconds.
const MOST_EVERY: u64 = 3600;

/// For how many milliseconds a recorder keeps packets at least (choice of this project).
const LEAST_SLACK: u64 = 300;

/// For how many milliseconds it keeps them at most.
const MOST_SLACK: u64 = 60_000;

/// The most seconds of an option.
const MOST_SECONDS: u64 = 1_000_000_000;

/// When an alarm of a watch is raised.
#[derive(Clone, Copy, Debug, PartialEq, Eq)]
pub struct Bounds {
    /// For how many seconds a source is heard by one LAN alone.
    pub alone_for: u64,
    /// Over how many microseconds a skew of an interval is. None: no alarm.
    pub skew_over: Option<u64>,
    /// Over how many hundredths of its frames a LAN lost in an interval. None: no alarm.
    pub lost_over: Option<u64>,
}

/// What `seamless watch` is to do.
#[derive(Clone, Copy, Debug)]
pub struct WatchTask<'a> {
    /// Where the captures are made.
    pub ports: Ports,
    /// The capture of LAN A, or of the mirror port.
    pub a: Option<Paths<'a>>,
    /// The capture of LAN B.
    pub b: Option<Paths<'a>>,
    /// Which interface of each is wanted.
    pub interfaces: Interfaces,
    /// How many octets of check sequence stand behind each packet of a file that tells none.
    pub check_len: u8,
    /// How far the times of each are put off.
    pub delays: Delays,
    /// How frames have their numbers.
    pub network: Network,
    /// How far reports are apart, in seconds.
    pub every: u64,
    /// How lines are spelled.
    pub format: LineFormat,
    /// The file of metrics, if one is wanted.
    pub metrics: Option<&'a str>,
    /// When alarms are raised.
    pub bounds: Bounds,
    /// For how many milliseconds a recorder may keep packets.
    pub slack: u64,
    /// Whether a FIFO is opened again where its capture ends.
    pub reopens: bool,
    /// After how many seconds it ends. None: where both captures end.
    pub lasts_for: Option<u64>,
    /// Whether the status tells that an alarm was raised.
    pub is_check: bool,
}

/// A command with the options that say when alarms are raised more, if it was made.
fn with_bounds<'a>(
    alloc: Global,
    command: Result<Command<'a>, AllocError>,
) -> Result<Command<'a>, AllocError> {
    let alone = "An alarm where a source is heard by one LAN alone for so many seconds";
    let alone = option(alloc, "alone-for", "S", alone).default_value("3");
    let command = with_arg(command, alone);
    let skew = "An alarm where copies of a frame come further apart, in microseconds";
    let command = with_option(alloc, command, "skew-over", "US", skew);
    let lost = "An alarm where a LAN lost more of the frames of an interval, in percent";
    with_option(alloc, command, "lost-over", "PERCENT", lost)
}

/// A command with the capture of a LAN more, if it was made. It is wanted where that of a mirror port is not given.
fn with_lan<'a>(
    alloc: Global,
    command: Result<Command<'a>, AllocError>,
    name: &'a str,
    help: &'a str,
) -> Result<Command<'a>, AllocError> {
    let lan = option(alloc, name, "FILE[:N]", help).required_unless_present("mirror")?;
    with_arg(command, lan)
}

/// A command with the options that say how captures are read more, if it was made.
fn with_captures<'a>(
    alloc: Global,
    command: Result<Command<'a>, AllocError>,
    words: &'a Words<'a>,
) -> Result<Command<'a>, AllocError> {
    let a = "The capture of LAN A as it comes: a pipe, a file, or - for standard input";
    let command = with_lan(alloc, command, "a", a);
    let command = with_lan(alloc, command, "b", "The capture of LAN B");
    let mirror = "The capture of a mirror port, which sees both LANs";
    let command = with_option(alloc, command, "mirror", "FILE[:N]", mirror);
    let command = with_network(alloc, command, words);
    let shift = "What is added to the times of A: milliseconds, or 0.3ms, 300us, 5s";
    let command = with_shift(alloc, command, "shift-a", shift);
    let shift = "What is added to the times of B: milliseconds, or 0.3ms, 300us, 5s";
    let command = with_shift(alloc, command, "shift-b", shift);
    let fcs = "The octets of check sequence, where a file does not tell";
    let fcs = option(alloc, "fcs", "4", fcs).value_parser(["4"].as_slice());
    let command = with_arg(command, fcs);
    let reopen = Arg::new(alloc, "reopen")
        .long("reopen")
        .action(ArgAction::SetTrue)
        .help("Opens a FIFO again where its writer ends, for the next one");
    with_arg(command, reopen)
}

/// What the parser knows of the subcommand.
pub(crate) fn watch_command<'a>(
    alloc: Global,
    words: &'a Words<'a>,
) -> Result<Command<'a>, AllocError> {
    let about = "Tells at each interval what two captures say of a network while they grow";
    let command = Ok(
        Command::new(alloc, "watch")
            .about(about)
            .after_help(examples::WATCH),
    );
    let command = with_captures(alloc, command, words);
    let every = option(
        alloc,
        "every",
        "S",
        "How many seconds reports are apart, 1 to 3600",
    );
    let command = with_arg(command, every.default_value("10"));
    let format = option(alloc, "format", "FORMAT", "How it is printed")
        .default_value("text")
        .value_parser(["text", "json"].as_slice());
    let command = with_arg(command, format);
    let metrics = "A file of metrics for Prometheus, written anew at each report";
    let command = with_option(alloc, command, "metrics", "FILE", metrics);
    let command = with_bounds(alloc, command);
    let slack = "How many milliseconds recorders may keep packets, 300 to 60000";
    let slack = option(alloc, "slack", "MS", slack).default_value("1000");
    let command = with_arg(command, slack);
    let lasts = "How many seconds it lasts, where the captures do not end before";
    let command = with_option(alloc, command, "for", "S", lasts);
    let check = Arg::new(alloc, "check")
        .long("check")
        .action(ArgAction::SetTrue)
        .help("Ends with status 3 where an alarm was raised");
    with_arg(command, check)
}

/// The number of an option that may be left out, within its range; else this fault.
fn number_of(
    matches: &ArgMatches<'_>,
    name: &'static str,
    most: u64,
    fault: OptionFault,
) -> Result<Option<u64>, OptionFault> {
    match time_of(matches, name, fault)? {
        Some(number) if number == 0 || number > most => Err(fault),
        number => Ok(number),
    }
}

/// The number of an option, within its range, or this one where it is left out.
fn number_from(
    matches: &ArgMatches<'_>,
    name: &'static str,
    least: u64,
    most: u64,
    fault: OptionFault,
) -> Result<u64, OptionFault>
    ensures { IfOk result (λ number. (least ≤ number) × (number ≤ most)) }
{
    let number = match time_of(matches, name, fault)? {
        Some(number) => number,
        None => return Err(fault),
    };
    if number < least || most < number {
        Err(fault)
    } else {
        Ok(number)
    }
}

/// When alarms are raised.
fn bounds_of(matches: &ArgMatches<'_>) -> Result<Bounds, OptionFault> {
    let alone = OptionFault::AloneFor;
    Ok(Bounds {
        alone_for: number_from(matches, "alone-for", 1, MOST_SECONDS, alone)?,
        skew_over: number_of(matches, "skew-over", MOST_SECONDS, OptionFault::SkewOver)?,
        lost_over: number_of(matches, "lost-over", 100, OptionFault::LostOver)?,
    })
}

/// How lines are spelled, by the option that the parser let through.
fn format_of(matches: &ArgMatches<'_>) -> LineFormat {
    match matches.get_str("format") {
        Some("json") => LineFormat::Json,
        _ => LineFormat::Text,
    }
}

/// Whether both captures are standard input.
fn are_both_input(matches: &ArgMatches<'_>) -> bool {
    matches.get_str("a") == Some("-") && matches.get_str("b") == Some("-")
}

/// What the subcommand is to do.
pub(crate) fn watch_task<'a>(
    matches: &ArgMatches<'a>,
    words: &'a [String],
) -> Result<WatchTask<'a>, OptionFault>
    ensures { IfOk result (λ task. WatchKeepsRules task) }
{
    if are_both_input(matches) {
        return Err(OptionFault::Inputs);
    }
    let ports = ports_of(matches)?;
    let a = first_capture_of(matches, words, ports)?;
    let b = second_capture_of(matches, words, ports)?;
    let delays = delays_in(shift_a_of(matches)?, shift_b_of(matches)?, 0);
    let every = number_from(matches, "every", 1, MOST_EVERY, OptionFault::Every)?;
    let fault = OptionFault::Slack;
    let slack = number_from(matches, "slack", LEAST_SLACK, MOST_SLACK, fault)?;
    Ok(WatchTask {
        ports,
        a: a.paths,
        b: b.paths,
        interfaces: Interfaces {
            a: a.wanted,
            b: b.wanted,
            c: Wanted::Only,
        },
        check_len: check_len_of(matches),
        delays: delays.ok_or(OptionFault::Shifts)?,
        network: network_of(matches),
        every,
        format: format_of(matches),
        metrics: matches.get_str("metrics"),
        bounds: bounds_of(matches)?,
        slack,
        reopens: matches.get_flag("reopen"),
        lasts_for: number_of(matches, "for", MOST_SECONDS, OptionFault::For)?,
        is_check: matches.get_flag("check"),
    })
}
