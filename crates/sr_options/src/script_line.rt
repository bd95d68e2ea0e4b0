//! The words behind `seamless script`.

ghost use Rattle.std.specs.Prelude.{◌≡◌, ◌≢◌, IfOk, IfSome, IfNone, Some, None};
ghost use Rattle.sr_options.specs.Shifts.{AreSetBackTooFar};
ghost use Rattle.sr_options.specs.Tasks.{ScriptKeepsRules, ScriptsByClockOfA};

use crate::captures_line::{Network, network_of, with_network};
use crate::command_line::{with_arg, with_captures};
use crate::examples;
use crate::fault::OptionFault;
use crate::paths::Paths;
use crate::plant_format::{LineFormat, line_format_of, line_format_option};
use crate::shifts::{Shift, delays_in, nanoseconds_of, set_back, shift_in, with_clocks};
use crate::words::Words;
use clap::{Arg, ArgAction, ArgMatches, Command};
use sr_capture_script::{Choice, Delays, Interfaces, Options};
use sr_pcapng::Wanted;
use std::alloc::{AllocError, Global};

/// What `seamless script` is to do: the files of each inlet that has some, and how.
#[derive(Clone, Copy, Debug)]
pub struct ScriptTask<'a> {
    /// The files of inlet A.
    pub a: Option<Paths<'a>>,
    /// Those of inlet B.
    pub b: Option<Paths<'a>>,
    /// Those of inlet C.
    pub c: Option<Paths<'a>>,
    /// How the script is made.
    pub options: Options,
    /// How frames have their numbers, by which clocks are told.
    pub network: Network,
    /// How clocks are put right.
    pub shift: Shift,
    /// Whether the captures of A and B are one.
    pub is_same: bool,
    /// How its lines are spelled.
    pub format: LineFormat,
}

impl<'a> ScriptTask<'a> {
    /// The task by the clock of A, where that of B is so many nanoseconds ahead. None: times would be put off by more than 2^62 of them.
    pub fn by_clock_of_a(&self, ahead: i128) -> Option<ScriptTask<'a>>
        ensures some { IfSome result (λ own. ScriptsByClockOfA self.now ahead own) }
        ensures none { IfNone result (AreSetBackTooFar self.now.options.delays ahead) }
    {
        let delays = set_back(self.options.delays, ahead)?;
        Some(ScriptTask {
            options: Options {
                delays,
                ..self.options
            },
            ..*self
        })
    }
}

/// An option with a value.
pub(crate) fn option<'a>(alloc: Global, name: &'a str, value: &'a str, help: &'a str) -> Arg<'a> {
    Arg::new(alloc, name)
        .long(name)
        .value_name(value)
        .allow_negative_numbers(true)
        .help(help)
}

/// A command with one such option more, if it was made.
pub(crate) fn with_option<'a>(
    alloc: Global,
    command: Result<Command<'a>, AllocError>,
    name: &'a str,
    value: &'a str,
    help: &'a str,
) -> Result<Command<'a>, AllocError> {
    with_arg(command, option(alloc, name, value, help))
}

/// A command with one more option that names the files of a capture, if it was made. It may stand several times.
pub(crate) fn with_files<'a>(
    alloc: Global,
    command: Result<Command<'a>, AllocError>,
    name: &'a str,
    help: &'a str,
) -> Result<Command<'a>, AllocError> {
    let files = option(alloc, name, "FILE[:N]", help).action(ArgAction::Append);
    with_arg(command, files)
}

/// A command with the shift of a file more, if it was made. One that is negative may have a unit.
pub(crate) fn with_shift<'a>(
    alloc: Global,
    command: Result<Command<'a>, AllocError>,
    name: &'a str,
    help: &'a str,
) -> Result<Command<'a>, AllocError> {
    with_arg(
        command,
        option(alloc, name, "TIME", help).allow_hyphen_values(true),
    )
}

/// What the parser knows of the subcommand.
pub(crate) fn script_command<'a>(
    alloc: Global,
    words: &'a Words<'a>,
) -> Result<Command<'a>, AllocError> {
    let about = "Prints a script of the packets of up to three captures";
    let command = Ok(
        Command::new(alloc, "script")
            .about(about)
            .after_help(examples::SCRIPT),
    );
    let a = "The capture of LAN A, in one file or several; FILE:N is interface N of a pcapng file";
    let command = with_files(alloc, command, "a", a);
    let command = with_files(alloc, command, "b", "The capture of LAN B");
    let command = with_files(alloc, command, "c", "The capture of the interlink");
    let command = with_network(alloc, command, words);
    let shift = "What is added to the times of A: milliseconds, or 0.3ms, 300us, 5s";
    let command = with_shift(alloc, command, "shift-a", shift);
    let shift = "What is added to the times of B: milliseconds, or 0.3ms, 300us, 5s";
    let command = with_shift(alloc, command, "shift-b", shift);
    let shift = "What is added to the times of C: milliseconds, or 0.3ms, 300us, 5s";
    let command = with_shift(alloc, command, "shift-c", shift);
    let command = with_clocks(alloc, command);
    let fcs = "The octets of check sequence, where a file does not tell";
    let fcs = option(alloc, "fcs", "4", fcs).value_parser(["4"].as_slice());
    let command = with_arg(command, fcs);
    let from = "The first time of a line, in milliseconds";
    let command = with_option(alloc, command, "from", "T", from);
    let to = "The last time of a line, in milliseconds";
    let command = with_option(alloc, command, "to", "T", to);
    let tick = "Adds ticks so many milliseconds apart, from --from on";
    let command = with_option(alloc, command, "tick", "MS", tick);
    let format = "How lines are told: json makes an object of each, which no node reads";
    let command = with_arg(command, line_format_option(alloc, format));
    with_captures(alloc, command, ["a", "b", "c"].as_slice())
}

/// The files of a capture, and which of their interfaces is wanted.
#[derive(Clone, Copy)]
pub(crate) struct Capture<'a> {
    pub paths: Option<Paths<'a>>,
    pub wanted: Wanted,
}

impl<'a> Capture<'a> {
    /// None is given.
    pub(crate) fn none() -> Capture<'a>
        ensures { result.paths ≡ None }
    {
        Capture {
            paths: None,
            wanted: Wanted::Only,
        }
    }
}

/// The files of an option that may be left out. It is named with and without its hyphens.
///
/// # Errors
/// `Interfaces` where they are not of one interface.
pub(crate) fn capture_of<'a>(
    matches: &ArgMatches<'a>,
    words: &'a [String],
    name: &'static str,
    option: &'static str,
) -> Result<Capture<'a>, OptionFault> {
    let count = matches.get_strs(name).map_or(0, |values| values.len());
    if count == 0 {
        return Ok(Capture::none());
    }
    let paths = Paths::new(words, option, count);
    Ok(Capture {
        paths: Some(paths),
        wanted: paths.wanted()?,
    })
}

/// The number of an option that may be left out; else this fault.
pub(crate) fn time_of(
    matches: &ArgMatches<'_>,
    name: &'static str,
    fault: OptionFault,
) -> Result<Option<u64>, OptionFault> {
    match matches.try_get_one::<u64>(name) {
        Ok(number) => Ok(number),
        Err(_) => Err(fault),
    }
}

/// The shift of a file in nanoseconds, 0 where there is none; else this fault.
fn shift_of(
    matches: &ArgMatches<'_>,
    name: &'static str,
    fault: OptionFault,
) -> Result<i64, OptionFault> {
    match matches.get_str(name) {
        Some(word) => nanoseconds_of(word).ok_or(fault),
        None => Ok(0),
    }
}

/// The shift of the file of A.
pub(crate) fn shift_a_of(matches: &ArgMatches<'_>) -> Result<i64, OptionFault> {
    shift_of(matches, "shift-a", OptionFault::ShiftA)
}

/// The shift of the file of B.
pub(crate) fn shift_b_of(matches: &ArgMatches<'_>) -> Result<i64, OptionFault> {
    shift_of(matches, "shift-b", OptionFault::ShiftB)
}

/// The time between ticks, at least a millisecond.
fn tick_of(matches: &ArgMatches<'_>) -> Result<Option<u64>, OptionFault>
    ensures { IfOk result (λ tick. tick ≢ Some 0) }
{
    match time_of(matches, "tick", OptionFault::Tick)? {
        Some(0) => Err(OptionFault::Tick),
        tick => Ok(tick),
    }
}

/// How far the times of the files are put off.
fn script_delays_of(matches: &ArgMatches<'_>) -> Result<Delays, OptionFault> {
    let shift_a = shift_a_of(matches)?;
    let shift_b = shift_b_of(matches)?;
    let shift_c = shift_of(matches, "shift-c", OptionFault::ShiftC)?;
    delays_in(shift_a, shift_b, shift_c).ok_or(OptionFault::Shifts)
}

/// Which times are wanted, without ticks.
pub(crate) fn choice_of(matches: &ArgMatches<'_>) -> Result<Choice, OptionFault> {
    Ok(Choice {
        from: time_of(matches, "from", OptionFault::From)?.unwrap_or(0),
        to: time_of(matches, "to", OptionFault::To)?,
        tick: None,
    })
}

/// How many octets of check sequence stand behind each packet of a file that tells none.
pub(crate) fn check_len_of(matches: &ArgMatches<'_>) -> u8 {
    if matches.contains_id("fcs") { 4 } else { 0 }
}

/// How the script is made.
fn script_options_of(
    matches: &ArgMatches<'_>,
    interfaces: Interfaces,
) -> Result<Options, OptionFault>
    ensures { IfOk result (λ options. options.choice.tick ≢ Some 0) }
{
    let delays = script_delays_of(matches)?;
    let choice = choice_of(matches)?;
    let tick = tick_of(matches)?;
    Ok(Options {
        choice: Choice { tick, ..choice },
        check_len: check_len_of(matches),
        delays,
        interfaces,
    })
}

/// Whether A and B have one capture.
pub(crate) fn is_same(matches: &ArgMatches<'_>) -> bool {
    matches.contains_id("a") && matches.get_strs("a") == matches.get_strs("b")
}

/// What the subcommand is to do.
pub(crate) fn script_task<'a>(
    matches: &ArgMatches<'a>,
    words: &'a [String],
) -> Result<ScriptTask<'a>, OptionFault>
    ensures { IfOk result (λ task. ScriptKeepsRules task) }
{
    let a = capture_of(matches, words, "a", "--a")?;
    let b = capture_of(matches, words, "b", "--b")?;
    let c = capture_of(matches, words, "c", "--c")?;
    let interfaces = Interfaces {
        a: a.wanted,
        b: b.wanted,
        c: c.wanted,
    };
    Ok(ScriptTask {
        a: a.paths,
        b: b.paths,
        c: c.paths,
        options: script_options_of(matches, interfaces)?,
        network: network_of(matches),
        shift: shift_in(matches),
        is_same: is_same(matches),
        format: line_format_of(matches),
    })
}
