//! The words behind `seamless merge`.

ghost use Rattle.sr_options.specs.Tasks.{MergesByClockOfA, IsTooFarAhead};
ghost use Rattle.std.specs.Prelude.{IfSome, IfNone};

use crate::captures_line::{Network, network_of, options_of, with_reading};
use crate::command_line::with_arg;
use crate::examples;
use crate::fault::OptionFault;
use crate::paths::Paths;
use crate::plant_format::{LineFormat, line_format_of, line_format_option};
use crate::script_line::{capture_of, option, shift_a_of, shift_b_of};
use crate::shifts::{Shift, set_back, shift_in, with_clocks};
use crate::words::Words;
use clap::{Arg, ArgAction, ArgMatches, Command};
use sr_capture_script::{Interfaces, Options};
use sr_pcapng::Wanted;
use std::alloc::{AllocError, Global};

/// How frames are written.
#[derive(Clone, Copy, Debug, PartialEq, Eq)]
pub enum Spelling {
    /// Without the trailer or tag that has their number.
    Plain,
    /// As they came.
    Kept,
}

/// Which packets are written.
#[derive(Clone, Copy, Debug, PartialEq, Eq)]
pub enum Scope {
    /// All of them.
    All,
    /// Those that have a comment.
    Lost,
}

/// What `seamless merge` is to do: the files of each side, that of the file that is written, and how.
#[derive(Clone, Copy, Debug)]
pub struct MergeTask<'a> {
    /// The capture of LAN A.
    pub a: Option<Paths<'a>>,
    /// The capture of LAN B.
    pub b: Option<Paths<'a>>,
    /// The file that is written; `-` is standard output.
    pub out: &'a str,
    /// How the captures are read.
    pub options: Options,
    /// How frames have their numbers.
    pub network: Network,
    /// How clocks are put right.
    pub shift: Shift,
    /// How they are written.
    pub spelling: Spelling,
    /// Which are written.
    pub scope: Scope,
    /// How much less than nothing the least shift is, in nanoseconds: so much the times of all packets are put off.
    pub early: u64,
    /// How it is told what was merged.
    pub format: LineFormat,
}

impl<'a> MergeTask<'a> {
    /// The task by the clock of A, where that of B is so many nanoseconds ahead. None: times would be put off by more than 2^62 of them,
    /// or all of them by 2^64.
    pub fn by_clock_of_a(&self, ahead: i128) -> Option<MergeTask<'a>>
        ensures some { IfSome result (λ own. MergesByClockOfA self.now ahead own) }
        ensures none { IfNone result (IsTooFarAhead self.now ahead) }
    {
        let delays = set_back(self.options.delays, ahead)?;
        let longer = delays.a - self.options.delays.a;
        let early = self.early.checked_add(longer)?;
        Some(MergeTask {
            options: Options {
                delays,
                ..self.options
            },
            early,
            ..*self
        })
    }
}

/// An option with a value that has to be given.
pub(crate) fn required<'a>(alloc: Global, name: &'a str, value: &'a str, help: &'a str) -> Arg<'a> {
    option(alloc, name, value, help).required(true)
}

/// What the parser knows of the subcommand.
pub(crate) fn merge_command<'a>(
    alloc: Global,
    words: &'a Words<'a>,
) -> Result<Command<'a>, AllocError> {
    let about = "Writes two captures as one, in which each frame stands once";
    let command = Ok(
        Command::new(alloc, "merge")
            .about(about)
            .after_help(examples::MERGE),
    );
    let a = "The capture of LAN A, in one file or several; FILE:N is interface N of a pcapng file";
    let a = required(alloc, "a", "FILE[:N]", a).action(ArgAction::Append);
    let command = with_arg(command, a);
    let b = required(alloc, "b", "FILE[:N]", "The capture of LAN B").action(ArgAction::Append);
    let command = with_arg(command, b);
    let write = "The pcapng file that is written; - is standard output";
    let write = required(alloc, "write", "FILE", write).short('w');
    let command = with_arg(command, write);
    let command = with_reading(alloc, command, words);
    let command = with_clocks(alloc, command);
    let keep = Arg::new(alloc, "keep")
        .long("keep")
        .action(ArgAction::SetTrue)
        .help("Leaves trailers and tags in the frames");
    let command = with_arg(command, keep);
    let only = option(alloc, "only", "WHICH", "Which packets are written").value_parser(
        words.scopes.as_slice(),
    );
    let command = with_arg(command, only);
    let format = "How it is told what was merged: json makes an object of the counts";
    with_arg(command, line_format_option(alloc, format))
}

/// What is shifted back: how much less than nothing the least shift is, in nanoseconds.
pub(crate) fn early_of(shift_a: i64, shift_b: i64) -> u64 {
    shift_a.min(shift_b).saturating_neg().max(0).unsigned_abs()
}

/// How frames are written, by the options that the parser let through.
fn spelling_of(matches: &ArgMatches<'_>) -> Spelling {
    if matches.get_flag("keep") {
        Spelling::Kept
    } else {
        Spelling::Plain
    }
}

/// Which packets are written, by the options that the parser let through.
fn scope_of(matches: &ArgMatches<'_>) -> Scope {
    if matches.contains_id("only") {
        Scope::Lost
    } else {
        Scope::All
    }
}

/// What the subcommand is to do.
pub(crate) fn merge_task<'a>(
    matches: &ArgMatches<'a>,
    words: &'a [String],
) -> Result<MergeTask<'a>, OptionFault> {
    let a = capture_of(matches, words, "a", "--a")?;
    let b = capture_of(matches, words, "b", "--b")?;
    let interfaces = Interfaces {
        a: a.wanted,
        b: b.wanted,
        c: Wanted::Only,
    };
    let options = options_of(matches, interfaces)?;
    let early = early_of(shift_a_of(matches)?, shift_b_of(matches)?);
    Ok(MergeTask {
        a: a.paths,
        b: b.paths,
        out: matches.get_str("write").unwrap_or("-"),
        options,
        network: network_of(matches),
        shift: shift_in(matches),
        spelling: spelling_of(matches),
        scope: scope_of(matches),
        early,
        format: line_format_of(matches),
    })
}
