//! The words behind `seamless audit`.

ghost use Rattle.std.specs.Prelude.{◌≡◌, IfOk, OnOk, Ok};
ghost use Rattle.sr_options.specs.Tasks.{count_lists, FitsFormat, StandsAlone, HasPlaceFor, AuditKeepsRules};

use crate::captures_line::{Network, network_of, options_of, with_reading};
use crate::command_line::with_arg;
use crate::examples;
use crate::fault::OptionFault;
use crate::merge_line::early_of;
use crate::page_words::{PageWords, page_words_of, with_page_words};
use crate::paths::Paths;
use crate::script_line::{
    Capture, capture_of, is_same, option, shift_a_of, shift_b_of, time_of, with_files, with_option,
};
use crate::shifts::{Shift, shift_in, with_clocks};
use crate::words::Words;
use clap::{Arg, ArgAction, ArgMatches, Command};
use sr_capture_script::{Interfaces, Options};
use sr_pcapng::Wanted;
use std::alloc::{AllocError, Global};

/// Where the captures were made.
#[derive(Clone, Copy, Debug, PartialEq, Eq)]
pub enum Ports {
    /// One at each side.
    Two,
    /// One at a mirror port, which sees the frames of both sides.
    Mirror,
}

/// How an audit is printed.
#[derive(Clone, Copy, Debug, PartialEq, Eq)]
pub enum Format {
    /// Lines of words and numbers.
    Text,
    /// Those lines, each an object.
    Json,
    /// A table.
    Csv,
    /// A picture.
    Svg,
    /// A page.
    Html,
}

/// How times are told.
#[derive(Clone, Copy, Debug, PartialEq, Eq)]
pub enum Times {
    /// In milliseconds from the earliest packet on.
    Relative,
    /// As times of day (UTC).
    Utc,
}

/// Which lists of single frames are wanted.
#[derive(Clone, Copy, Debug, PartialEq, Eq)]
pub struct Lists {
    /// Those that one side lost.
    pub lost: bool,
    /// Those with the id of the other LAN.
    pub wrong: bool,
    /// Those that came at both sides.
    pub pairs: bool,
}

impl Lists {
    /// None of them.
    const NONE: Lists = Lists {
        lost: false,
        wrong: false,
        pairs: false,
    };

    /// How many are wanted.
    fn count(self) -> u8
        ensures { result ≡ count_lists self }
    {
        u8::from(self.lost) + u8::from(self.wrong) + u8::from(self.pairs)
    }
}

/// What `seamless audit` is to do: the files of each side that has a capture, or those of a mirror port for A, and how.
#[derive(Clone, Copy, Debug)]
pub struct AuditTask<'a> {
    /// The capture of LAN A, or of the mirror port.
    pub a: Option<Paths<'a>>,
    /// The capture of LAN B.
    pub b: Option<Paths<'a>>,
    /// How they are read.
    pub options: Options,
    /// How frames have their numbers.
    pub network: Network,
    /// Where the captures were made.
    pub ports: Ports,
    /// How clocks are put right.
    pub shift: Shift,
    /// Which lists are printed.
    pub lists: Lists,
    /// How it is printed.
    pub format: Format,
    /// How times are told.
    pub times: Times,
    /// What a page has besides what the captures tell.
    pub page: PageWords<'a>,
    /// How much less than nothing the least shift is, in nanoseconds: so much the times of all packets are put off.
    pub early: u64,
    /// How many frames a LAN, or numbers of a source both, may lose for no fault.
    pub max_lost: Option<u64>,
    /// How many microseconds the copies of a frame may be apart for no fault. None: any.
    pub max_skew: Option<u64>,
    /// Whether the status tells of faults of the network.
    pub is_check: bool,
    /// Whether the recorders see all frames of their LANs.
    pub is_complete: bool,
    /// Whether both LANs are judged from the earliest packet of both captures to the latest.
    pub is_whole: bool,
    /// Whether the captures of A and B are one.
    pub is_same: bool,
}

/// A command with the limits of what is a fault more, if it was made.
fn with_limits<'a>(
    alloc: Global,
    command: Result<Command<'a>, AllocError>,
) -> Result<Command<'a>, AllocError> {
    let lost =
        "How many frames a LAN, or numbers of a source both, may lose: a notice, and no fault";
    let command = with_option(alloc, command, "max-lost", "N", lost);
    let skew = "A fault where copies of a frame come further apart, in microseconds";
    with_option(alloc, command, "max-skew-us", "N", skew)
}

/// What the parser knows of the subcommand.
pub(crate) fn audit_command<'a>(
    alloc: Global,
    words: &'a Words<'a>,
) -> Result<Command<'a>, AllocError> {
    let about = "Tells which frames of two captures came by both LANs, and which by one alone";
    let command = Ok(
        Command::new(alloc, "audit")
            .about(about)
            .after_help(examples::AUDIT),
    );
    let a = "The capture of LAN A, in one file or several; FILE:N is interface N of a pcapng file";
    let command = with_files(alloc, command, "a", a);
    let command = with_files(alloc, command, "b", "The capture of LAN B");
    let mirror = "The capture of a mirror port, which sees both LANs";
    let command = with_files(alloc, command, "mirror", mirror);
    let command = with_reading(alloc, command, words);
    let command = with_clocks(alloc, command);
    let list = "Lists single frames: lost, wrong, pairs, or several, joined by commas";
    let command = with_option(alloc, command, "list", "LISTS", list);
    let format = option(alloc, "format", "FORMAT", "How it is printed")
        .default_value("text")
        .value_parser(words.formats.as_slice());
    let command = with_arg(command, format);
    let time = option(
        alloc,
        "time",
        "HOW",
        "How times are told, where not from the earliest packet on",
    )
    .value_parser(words.times.as_slice());
    let command = with_arg(command, time);
    let command = with_page_words(alloc, command);
    let check = Arg::new(alloc, "check")
        .long("check")
        .action(ArgAction::SetTrue)
        .help("Ends with status 3 where a figure tells of a fault, 4 where nothing can be judged");
    let complete = Arg::new(alloc, "complete")
        .long("complete")
        .action(ArgAction::SetTrue)
        .help("Both recorders see all frames: a number that none of them has was lost");
    let whole = Arg::new(alloc, "whole")
        .long("whole")
        .action(ArgAction::SetTrue)
        .help(
            "Both recorders ran all the time: a LAN that brings nothing any more lost what the other one brings",
        );
    let command = with_arg(with_arg(with_arg(command, check), complete), whole);
    with_limits(alloc, command)
}

/// The lists with one more, by its word.
fn with_list(lists: Lists, word: &str) -> Result<Lists, OptionFault> {
    match word {
        "lost" => Ok(Lists {
            lost: true,
            ..lists
        }),
        "wrong" => Ok(Lists {
            wrong: true,
            ..lists
        }),
        "pairs" => Ok(Lists {
            pairs: true,
            ..lists
        }),
        _ => Err(OptionFault::List),
    }
}

/// The lists that are wanted.
fn lists_of(matches: &ArgMatches<'_>) -> Result<Lists, OptionFault> {
    let mut lists = Lists::NONE;
    let Some(mut rest) = matches.get_str("list") else {
        return Ok(lists);
    };
    for _ in 0..3 {
        match rest.split_once(',') {
            Some((word, behind)) => {
                lists = with_list(lists, word)?;
                rest = behind;
            }
            None => return with_list(lists, rest),
        }
    }
    Err(OptionFault::List)
}

/// The format that the parser let through.
fn format_of(matches: &ArgMatches<'_>) -> Format {
    match matches.get_str("format") {
        Some("json") => Format::Json,
        Some("csv") => Format::Csv,
        Some("svg") => Format::Svg,
        Some("html") => Format::Html,
        _ => Format::Text,
    }
}

/// How times are told, which a table and a picture have no place for.
fn times_of(matches: &ArgMatches<'_>, format: Format) -> Result<Times, OptionFault> {
    match (matches.get_str("time"), format) {
        (None, _) => Ok(Times::Relative),
        (Some(_), Format::Text | Format::Json) => Ok(Times::Utc),
        _ => Err(OptionFault::Time),
    }
}

/// Where the captures were made. They are named as they are wanted: both LANs, or a mirror port.
pub(crate) fn ports_of(matches: &ArgMatches<'_>) -> Result<Ports, OptionFault> {
    let has_lans = matches.contains_id("a") || matches.contains_id("b");
    match (has_lans, matches.contains_id("mirror")) {
        (true, false) => Ok(Ports::Two),
        (false, true) => Ok(Ports::Mirror),
        (true, true) => Err(OptionFault::Mirror),
        (false, false) => Err(OptionFault::NoCaptures),
    }
}

/// The capture of side A, or of the mirror port.
pub(crate) fn first_capture_of<'a>(
    matches: &ArgMatches<'a>,
    words: &'a [String],
    ports: Ports,
) -> Result<Capture<'a>, OptionFault> {
    match ports {
        Ports::Two => capture_of(matches, words, "a", "--a"),
        Ports::Mirror => capture_of(matches, words, "mirror", "--mirror"),
    }
}

/// The capture of side B. A mirror port has none.
pub(crate) fn second_capture_of<'a>(
    matches: &ArgMatches<'a>,
    words: &'a [String],
    ports: Ports,
) -> Result<Capture<'a>, OptionFault>
    ensures { IfOk result (λ capture. StandsAlone ports capture.paths) }
{
    match ports {
        Ports::Two => capture_of(matches, words, "b", "--b"),
        Ports::Mirror => Ok(Capture::none()),
    }
}

/// Whether this format has place for these lists, or why not.
fn place(format: Format, lists: Lists) -> Result<(), OptionFault>
    ensures ok { OnOk result (FitsFormat format lists) }
    ensures err { FitsFormat format lists → result ≡ Ok tt }
{
    match format {
        Format::Csv if lists.count() > 1 => Err(OptionFault::Table),
        Format::Svg if lists.count() > 0 => Err(OptionFault::Picture),
        Format::Html if lists.count() > 0 => Err(OptionFault::Listed),
        _ => Ok(()),
    }
}

/// What the subcommand is to do.
pub(crate) fn audit_task<'a>(
    matches: &ArgMatches<'a>,
    words: &'a [String],
) -> Result<AuditTask<'a>, OptionFault>
    ensures { IfOk result (λ task. AuditKeepsRules task) }
{
    let ports = ports_of(matches)?;
    let a = first_capture_of(matches, words, ports)?;
    let b = second_capture_of(matches, words, ports)?;
    let interfaces = Interfaces {
        a: a.wanted,
        b: b.wanted,
        c: Wanted::Only,
    };
    let options = options_of(matches, interfaces)?;
    let format = format_of(matches);
    let lists = lists_of(matches)?;
    place(format, lists)?;
    let times = times_of(matches, format)?;
    let page = page_words_of(matches, format)?;
    let early = early_of(shift_a_of(matches)?, shift_b_of(matches)?);
    Ok(AuditTask {
        a: a.paths,
        b: b.paths,
        options,
        network: network_of(matches),
        ports,
        shift: shift_in(matches),
        lists,
        format,
        times,
        page,
        early,
        max_lost: time_of(matches, "max-lost", OptionFault::MaxLost)?,
        max_skew: time_of(matches, "max-skew-us", OptionFault::MaxSkew)?,
        is_check: matches.get_flag("check"),
        is_complete: matches.get_flag("complete"),
        is_whole: matches.get_flag("whole"),
        is_same: is_same(matches),
    })
}
