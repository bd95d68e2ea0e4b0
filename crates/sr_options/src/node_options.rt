//! The options that tell nodes how to work.

use crate::command_line::with_arg;
use crate::words::Words;
use clap::{Arg, ArgMatches, Command};
use std::alloc::{AllocError, Global};

/// Whether a node sends a copy back to where one came from (IEC 62439-3 clause 5).
#[derive(Clone, Copy, Debug, PartialEq, Eq)]
pub enum Mode {
    /// A frame goes on wherever no copy of it went.
    H,
    /// Nor does it go on where a copy of it came in.
    X,
}

/// How many numbers of a source a node remembers.
#[derive(Clone, Copy, Debug, PartialEq, Eq)]
pub enum Window {
    /// The last 1024.
    Narrow,
    /// The last 2048.
    Wide,
}

/// How nodes work.
#[derive(Clone, Copy, Debug, PartialEq, Eq)]
pub struct NodeOptions {
    /// Whether they send a copy back.
    pub mode: Mode,
    /// How many numbers of a source each remembers.
    pub window: Window,
}

/// The mode of each node: `[--mode h|x]`.
fn mode_option<'a>(alloc: Global, words: &'a Words<'a>) -> Arg<'a> {
    Arg::new(alloc, "mode")
        .long("mode")
        .default_value("h")
        .value_name("MODE")
        .value_parser(words.modes.as_slice())
        .help("Whether a node sends a copy back to where one came from")
}

/// How many numbers of a source each node remembers: `[--window 1024|2048]`.
fn window_option<'a>(alloc: Global, words: &'a Words<'a>) -> Arg<'a> {
    Arg::new(alloc, "window")
        .long("window")
        .default_value("1024")
        .value_name("COUNT")
        .value_parser(words.windows.as_slice())
        .help("How many numbers of a source a node remembers")
}

/// A command with the options that tell nodes how to work, if it was made.
pub(crate) fn with_node_options<'a>(
    alloc: Global,
    command: Result<Command<'a>, AllocError>,
    words: &'a Words<'a>,
) -> Result<Command<'a>, AllocError> {
    let command = with_arg(command, mode_option(alloc, words));
    with_arg(command, window_option(alloc, words))
}

/// The mode that the parser let through.
fn mode_of(matches: &ArgMatches<'_>) -> Mode {
    match matches.get_str("mode") {
        Some("x") => Mode::X,
        _ => Mode::H,
    }
}

/// The window that the parser let through.
fn window_of(matches: &ArgMatches<'_>) -> Window {
    match matches.get_str("window") {
        Some("2048") => Window::Wide,
        _ => Window::Narrow,
    }
}

/// How nodes work, by the options that the parser let through.
pub(crate) fn node_options_of(matches: &ArgMatches<'_>) -> NodeOptions {
    NodeOptions {
        mode: mode_of(matches),
        window: window_of(matches),
    }
}
