//! The words by which `seamless audit` and `seamless merge` read captures.

use crate::command_line::with_arg;
use crate::fault::OptionFault;
use crate::script_line::{
    check_len_of, choice_of, option, shift_a_of, shift_b_of, with_option, with_shift,
};
use crate::shifts::delays_in;
use crate::words::Words;
use clap::{ArgMatches, Command};
use sr_capture_script::{Interfaces, Options};
use std::alloc::{AllocError, Global};

/// How frames of a network have their numbers.
#[derive(Clone, Copy, Debug, PartialEq, Eq)]
pub enum Network {
    /// By a trailer, in a PRP network (IEC 62439-3 clause 4).
    Prp,
    /// By a tag, in an HSR ring (IEC 62439-3 clause 5).
    Hsr,
}

/// A command with the option that says how frames have their numbers, if it was made.
pub(crate) fn with_network<'a>(
    alloc: Global,
    command: Result<Command<'a>, AllocError>,
    words: &'a Words<'a>,
) -> Result<Command<'a>, AllocError> {
    let network = option(alloc, "network", "NETWORK", "How frames have their numbers")
        .default_value("prp")
        .value_parser(words.networks.as_slice());
    with_arg(command, network)
}

/// A command with the options that say how captures are read: the network, shifts, check sequences, and the part that is wanted.
pub(crate) fn with_reading<'a>(
    alloc: Global,
    command: Result<Command<'a>, AllocError>,
    words: &'a Words<'a>,
) -> Result<Command<'a>, AllocError> {
    let command = with_network(alloc, command, words);
    let shift = "What is added to the times of A: milliseconds, or 0.3ms, 300us, 5s";
    let command = with_shift(alloc, command, "shift-a", shift);
    let shift = "What is added to the times of B: milliseconds, or 0.3ms, 300us, 5s";
    let command = with_shift(alloc, command, "shift-b", shift);
    let fcs = "The octets of check sequence, where a file does not tell";
    let fcs = option(alloc, "fcs", "4", fcs).value_parser(["4"].as_slice());
    let command = with_arg(command, fcs);
    let from = "The time of the first packet, in milliseconds";
    let command = with_option(alloc, command, "from", "T", from);
    let to = "The time of the last packet, in milliseconds";
    with_option(alloc, command, "to", "T", to)
}

/// The network that the parser let through.
pub(crate) fn network_of(matches: &ArgMatches<'_>) -> Network {
    match matches.get_str("network") {
        Some("hsr") => Network::Hsr,
        _ => Network::Prp,
    }
}

/// How the captures are read.
pub(crate) fn options_of(
    matches: &ArgMatches<'_>,
    interfaces: Interfaces,
) -> Result<Options, OptionFault> {
    let shift_a = shift_a_of(matches)?;
    let shift_b = shift_b_of(matches)?;
    let delays = delays_in(shift_a, shift_b, 0).ok_or(OptionFault::Shifts)?;
    Ok(Options {
        choice: choice_of(matches)?,
        check_len: check_len_of(matches),
        delays,
        interfaces,
    })
}
