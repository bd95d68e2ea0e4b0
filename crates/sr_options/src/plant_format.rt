//! How a run of a network is told: `[--format text|json|svg]`, and how other lines are: `[--format text|json]`.

use crate::script_line::option;
use clap::{Arg, ArgMatches};
use std::alloc::Global;

/// How lines are spelled.
#[derive(Clone, Copy, Debug, PartialEq, Eq)]
pub enum LineFormat {
    /// As words and numbers.
    Text,
    /// Each as an object.
    Json,
}

/// How a run of a network by steps is told.
#[derive(Clone, Copy, Debug, PartialEq, Eq)]
pub enum PlantFormat {
    /// By lines.
    Lines(LineFormat),
    /// By a picture.
    Svg,
}

/// How a run of a network is told.
pub(crate) fn format_option<'a>(alloc: Global) -> Arg<'a> {
    option(
        alloc,
        "format",
        "FORMAT",
        "How the run is told: svg draws it",
    )
    .default_value("text")
    .value_parser(["text", "json", "svg"].as_slice())
}

/// How lines are spelled.
pub(crate) fn line_format_option<'a>(alloc: Global, help: &'a str) -> Arg<'a> {
    option(alloc, "format", "FORMAT", help)
        .default_value("text")
        .value_parser(["text", "json"].as_slice())
}

/// The spelling that the parser let through.
pub(crate) fn line_format_of(matches: &ArgMatches<'_>) -> LineFormat {
    match matches.get_str("format") {
        Some("json") => LineFormat::Json,
        _ => LineFormat::Text,
    }
}

/// The format that the parser let through.
pub(crate) fn format_of(matches: &ArgMatches<'_>) -> PlantFormat {
    match matches.get_str("format") {
        Some("svg") => PlantFormat::Svg,
        Some("json") => PlantFormat::Lines(LineFormat::Json),
        _ => PlantFormat::Lines(LineFormat::Text),
    }
}
