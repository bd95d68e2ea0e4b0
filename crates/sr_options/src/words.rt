//! The words that options take, with what they mean.

use clap::builder::PossibleValue;

/// The words that options take, with what they mean. A parser borrows them, so they are made ahead of it.
#[derive(Clone, Copy)]
pub struct Words<'a> {
    pub(crate) roles: [PossibleValue<'a>; 5],
    pub(crate) lans: [PossibleValue<'a>; 2],
    pub(crate) modes: [PossibleValue<'a>; 2],
    pub(crate) windows: [PossibleValue<'a>; 2],
    pub(crate) networks: [PossibleValue<'a>; 2],
    pub(crate) formats: [PossibleValue<'a>; 5],
    pub(crate) scopes: [PossibleValue<'a>; 1],
    pub(crate) times: [PossibleValue<'a>; 1],
}

/// The words of `--role`.
fn role_words<'a>() -> [PossibleValue<'a>; 5] {
    [
        PossibleValue::new("danp").help("a node of a PRP network, on LANs A and B"),
        PossibleValue::new("danh").help("a node of an HSR ring"),
        PossibleValue::new("san").help("a RedBox of a ring, for nodes that know no redundancy"),
        PossibleValue::new("prp").help("a RedBox of a ring, for a LAN of a PRP network"),
        PossibleValue::new("hsr").help("a RedBox of a ring, for a second ring"),
    ]
}

/// The words of `--mode`.
fn mode_words<'a>() -> [PossibleValue<'a>; 2] {
    [
        PossibleValue::new("h").help("a frame goes on wherever no copy of it went"),
        PossibleValue::new("x").help("nor does it go on where a copy of it came in"),
    ]
}

/// The words of `--window`.
fn window_words<'a>() -> [PossibleValue<'a>; 2] {
    [
        PossibleValue::new("1024").help("a copy is a duplicate behind up to 1023 later frames"),
        PossibleValue::new("2048").help("behind up to 2047; a source takes twice the memory"),
    ]
}

/// The words of `--network`.
fn network_words<'a>() -> [PossibleValue<'a>; 2] {
    [
        PossibleValue::new("prp").help("a PRP network: numbers stand in trailers"),
        PossibleValue::new("hsr").help("an HSR ring: numbers stand in tags"),
    ]
}

/// The words of `--format`.
fn format_words<'a>() -> [PossibleValue<'a>; 5] {
    [
        PossibleValue::new("text").help("a line for each capture and source: words and numbers"),
        PossibleValue::new("json").help("the same lines, each an object"),
        PossibleValue::new("csv").help("a table of the sources, or of what --list names"),
        PossibleValue::new("svg").help("a picture: skew against time, and what was lost"),
        PossibleValue::new("html").help(
            "a page to hand in: the verdict, what it stands on, and all figures",
        ),
    ]
}

impl<'a> Words<'a> {
    /// All of them.
    pub fn new() -> Words<'a> {
        Words {
            roles: role_words(),
            lans: [
                PossibleValue::new("a").help("LAN A"),
                PossibleValue::new("b").help("LAN B"),
            ],
            modes: mode_words(),
            windows: window_words(),
            networks: network_words(),
            formats: format_words(),
            scopes: [PossibleValue::new("lost").help("those that have a comment")],
            times: [PossibleValue::new("utc").help(
                "by times of day, as 2026-11-30T00:52:13.123456Z",
            )],
        }
    }
}
