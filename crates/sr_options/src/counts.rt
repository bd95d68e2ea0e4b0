//! How many nodes a network has.

ghost use Rattle.std.specs.Prelude.{◌≤◌};

use clap::ArgMatches;

/// How many nodes a ring or two LANs have: 2 to 16.
#[derive(Clone, Copy, Debug)]
pub struct Nodes {
    /// The number.
    pub count: usize,
    pub ghost least: { 2 ≤ count },
    pub ghost most: { count ≤ 16 },
}

/// How many nodes a ring has of which two are the boxes of LANs: 3 to 16.
#[derive(Clone, Copy, Debug)]
pub struct BoxedNodes {
    /// The number.
    pub count: usize,
    pub ghost least: { 3 ≤ count },
    pub ghost most: { count ≤ 16 },
}

/// How many nodes two LANs have behind the boxes of a ring: 1 to 14.
#[derive(Clone, Copy, Debug)]
pub struct LanNodes {
    /// The number.
    pub count: usize,
    pub ghost least: { 1 ≤ count },
    pub ghost most: { count ≤ 14 },
}

/// The number that a word spells which the parser let through, within its range.
fn count_of(word: &str, least: usize, most: usize) -> usize
    requires range { least ≤ most }
    ensures least { least ≤ result }
    ensures most { result ≤ most }
{
    match word.parse::<usize>() {
        Ok(count) => count.clamp(least, most),
        Err(_) => least,
    }
}

/// The number of an option that the parser let through, within its range.
fn count_in(matches: &ArgMatches<'_>, name: &str, least: usize, most: usize) -> usize
    requires range { least ≤ most }
    ensures least { least ≤ result }
    ensures most { result ≤ most }
{
    match matches.get_str(name) {
        Some(word) => count_of(word, least, most),
        None => least,
    }
}

/// How many nodes a ring or two LANs have, by an option that the parser let through.
pub(crate) fn nodes_in(matches: &ArgMatches<'_>, name: &str) -> Nodes {
    Nodes {
        count: count_in(matches, name, 2, 16),
    }
}

/// How many nodes a ring with the boxes of two LANs has.
pub(crate) fn boxed_nodes_in(matches: &ArgMatches<'_>) -> BoxedNodes {
    BoxedNodes {
        count: count_in(matches, "ring", 3, 16),
    }
}

/// How many nodes two LANs have behind the boxes of a ring.
pub(crate) fn lan_nodes_in(matches: &ArgMatches<'_>) -> LanNodes {
    LanNodes {
        count: count_in(matches, "lan", 1, 14),
    }
}
