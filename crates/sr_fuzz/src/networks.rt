//! Scripts at networks of each kind.

ghost use Rattle.std.specs.Prelude.{◌≤◌};

use crate::digest::Digest;
use crate::scripts::{digest_of, settings_of};
use crate::sink::Sink;
use sr_plant_script::{Joins, PlantSetup, run_plant};
use std::alloc::Global;

/// The nodes of a ring, or of two LANs: 2 to 16.
fn nodes_of(size: u8) -> usize
    ensures least { 2 ≤ result }
    ensures most { result ≤ 16 }
{
    usize::from(size).clamp(2, 16)
}

/// The nodes of a ring that has the boxes of two LANs: 3 to 16.
fn ring_of(size: u8) -> usize
    ensures least { 3 ≤ result }
    ensures most { result ≤ 16 }
{
    usize::from(size).clamp(3, 16)
}

/// The nodes of two LANs behind boxes: 1 to 14.
fn lan_of(size: u8) -> usize
    ensures least { 1 ≤ result }
    ensures most { result ≤ 14 }
{
    usize::from(size).clamp(1, 14)
}

/// How many links join two rings.
fn joins_of(choice: u8) -> Joins {
    if choice & 4 == 0 {
        Joins::One
    } else {
        Joins::Two
    }
}

/// The network that an octet names, of nodes that another one counts: by its halves, each one less than is meant.
fn setup_of(choice: u8, sizes: u8) -> PlantSetup {
    let settings = settings_of(choice);
    let first = (sizes & 15).saturating_add(1);
    let second = (sizes >> 4).saturating_add(1);
    match choice & 3 {
        0 => PlantSetup::ring(nodes_of(first), settings),
        1 => PlantSetup::twin_lan(nodes_of(first), settings),
        2 => PlantSetup::ring_lan(ring_of(first), lan_of(second), settings),
        _ => PlantSetup::two_rings(
            nodes_of(first),
            nodes_of(second),
            joins_of(choice),
            settings,
        ),
    }
}

/// What comes of a script: the first octet names the network, the second one its sizes. None where an allocation failed.
pub fn come_of(alloc: Global, octets: &[u8]) -> Option<Digest> {
    let [choice, sizes, script @ ..] = octets else {
        return Some(Digest::new());
    };
    let setup = setup_of(*choice, *sizes);
    let mut reader = script;
    let mut sink = Sink::new();
    let outcome = run_plant(alloc, &setup, &mut reader, &mut sink);
    digest_of(sink, outcome)
}
