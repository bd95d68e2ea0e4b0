//! Entries by which a fuzzer hands octets to nodes, scripts, networks, captures, audits, merges and snapshots. Each tells in one number
//! what came of them, so that two builds can be compared.
#![tactic(auto)]

mod audits;
mod captures;
mod digest;
mod files;
mod merges;
mod networks;
mod nodes;
mod scripts;
mod sink;
mod snapshots;

use digest::Digest;
use std::alloc::Global;

/// What an entry answers where something came that may not come.
const WRONG: u64 = 0;

// The number that an entry answers. None: what came may not come.
fn number_of(digest: Option<Digest>) -> u64 {
    match digest {
        Some(digest) => digest.number(),
        None => WRONG,
    }
}

/// Octets at the ports of a node. 0 where an allocation failed, as in each of these entries.
#[unsafe(no_mangle)]
pub extern "C" fn fuzz_node(alloc: Global, octets: &[u8]) -> u64 {
    number_of(nodes::come_of(alloc, octets))
}

/// A script at a node.
#[unsafe(no_mangle)]
pub extern "C" fn fuzz_script(alloc: Global, octets: &[u8]) -> u64 {
    number_of(scripts::come_of(alloc, octets))
}

/// A script at a network of any of the four kinds.
#[unsafe(no_mangle)]
pub extern "C" fn fuzz_network(alloc: Global, octets: &[u8]) -> u64 {
    number_of(networks::come_of(alloc, octets))
}

/// An audit of one capture or two.
#[unsafe(no_mangle)]
pub extern "C" fn fuzz_audit(alloc: Global, octets: &[u8]) -> u64 {
    number_of(audits::come_of(alloc, octets))
}

/// A merge of two captures. 0 also where the counts of packets do not add up.
#[unsafe(no_mangle)]
pub extern "C" fn fuzz_merge(alloc: Global, octets: &[u8]) -> u64 {
    number_of(merges::come_of(alloc, octets))
}

/// One capture or two, pcap or pcapng, of which a script is made.
#[unsafe(no_mangle)]
pub extern "C" fn fuzz_capture(alloc: Global, octets: &[u8]) -> u64 {
    number_of(captures::come_of(alloc, octets))
}

/// A snapshot of a table of sources. 0 also where it is read as a table that is not written as it again.
#[unsafe(no_mangle)]
pub extern "C" fn fuzz_snapshot(alloc: Global, octets: &[u8]) -> u64 {
    number_of(snapshots::come_of(alloc, octets))
}
