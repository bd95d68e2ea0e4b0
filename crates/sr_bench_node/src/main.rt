//! Work to be measured from outside: `sr_bench_node node|sources WORK TIMES` has a node, or its table of sources alone, do a work
//! so many times. What comes before the work is the same for any number of times, so two runs tell what one time costs.
#![tactic(auto)]

mod node;
mod sources;
mod works;

use node::{NodeAtWork, OWN};
use sources::SourcesAtWork;
use sr_forwarding::{Danp, Role};
use std::alloc::Global;
use std::process::ExitCode;
use std::rt::Env;
use works::{Count, Subject, Work, done, work_of};

/// The exit status where the command line names no work, or an allocation failed before it.
const FAILED: u8 = 1;

fn main(rt: HostRuntime) -> ExitCode {
    match start(&rt) {
        Some(count) => {
            let Count { new, old, refused } = count;
            let _ = println!(rt; "{new} new, {old} old, {refused} refused");
            ExitCode::SUCCESS
        }
        None => ExitCode::from(FAILED),
    }
}

/// Does what the command line says. None where it says nothing that is known, or an allocation fails.
fn start<R: AllocGlobal + Env>(rt: &R) -> Option<Count> {
    let args = std::env::args(rt).ok()?;
    let words = args.collect::<Vec<String>>(rt.alloc()).ok()?;
    let [_, subject, work, times] = words.as_slice() else {
        return None;
    };
    has_done(rt.alloc(), subject, work_of(work)?, times.parse().ok()?)
}

/// Has a subject of this name do this work so many times.
fn has_done(alloc: Global, subject: &str, work: Work, times: u32) -> Option<Count> {
    match subject {
        "node" => {
            let danp = Box::new(alloc, Danp::new(OWN)).ok()?;
            let role: Box<dyn Role + Send> = danp;
            Some(done(&mut NodeAtWork::new(alloc, role)?, work, times))
        }
        "sources" => Some(done(&mut SourcesAtWork::new(alloc), work, times)),
        _ => None,
    }
}
