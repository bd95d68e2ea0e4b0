//! The network of a script, from its first node to what is printed of its last.

ghost use Rattle.std.specs.Prelude.{◌≡◌, ◌<◌, ◌++◌, ◌∷◌, [], length, map, slice_get, vec_len, IfOk, OnOk};
ghost use Rattle.sr_plant.specs.Limits.{most_nodes};
ghost use Rattle.sr_plant_script.specs.Members.{routed_as};
ghost use Rattle.sr_threaded_script.specs.Beginnings.{beginning_of, starting_node, starting_nodes};
ghost use Rattle.sr_threaded_script.specs.Members.{member_kind};
ghost use Rattle.sr_threaded_script.specs.Networks.{IsReport, RanIn};
ghost use Rattle.sr_threaded_script.specs.Reports.{AllWhole, faults_of, given_on_line, given_to, report_of};
ghost use Rattle.sr_threaded_script.specs.Sent.{own_frames};

use crate::fault::RunFault;
use crate::host::Host;
use crate::printing::append_report;
use crate::setup::{ThreadedNet, ThreadedSetup};
use sr_forwarding::{OwnRole, Port, PortFraming, Routing, framing_at};
use sr_frame::{Frame, NoMemory};
use sr_lines::Line;
use sr_node::NodeOf;
use sr_plant_script::{Member, MemberRouting, mac_of};
use sr_text::Text;
use sr_threaded::{NetworkFault, NodeEnd, NodeKit, run_ring, run_twin};
use sr_workers::{Feed, WorkerFault};
use std::alloc::Global;
use std::sync::Wait;
use std::thread::Threads;

// Where frames go at the nodes: as at doubly attached nodes of what the network is.
fn routing_of(net: ThreadedNet) -> MemberRouting
    ensures { routed_as result ≡ member_kind net }
{
    match net {
        ThreadedNet::Ring => MemberRouting::Danh,
        ThreadedNet::TwinLan => MemberRouting::Danp,
    }
}

// The node of this number, and its host, which is to send these frames.
#[tactic(auto, using(crate::proofs::Begun::begins))]
fn kit_of(
    alloc: Global,
    setup: &ThreadedSetup,
    number: usize,
    frames: Vec<Frame>,
) -> Result<NodeKit<Member, PortFraming, Host>, NoMemory>
    requires { number < most_nodes }
    ensures { IfOk result (λ k. beginning_of k ≡ starting_node setup.now number frames.items) }
{
    let routing = routing_of(setup.net);
    let kind = routing.kind();
    let role = OwnRole::of(mac_of(number), routing);
    let feed = Host::new(alloc, frames);
    match NodeOf::with(alloc, role, setup.settings) {
        Ok(node) => Ok(NodeKit {
            node,
            a: framing_at(kind, Port::A),
            b: framing_at(kind, Port::B),
            host: framing_at(kind, Port::H),
            feed,
        }),
        Err(refused) => Err(refused),
    }
}

// Takes what is to be sent, where it is by the host of this node.
#[tactic(auto, using(crate::proofs::Chosen::passed, crate::proofs::Chosen::taken))]
fn take_own(
    alloc: Global,
    frames: &mut Vec<Frame>,
    one: &(usize, Frame),
    number: usize,
) -> Result<(), NoMemory>
    ensures { OnOk result (frames.new.items
        ≡ frames.old.items ++ own_frames number (one.now ∷ [])) }
{
    if one.0 != number {
        return Ok(());
    }
    let copy = one.1.try_clone(alloc)?;
    frames.reserve(1)?;
    frames.push_reserved(copy);
    Ok(())
}

// The frames that the host of a node is to send, in order.
fn own_frames(alloc: Global, sent: &[(usize, Frame)], number: usize) -> Result<Vec<Frame>, NoMemory>
    ensures { IfOk result (λ v. v.items ≡ own_frames number sent.now) }
{
    let mut frames = Vec::new(alloc);
    for one in sent {
        take_own(alloc, &mut frames, one, number)?;
    }
    Ok(frames)
}

// The nodes of a network, and their hosts.
fn kits_of(
    alloc: Global,
    setup: &ThreadedSetup,
    sent: &[(usize, Frame)],
) -> Result<Vec<NodeKit<Member, PortFraming, Host>>, NoMemory>
    ensures count { IfOk result (λ kits. vec_len kits ≡ setup.now.nodes) }
    ensures new { IfOk result (λ kits. map beginning_of kits.items
        ≡ starting_nodes setup.now sent.now setup.now.nodes) }
{
    let mut kits = Vec::new(alloc);
    for number in 0..setup.nodes {
        let frames = own_frames(alloc, sent, number)?;
        let kit = kit_of(alloc, setup, number, frames)?;
        kits.reserve(1)?;
        kits.push_reserved(kit);
    }
    Ok(kits)
}

// What the host at a line was given, and nothing at wires.
fn given_on_line(line: &Line<Host>) -> &[Frame]
    ensures { result.now ≡ given_on_line line.now }
{
    match line {
        Line::Host(host) => host.given(),
        Line::Ring(_) | Line::Lan(_) => &[],
    }
}

// What the host of a node was given.
fn given_to(end: &NodeEnd<Host>) -> &[Frame]
    ensures { result.now ≡ given_to end.now }
{
    match end.ends.last() {
        Some(last) => given_on_line(&last.line),
        None => &[],
    }
}

// What ended a worker of a node early, if anything did: the first fault in the order of the workers.
#[tactic(auto, using(crate::proofs::Faults::first, crate::proofs::Faults::passed))]
fn fault_in(end: &NodeEnd<Host>) -> Option<WorkerFault>
    ensures { result ≡ slice_get (faults_of end.now) 0 }
{
    let mut rest = end.ends.as_slice();
    while let Some((one, behind)) = rest.split_first() {
        rest = behind;
        if let Some(fault) = one.fault {
            return Some(fault);
        }
    }
    None
}

// What is printed of the nodes that ran. An error where a worker ended early, too.
fn append_ends(text: &mut Text, ends: &[NodeEnd<Host>]) -> Result<(), RunFault>
    requires { text.old ≡ [] }
    ensures printed { OnOk result (text.new ≡ report_of ends.now) }
    ensures whole { OnOk result (AllWhole ends.now) }
{
    for node in 0..ends.len() {
        let end = &ends[node];
        if let Some(fault) = fault_in(end) {
            return Err(fault.into());
        }
        append_report(text, node, given_to(end), end.settlement, end.lost)?;
    }
    Ok(())
}

// Runs the nodes.
fn run_kits<W: Threads + Wait + Sync>(
    rt: &W,
    alloc: Global,
    net: ThreadedNet,
    kits: Vec<NodeKit<Member, PortFraming, Host>>,
    turns: u64,
) -> Result<Vec<NodeEnd<Host>>, NetworkFault>
    ensures ends { IfOk result (λ v. vec_len v ≡ vec_len kits) }
    ensures ran { IfOk result (λ v. RanIn ⟦<Host as Feed>⟧ net turns kits.items v.items) }
{
    match net {
        ThreadedNet::Ring => run_ring(rt, alloc, kits, turns),
        ThreadedNet::TwinLan => run_twin(rt, alloc, kits, turns),
    }
}

/// Runs the network of a script, whose hosts send these frames, for so many turns. `text` is then what is printed of it.
pub(crate) fn run_network<W: Threads + Wait + Sync>(
    rt: &W,
    alloc: Global,
    setup: &ThreadedSetup,
    turns: u64,
    sent: &[(usize, Frame)],
    text: &mut Text,
) -> Result<(), RunFault>
    requires { text.old ≡ [] }
    ensures { OnOk result (IsReport ⟦<Host as Feed>⟧ setup.now sent.now turns text.new) }
{
    let kits = match kits_of(alloc, setup, sent) {
        Ok(kits) => kits,
        Err(refused) => return Err(refused.into()),
    };
    match run_kits(rt, alloc, setup.net, kits, turns) {
        Ok(ends) => append_ends(text, &ends),
        Err(fault) => Err(fault.into()),
    }
}
