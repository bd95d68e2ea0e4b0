//! What the table has of one node.
ghost use Rattle.std.specs.Prelude.{◌≡◌, Some};
ghost use Rattle.sr_node_table.specs.Nodes.{is_live, times_after, port_after, node_after, entry_after, begun_by, hearing_of, at_port, learnt_again};

use crate::table::NODE_FORGET_TIME;
use sr_aged_slots::Aged;
use sr_frame::{LearnOutcome, Mac, Port};
use sr_sequence::Seq;
use sr_supervision::Life;

/// What a node announced of itself last.
#[derive(Clone, Copy, Debug, PartialEq, Eq)]
pub struct Announced {
    /// How it announced itself.
    pub life: Life,
    /// The RedBox that it said it stands behind.
    pub redbox: Option<Mac>,
}

/// What one hearing of a node tells.
#[derive(Clone, Copy, Debug, PartialEq, Eq)]
pub enum Told {
    /// A frame of the node's, with this number.
    Numbered(Seq),
    /// A supervision frame about the node, of whatever source.
    Announces(Announced),
}

/// What was heard of a node at one port, since its last silence.
#[derive(Clone, Copy, Debug, PartialEq, Eq)]
pub struct AtPort {
    /// The latest time, in milliseconds. None: never.
    pub time: Option<u64>,
    /// The number of its last numbered frame; 0 where there was none.
    pub seq: u16,
}

/// What was heard of a node since its last silence.
#[derive(Clone, Copy, Debug, PartialEq, Eq)]
pub struct Node {
    pub a: AtPort,
    pub b: AtPort,
    /// What it announced last, if anything.
    pub announced: Option<Announced>,
}

// A port at which nothing was heard.
const SILENT: AtPort = AtPort { time: None, seq: 0 };

// A node of which nothing was heard.
const UNHEARD: Node = Node {
    a: SILENT,
    b: SILENT,
    announced: None,
};

// The latest time, where another one comes.
fn later(time: Option<u64>, now: u64) -> u64
    ensures { Some result ≡ times_after time now }
{
    match time {
        Some(time) => time.max(now),
        None => now,
    }
}

// Records an observation of the node at this port.
fn observe_at(port: &mut AtPort, told: Told, now: u64)
    ensures { port.new ≡ port_after port.old told now }
{
    port.time = Some(later(port.time, now));
    if let Told::Numbered(seq) = told {
        port.seq = seq.0;
    }
}

// Takes a hearing of a node up.
fn observe_node(node: &mut Node, port: Port, told: Told, now: u64)
    ensures { node.new ≡ node_after node.old port told now }
{
    match port {
        Port::A => observe_at(&mut node.a, told, now),
        _ => observe_at(&mut node.b, told, now),
    }
    if let Told::Announces(announced) = told {
        node.announced = Some(announced);
    }
}

/// A node of which this is the first hearing.
pub(crate) fn begun(port: Port, told: Told, now: u64) -> Node
    ensures { result ≡ begun_by port told now }
{
    let mut node = UNHEARD;
    observe_node(&mut node, port, told, now);
    node
}

/// Whether the node is not forgotten.
pub(crate) fn is_live(entry: &Aged<Node>, now: u64) -> bool
    ensures { result ≡ is_live now entry.now }
{
    entry.is_live(NODE_FORGET_TIME, now)
}

/// Takes a hearing up: within the node's life, or as the first of a new one. Answers whether it was known.
pub(crate) fn observe(entry: &mut Aged<Node>, port: Port, told: Told, now: u64) -> LearnOutcome
    ensures after { entry.new ≡ entry_after entry.old port told now }
    ensures answer { result ≡ learnt_again now entry.old }
{
    if is_live(entry, now) {
        entry.time = entry.time.max(now);
        observe_node(&mut entry.value, port, told, now);
        LearnOutcome::Known
    } else {
        entry.time = now;
        entry.value = begun(port, told, now);
        LearnOutcome::New
    }
}

/// What was heard at a port.
pub(crate) fn at_port(node: &Node, port: Port) -> AtPort
    ensures { result ≡ at_port node.now port }
{
    match port {
        Port::A => node.a,
        _ => node.b,
    }
}
