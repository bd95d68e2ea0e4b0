//! A million random events at a node that threads share, and the same ones at a plain node on another thread: each answers as the
//! other, and in the end both are equal. `gate/allocations.py` has allocations of the first thread fail all along, and none of
//! the other's. An event that is refused for that is entered again.

ghost use Rattle.std.specs.Prelude.{◌≡◌};

use super::draws::{Draw, Drawing, event_of};
use super::frames::OWN;
use sr_forwarding::Role;
use sr_frame::{NoMemory, Port};
use sr_node::{Answer, NodeImage, NodeOf, StepFault};
use sr_ports::{EnterFault, Kept, Pass, Passes, SharedNode, enter, rotate};
use sr_redbox::SanBox;
use sr_sequence::Seq;
use std::alloc::Global;
use std::marker::Brand;
use std::sync::Wait;
use std::sync::ledger::{Blank, Ledger};
use std::thread::{Threads, join};

// So many events.
const EVENTS: u64 = 1_000_000;

// What a node answered: how many events it took, how many it refused, for how many an allocation failed at last, and a number
// that all answers make in their order.
#[derive(Clone, Copy, PartialEq, Eq)]
struct Told {
    taken: u64,
    refused: u64,
    short: u64,
    mark: u64,
}

// What a node answered, and how it ended.
#[derive(Drop)]
struct End {
    told: Told,
    image: NodeImage,
}

fn ports_mark(ports: &[Port]) -> u64 {
    let mut mark = 0u64;
    for port in [Port::H, Port::A, Port::B, Port::C] {
        mark = mark
            .wrapping_mul(2)
            .wrapping_add(ports.contains(&port) as u64);
    }
    mark
}

fn number_mark(seq: Option<Seq>) -> u64 {
    match seq {
        Some(Seq(number)) => 1 + number as u64,
        None => 0,
    }
}

fn answer_mark(answer: &Answer) -> u64 {
    match answer {
        Answer::Own => 1,
        Answer::Passed(ports) => ports_mark(ports.as_slice()).wrapping_add(2),
        Answer::Sent(seq) => number_mark(Some(*seq)).wrapping_add(100),
        Answer::Ticked { sources, life, .. } => {
            (*sources as u64).wrapping_add(number_mark(*life))
        }
        Answer::Taken(Some(parcel)) => number_mark(parcel.seq()).wrapping_add(200_000),
        Answer::Taken(None) => 3,
    }
}

impl Told {
    // Counts what was answered, and lets it go.
    fn note(&mut self, entered: Result<Answer, EnterFault>) {
        let mark = match &entered {
            Ok(answer) => {
                self.taken = self.taken.saturating_add(1);
                answer_mark(answer)
            }
            Err(EnterFault::Step(StepFault::NoMemory)) => {
                self.short = self.short.saturating_add(1);
                0
            }
            Err(_) => {
                self.refused = self.refused.saturating_add(1);
                4
            }
        };
        drop(entered);
        self.mark = self.mark.wrapping_mul(1_000_003).wrapping_add(mark);
    }
}

const NOTHING: Told = Told {
    taken: 0,
    refused: 0,
    short: 0,
    mark: 0,
};

fn stepped<R: Role>(
    alloc: Global,
    node: &mut NodeOf<R>,
    draw: &Draw,
) -> Result<Answer, EnterFault> {
    let event = event_of(alloc, draw)?;
    let stepped = node.step(&event);
    drop(event);
    Ok(stepped?)
}

fn step_all<R: Role>(alloc: Global, node: &mut NodeOf<R>) -> Told {
    let mut drawing = Drawing::new();
    let mut told = NOTHING;
    for _ in 0..EVENTS {
        let draw = drawing.next();
        told.note(stepped(alloc, node, &draw));
    }
    told
}

// None where an allocation failed, here and below.
fn plain(alloc: Global) -> Option<End> {
    let mut node = NodeOf::new(alloc, SanBox::new(alloc, OWN)).ok()?;
    let told = step_all(alloc, &mut node);
    let image = node.image();
    drop(node);
    Some(End {
        told,
        image: image.ok()?,
    })
}

fn enter_under_lock<R: Role, L: Ledger, W: Wait>(
    rt: &W,
    alloc: Global,
    shared: &SharedNode<R, L>,
    pass: &mut Pass<L>,
    draw: &Draw,
) -> Result<Answer, EnterFault> {
    let event = event_of(alloc, draw)?;
    let entered = enter(&mut *shared.kept.lock(rt), pass, &event);
    drop(event);
    entered
}

// An allocation that fails is met by another try, here and below.
fn entered<R: Role, L: Ledger, W: Wait>(
    rt: &W,
    alloc: Global,
    shared: &SharedNode<R, L>,
    pass: &mut Pass<L>,
    draw: &Draw,
) -> Result<Answer, EnterFault> {
    match enter_under_lock(rt, alloc, shared, pass, draw) {
        Err(EnterFault::Step(StepFault::NoMemory)) => {
            enter_under_lock(rt, alloc, shared, pass, draw)
        }
        entered => entered,
    }
}

fn close_once<R: Role, L: Ledger>(kept: &mut Kept<R, L>) -> Result<(), NoMemory> {
    drop(rotate(kept)?);
    Ok(())
}

fn close<R: Role, L: Ledger, W: Wait>(rt: &W, shared: &SharedNode<R, L>) {
    let mut kept = shared.kept.lock(rt);
    if close_once(&mut *kept).is_err() {
        let _ = close_once(&mut *kept);
    }
}

fn enter_all<R: Role, L: Ledger, W: Wait>(
    rt: &W,
    alloc: Global,
    shared: &SharedNode<R, L>,
    pass: &mut Pass<L>,
) -> Told {
    let mut drawing = Drawing::new();
    let mut told = NOTHING;
    for _ in 0..EVENTS {
        let draw = drawing.next();
        told.note(entered(rt, alloc, shared, pass, &draw));
        if drawing.is_round() {
            close(rt, shared);
        }
    }
    told
}

fn image_of<R: Role, L: Ledger, W: Wait>(rt: &W, shared: &SharedNode<R, L>) -> Option<NodeImage> {
    shared.kept.lock(rt).node.image().ok()
}

// What the shared node answered. None where the pass counted otherwise.
fn told_by_shared<R: Role, L: Ledger, W: Wait>(
    rt: &W,
    alloc: Global,
    shared: &SharedNode<R, L>,
    pass: Pass<L>,
) -> Option<Told> {
    let mut pass = pass;
    let told = enter_all(rt, alloc, shared, &mut pass);
    let is_counted = pass.count() == told.taken;
    drop(pass);
    is_counted.then_some(told)
}

// Whether the shared node answered and ended as the plain one, and no allocation failed at last.
fn is_equal(told: Told, image: &NodeImage, plain: &End) -> bool {
    told == plain.told && told.short == 0 && *image == plain.image
}

// Whether both came to an end, and are equal.
fn is_right(told: Option<Told>, image: Option<NodeImage>, plain: Option<End>) -> bool {
    let is_right = match (told, &image, &plain) {
        (Some(told), Some(image), Some(plain)) => is_equal(told, image, plain),
        _ => false,
    };
    drop(image);
    drop(plain);
    is_right
}

// The plain node is on the thread that is started, so that none of its allocations fails. So is the image of the shared node:
// that of a full table takes more allocations than lie between two that are refused.
fn both<L: Ledger + Send + Sync, W: Threads + Wait + Sync>(
    rt: &W,
    alloc: Global,
    shared: &SharedNode<SanBox, L>,
    pass: Pass<L>,
) -> bool {
    let (plain, told) = join(
        rt,
        || plain(alloc),
        || told_by_shared(rt, alloc, shared, pass),
    );
    let (image, ()) = join(rt, || image_of(rt, shared), || ());
    is_right(told, image, plain)
}

fn soaked<L: Ledger + Send + Sync, W: Threads + Wait + Sync>(
    rt: &W,
    alloc: Global,
    node: NodeOf<SanBox>,
    blank: Blank,
) -> bool
    requires name { blank.name ≡ L.name }
    requires parts { blank.parts ≡ L.parts }
    requires five { L.parts ≡ 5 }
{
    match SharedNode::<SanBox, L>::new(alloc, node, blank) {
        Ok((shared, passes)) => {
            let Passes {
                a,
                b,
                c,
                ager,
                host,
            } = passes;
            drop((b, c, ager, host));
            let is_right = both(rt, alloc, &shared, a);
            drop(shared);
            is_right
        }
        Err(_) => false,
    }
}

fn soaked_san<W: Threads + Wait + Sync>(rt: &W, alloc: Global) -> bool {
    match NodeOf::new(alloc, SanBox::new(alloc, OWN)) {
        Ok(node) => soaked::<Brand, W>(rt, alloc, node, Blank::new(5)),
        Err(_) => false,
    }
}

#[test]
fn a_node_whose_allocations_fail_ends_as_one_whose_do_not(rt: HostRuntime) {
    let is_right = soaked_san(&rt, rt.alloc());
    assert!(&rt; is_right);
}
