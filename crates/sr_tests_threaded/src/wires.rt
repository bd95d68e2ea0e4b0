//! A wire hands a frame back where 256 wait, and only there, however many it has carried: its clauses say this by what each pass has
//! seen of the other side, which is nothing while neither is compared.

ghost use Rattle.std.specs.Prelude.{◌≡◌};

use sr_frame::Frame;
use sr_wires::{SendPass, TakePass, Wire};
use std::alloc::Global;
use std::sync::Wait;
use std::test::*;

// The last of 256 numbers.
const LAST: u8 = 255;

// A frame that tells its number. Where an allocation fails, the call is made again.
fn frame_of(alloc: Global, number: u8) -> Option<Frame> {
    let octets = [2, 0, 0, 0, 0, 1, 2, 0, 0, 0, 0, 2, 0x88, 0xb5, number];
    match Frame::copy(alloc, &octets) {
        Ok(frame) => Some(frame),
        Err(_) => Frame::copy(alloc, &octets).ok(),
    }
}

// Whether the wire takes a frame of this number.
fn puts<W: Wait>(rt: &W, alloc: Global, wire: &Wire, send: &mut SendPass, number: u8) -> bool
    requires { send.old.wire ≡ wire.now }
    ensures { send.new.wire ≡ wire.now }
{
    match frame_of(alloc, number) {
        Some(frame) => wire.put(rt, send, frame).is_ok(),
        None => false,
    }
}

// Whether the next frame that is taken has this number.
fn takes<W: Wait>(rt: &W, wire: &Wire, take: &mut TakePass, number: u8) -> bool
    requires { take.old.wire ≡ wire.now }
    ensures { take.new.wire ≡ wire.now }
{
    match wire.take(rt, take) {
        Some(frame) => frame.octets().last() == Some(&number),
        None => false,
    }
}

// Whether the wire takes so many frames as may wait.
fn fills<W: Wait>(rt: &W, alloc: Global, wire: &Wire, send: &mut SendPass) -> bool
    requires { send.old.wire ≡ wire.now }
    ensures { send.new.wire ≡ wire.now }
{
    for number in 0..=LAST {
        if !puts(rt, alloc, wire, send, number) {
            return false;
        }
    }
    true
}

// Whether these frames come out in order.
fn empties<W: Wait>(rt: &W, wire: &Wire, take: &mut TakePass) -> bool
    requires { take.old.wire ≡ wire.now }
    ensures { take.new.wire ≡ wire.now }
{
    for number in 0..=LAST {
        if !takes(rt, wire, take, number) {
            return false;
        }
    }
    true
}

// Whether the empty wire takes 256 frames, hands the next one back, and hands them out in order, and no more.
fn holds_as_many<W: Wait>(
    rt: &W,
    alloc: Global,
    wire: &Wire,
    send: &mut SendPass,
    take: &mut TakePass,
) -> bool
    requires send { send.old.wire ≡ wire.now }
    requires take { take.old.wire ≡ wire.now }
    ensures send { send.new.wire ≡ wire.now }
    ensures take { take.new.wire ≡ wire.now }
{
    fills(rt, alloc, wire, send)
        && !puts(rt, alloc, wire, send, 7)
        && empties(rt, wire, take)
        && !takes(rt, wire, take, 7)
}

// Whether the empty wire takes 256 frames where each is taken before the next is sent.
fn passes_on<W: Wait>(
    rt: &W,
    alloc: Global,
    wire: &Wire,
    send: &mut SendPass,
    take: &mut TakePass,
) -> bool
    requires send { send.old.wire ≡ wire.now }
    requires take { take.old.wire ≡ wire.now }
    ensures send { send.new.wire ≡ wire.now }
    ensures take { take.new.wire ≡ wire.now }
{
    for number in 0..=LAST {
        if !puts(rt, alloc, wire, send, number) || !takes(rt, wire, take, number) {
            return false;
        }
    }
    true
}

// Whether a wire does so from the first frame on, and still when it has carried some. None where there is no memory for a wire.
fn holds<W: Wait>(rt: &W, alloc: Global) -> Option<bool> {
    match Wire::new(alloc) {
        Ok((wire, mut send, mut take)) => Some(
            holds_as_many(rt, alloc, &wire, &mut send, &mut take)
                && passes_on(rt, alloc, &wire, &mut send, &mut take)
                && holds_as_many(rt, alloc, &wire, &mut send, &mut take)
                && passes_on(rt, alloc, &wire, &mut send, &mut take),
        ),
        Err(_) => None,
    }
}

#[test]
fn a_wire_holds_256_frames(rt: HostRuntime) {
    let holds = match holds(&rt, rt.alloc()) {
        None => holds(&rt, rt.alloc()),
        some => some,
    };
    assert_eq!(&rt; holds, Some(true));
}
