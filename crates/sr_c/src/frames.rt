//! Frames that come in and go out, and time.

ghost use Rattle.std.specs.Prelude.{◌≡◌};
ghost use Rattle.sr_endpoint.specs.Endpoints.{state_by};
ghost use Rattle.sr_c.specs.Calls.{AtNode, GivesAs, ReceivesAs, SendsAs, PassesTimeAs, waiting_at};
ghost use Rattle.sr_c.specs.Codes.{closed, port_of};

use crate::codes::{ARGUMENT, CLOSED, port_of, received_code, stepped_code};
use crate::handle::Handle;

/// Octets come in at a port: which outlets got the frame, or a fault.
#[unsafe(no_mangle)]
pub extern "C" fn seamless_receive(node: &mut Handle, port: u32, octets: &[u8], now: u64) -> u32
    ensures { AtNode node.old.value node.new.value (result ≡ closed)
        (ReceivesAs (port_of port) octets.now now result) }
{
    if !node.is_open() {
        return CLOSED;
    }
    match port_of(port) {
        Some(port) => received_code(node.as_mut().receive(port, octets, now)),
        None => ARGUMENT,
    }
}

/// The host sends octets.
#[unsafe(no_mangle)]
pub extern "C" fn seamless_send(node: &mut Handle, octets: &[u8], now: u64) -> u32
    ensures { AtNode node.old.value node.new.value (result ≡ closed)
        (SendsAs octets.now now result) }
{
    if !node.is_open() {
        return CLOSED;
    }
    stepped_code(node.as_mut().send(octets, now))
}

/// Time passes.
#[unsafe(no_mangle)]
pub extern "C" fn seamless_tick(node: &mut Handle, now: u64) -> u32
    ensures { AtNode node.old.value node.new.value (result ≡ closed) (PassesTimeAs now result) }
{
    if !node.is_open() {
        return CLOSED;
    }
    stepped_code(node.as_mut().tick(now))
}

/// Takes the first frame that waits at a port, and answers how many octets it has.
#[unsafe(no_mangle)]
pub extern "C" fn seamless_take(node: &mut Handle, port: u32, buffer: &mut [u8]) -> usize
    ensures gives { AtNode node.old.value node.new.value (result ≡ 0)
        (GivesAs (port_of port) result buffer.new) }
    ensures same { result ≡ 0 → buffer.new ≡ buffer.old }
{
    if !node.is_open() {
        return 0;
    }
    match port_of(port) {
        Some(port) => node.as_mut().take_into(port, buffer).unwrap_or(0),
        None => 0,
    }
}

/// How many frames wait at a port.
#[unsafe(no_mangle)]
pub extern "C" fn seamless_waiting(node: &mut Handle, port: u32) -> usize
    ensures { AtNode node.old.value node.new.value (result ≡ 0)
        (λ e f. (result ≡ waiting_at (port_of port) (state_by e)) × (f ≡ e)) }
{
    if !node.is_open() {
        return 0;
    }
    match port_of(port) {
        Some(port) => node.as_mut().waiting(port),
        None => 0,
    }
}

/// The greatest time that was handed in, in milliseconds.
#[unsafe(no_mangle)]
pub extern "C" fn seamless_time(node: &mut Handle) -> u64
    ensures { AtNode node.old.value node.new.value (result ≡ 0)
        (λ e f. (result ≡ (state_by e).core.time) × (f ≡ e)) }
{
    if !node.is_open() {
        return 0;
    }
    node.as_mut().time()
}
