//! The options of the description of an interface.

ghost use Rattle.std.specs.Prelude.{◌≡◌, ◌<◌, ◌≤◌, ◌+◌, ℕ, List, length, take, IsTrue, ◌↔◌, IfSome, IfNone};
ghost use Rattle.sr_pcapng.specs.Options.{long_at, padded, Fits, IsOption, IsEnd, told, Reads, IsFront};
ghost use Rattle.sr_pcapng.specs.declared.track.Interface.{Interface as Known};

use crate::track::Interface;
use sr_capture::{ByteOrder, half_at, word_at};

/// The options that tell of packets: the unit of times, the length of check sequences, the seconds that are added.
const RESOLUTION: u16 = 9;

const CHECK_LEN: u16 = 13;

const OFFSET: u16 = 14;

/// The length of an option's head: its code, and the length of its value.
pub(crate) const HEAD_LEN: usize = 4;

/// The number of 64 bits from a place on.
pub(crate) fn long_at(order: ByteOrder, octets: &[u8], at: usize) -> u64
    requires { at + 8 ≤ length octets.now }
    ensures { result ≡ long_at order octets.now at }
{
    let first = u64::from(word_at(order, octets, at));
    let second = u64::from(word_at(order, octets, at + 4));
    match order {
        ByteOrder::Little => second * 0x1_0000_0000 + first,
        ByteOrder::Big => first * 0x1_0000_0000 + second,
    }
}

/// So many octets with those that fill up four.
pub(crate) fn padded(len: u32) -> u64
    ensures { result ≡ padded len }
{
    let len = u64::from(len);
    len + (4 - len % 4) % 4
}

/// Whether a value of this length is one of this code.
fn fits(code: u16, len: u16) -> bool
    ensures { IsTrue result ↔ Fits code len }
{
    match code {
        RESOLUTION | CHECK_LEN => len == 1,
        OFFSET => len == 8,
        _ => true,
    }
}

/// What stands at the front of options.
#[derive(Clone, Copy, PartialEq, Eq)]
enum Front {
    /// Their end is told.
    End,
    /// An option of so many octets.
    Whole(usize),
    /// Neither.
    Broken,
}

/// What stands at the front of options.
fn front_of(order: ByteOrder, octets: &[u8]) -> Front
    ensures { IsFront order octets.now result }
{
    if octets.len() < HEAD_LEN {
        return Front::Broken;
    }
    let code = half_at(order, octets, 0);
    if code == 0 {
        return Front::End;
    }
    let len = half_at(order, octets, 2);
    let size = HEAD_LEN + padded(u32::from(len)) as usize;
    if size > octets.len() || !fits(code, len) {
        return Front::Broken;
    }
    Front::Whole(size)
}

/// What is known of an interface behind an option.
fn told(order: ByteOrder, option: &[u8], interface: Interface) -> Interface
    requires { IsOption order option.now }
    ensures { result ≡ told order option.now interface }
{
    match half_at(order, option, 0) {
        RESOLUTION => Interface {
            resolution: option[HEAD_LEN],
            ..interface
        },
        CHECK_LEN => Interface {
            check_len: option[HEAD_LEN],
            ..interface
        },
        OFFSET => Interface {
            offset: long_at(order, option, HEAD_LEN).cast_signed(),
            ..interface
        },
        _ => interface,
    }
}

/// The interface with what its options say. `None` if the octets are not options.
pub(crate) fn read_options(
    order: ByteOrder,
    octets: &[u8],
    interface: Interface,
) -> Option<Interface>
    ensures found { IfSome result (λ known.
        (options : List (List ℕ)) × Reads order octets.now interface options known) }
    ensures none { IfNone result ((options : List (List ℕ)) (known : Interface)
        → Reads order octets.now interface options known → ⊥) }
{
    let mut rest = octets;
    let mut known = interface;
    while !rest.is_empty() {
        match front_of(order, rest) {
            Front::Broken => return None,
            Front::End => return Some(known),
            Front::Whole(size) => {
                known = told(order, &rest[..size], known);
                rest = &rest[size..];
            }
        }
    }
    Some(known)
}
