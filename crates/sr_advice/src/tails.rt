//! What looks wrong in the end of a script that a node has obeyed: it is all that is kept of one.

ghost use Rattle.std.specs.Prelude.{◌≡◌, ◌++◌, codes, IfSome, IsTrue};
ghost use Rattle.sr_forwarding.specs.declared.kind.RoleKind.TheVariants.{Danp};

use crate::survey::{is_tagged, number_in};
use hex::FromHex;
use sr_forwarding::RoleKind;
use sr_frame::Mac;
use std::fmt;

/// Where the source of a frame stands, in digits.
const SOURCE_AT: usize = 12;

/// Where it ends.
const SOURCE_END: usize = 24;

/// The lines of frames at the end of a script.
#[derive(Clone, Copy)]
struct Frames {
    /// How many there are.
    all: u64,
    /// How many of them the node itself sent.
    own: u64,
    /// How many have an HSR tag.
    tagged: u64,
}

/// Whether a frame has this source.
fn has_source(digits: &[u8], mac: Mac) -> bool {
    match digits.get(SOURCE_AT..SOURCE_END) {
        Some(source) => match <[u8; 6] as FromHex>::from_hex(source) {
            Ok(octets) => octets == mac.0,
            Err(_) => false,
        },
        None => false,
    }
}

impl Frames {
    /// Notes a line, if it is one of a frame that comes in.
    fn note(&mut self, line: &[u8], mac: Mac) {
        let Some(arrival) = line.strip_prefix(b"in ") else {
            return;
        };
        let (_time, digits) = number_in(arrival.get(2..).unwrap_or(&[]));
        self.all = self.all.saturating_add(1);
        self.own = self.own.saturating_add(u64::from(has_source(digits, mac)));
        self.tagged = self.tagged.saturating_add(u64::from(is_tagged(digits)));
    }
}

/// The lines of frames in octets. The first line may lack its front.
fn frames_in(octets: &[u8], mac: Mac) -> Frames {
    let mut frames = Frames {
        all: 0,
        own: 0,
        tagged: 0,
    };
    let mut start = 0;
    for at in 0..octets.len() {
        if octets[at] == b'\n' {
            frames.note(octets.get(start..at).unwrap_or(&[]), mac);
            start = at + 1;
        }
    }
    frames.note(octets.get(start..).unwrap_or(&[]), mac);
    frames
}

/// What looks wrong at the end of a script that a node has obeyed. It is shown in lines, none where nothing looks wrong.
#[derive(Clone, Copy, Debug, PartialEq, Eq)]
pub struct TailAdvice<'a> {
    /// The fault of a capture with which the script ends: what stands before it is no whole network.
    pub fault: Option<&'a str>,
    /// Whether the node itself is the source of all frames.
    pub is_own: bool,
    /// Whether all frames have HSR tags, at a node of a PRP network.
    pub is_tagged: bool,
}

/// The fault of a capture that a line tells of.
fn fault_in(line: &[u8]) -> Option<&str>
    ensures { IfSome result (λ fault. line.now ≡ codes "# fault " ++ fault.now) }
{
    let comment = line.strip_prefix(b"# fault ")?;
    std::str::from_utf8(comment).ok()
}

/// What looks wrong at the end of a script of a node with this role and address, of which `last` is the last line.
pub fn tail_advice<'a>(role: RoleKind, mac: Mac, tail: &[u8], last: &'a [u8]) -> TailAdvice<'a>
    ensures fault { IfSome result.fault (λ fault. last.now ≡ codes "# fault " ++ fault.now) }
    ensures danp { IsTrue result.is_tagged → role ≡ Danp }
{
    let frames = frames_in(tail, mac);
    let has_frames = frames.all > 0;
    TailAdvice {
        fault: fault_in(last),
        is_own: has_frames && frames.own == frames.all,
        is_tagged: has_frames && frames.tagged == frames.all && matches!(role, RoleKind::Danp),
    }
}

impl fmt::Display for TailAdvice<'_> {
    fn fmt<W: fmt::Write>(&self, f: &mut fmt::Formatter<W>) -> fmt::Result {
        if let Some(fault) = self.fault {
            writeln!(f, "a capture was not read to its end: fault {fault}")?;
        }
        if self.is_own {
            f.write_str("--mac is the source of the traffic: give an address that sends none\n")?;
        }
        if self.is_tagged {
            f.write_str("the frames have HSR tags: --role danh?\n")?;
        }
        Ok(())
    }
}
