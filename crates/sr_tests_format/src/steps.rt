//! One driver for all tests: it makes the calls of a table, and answers at which one it differs.

use super::calls;
use super::texts::Text;
use sr_frame::{FrameFault, Mac};
use sr_hsr_tag::{TagFault, UntagFault};
use sr_prp_trailer::Lan;
use sr_supervision::{Life, SupFault};
use std::alloc::Global;
use std::process::Abort;

/// A trailer: its number, LAN and size.
pub type Trailing = (u16, Lan, u16);

/// A tag: its path, size and number, and the type behind it.
pub type Tagging = (u8, u16, u16, u16);

/// Supervision: its number, the kind of life check, the node, and the RedBox.
pub type Saying = (u16, Life, Mac, Option<Mac>);

/// Calls of one kind, and what has to come of them.
#[derive(Clone, Copy)]
pub enum Step {
    /// Octets are viewed, or why not.
    View(Text, Option<FrameFault>),
    /// The destination, source, VLAN, type and payload of a frame, and the lengths of its header and of all of it.
    Fields(Text, (Mac, Mac, Option<u16>, u16), Text, (usize, usize)),
    /// A frame of this type is copied, copied again, and appended to an empty list.
    Copies(Text, u16),
    /// An address is shown so, and whether it is that of a group.
    Address(Mac, &'static str, bool),
    /// A frame with these last octets, and the trailer that they are, if they are one.
    Trailer(Text, Text, Option<Trailing>),
    /// A frame, and the same, padded, with these last octets, which are its trailer in a LAN. Or it is too long for one.
    Appended(Text, u16, Lan, Option<(Text, Text)>),
    /// Octets before a tag, the tag, and those behind it: what it says, and that it is taken out.
    Untagged(Text, Text, Text, Tagging),
    /// A frame whose tag is not taken out: what reading it comes to, and why.
    NotUntagged(Text, Result<Tagging, TagFault>, UntagFault),
    /// Why the first octets alone, for each of the lengths from one to another, are not read, or that they are.
    Cut(Text, (usize, usize), Cut),
    /// The VLAN, the type and the payload of a frame without its tag.
    UntaggedView(Text, (Option<u16>, u16), Text),
    /// Octets before a tag of this path and number, what stands behind in the plain frame, and what stands there in the
    /// tagged one, padded. Or it is too long for a tag.
    Tagged(Text, Text, u8, u16, Option<Text>),
    /// The head and the payload of a frame, and what it says as supervision.
    Said(Text, Text, Result<Saying, SupFault>),
    /// What supervision says, and the head and the payload of the frame that says it.
    Written(Saying, Text, Text),
    /// The frame that says this, with a trailer in a LAN.
    Sent(Saying, u16, Lan, Text),
}

/// What becomes of the first octets of a frame.
#[derive(Clone, Copy, PartialEq, Eq)]
pub enum Cut {
    /// They are no frame.
    NoFrame,
    /// They are a frame with a tag that is cut off.
    Truncated,
    /// The tag is taken out, and they are six fewer.
    Untagged,
}

/// Whether a call comes to what it has to. None where an allocation failed.
fn comes(alloc: Global, step: Step) -> Option<bool> {
    match step {
        Step::View(text, fault) => calls::is_viewed(alloc, text, fault),
        Step::Fields(text, names, payload, lengths) => calls::has_fields(
            alloc, text, names, payload, lengths,
        ),
        Step::Copies(text, kind) => calls::is_copied(alloc, text, kind),
        Step::Address(mac, text, is_group) => calls::is_shown(alloc, mac, text, is_group),
        Step::Trailer(plain, last, trailer) => calls::has_trailer(alloc, plain, last, trailer),
        Step::Appended(given, seq, lan, wanted) => calls::is_appended(
            alloc, given, seq, lan, wanted,
        ),
        Step::Untagged(before, tag, behind, says) => calls::is_untagged(
            alloc, before, tag, behind, says,
        ),
        Step::NotUntagged(text, says, fault) => calls::is_not_untagged(alloc, text, says, fault),
        Step::Cut(text, (from, to), cut) => calls::are_cut(alloc, text, from, to, cut),
        Step::UntaggedView(text, names, payload) => calls::has_untagged_view(
            alloc, text, names, payload,
        ),
        Step::Tagged(before, plain, path, seq, wanted) => calls::is_tagged(
            alloc,
            before,
            plain,
            (path, seq),
            wanted,
        ),
        Step::Said(head, payload, said) => calls::is_said(alloc, head, payload, said),
        Step::Written(saying, head, payload) => calls::is_written(alloc, saying, head, payload),
        Step::Sent(saying, seq, lan, text) => calls::is_sent(alloc, saying, seq, lan, text),
    }
}

/// The place of the first step that differs, or None. Where an allocation fails, the step is gone again.
fn first_wrong(alloc: Global, steps: &[Step]) -> Option<usize> {
    for (place, step) in steps.iter().enumerate() {
        let is_right = match comes(alloc, *step) {
            None => comes(alloc, *step),
            other => other,
        };
        if is_right != Some(true) {
            return Some(place);
        }
    }
    None
}

/// Fails the test at the place of the first step that differs.
pub fn expect_steps<R: Abort + AllocGlobal>(rt: &R, steps: &[Step]) {
    assert_eq!(rt; first_wrong(rt.alloc(), steps), None);
}
