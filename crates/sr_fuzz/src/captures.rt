//! Captures, and the scripts that they give.

use crate::digest::Digest;
use crate::files::{Files, digest_of, files_of, options_of};
use crate::sink::Sink;
use sr_capture_script::script;
use std::alloc::Global;

/// What comes of captures: the first octet names what is wanted, and whether there is one capture or two. None where an allocation
/// failed.
pub fn come_of(alloc: Global, octets: &[u8]) -> Option<Digest> {
    let [choice, rest @ ..] = octets else {
        return Some(Digest::new());
    };
    let Files { first, second } = files_of(*choice, rest);
    let options = options_of(*choice);
    let mut sink = Sink::new();
    let outcome = script(alloc, Some(first), second, None, &options, &mut sink);
    digest_of(sink, outcome)
}
