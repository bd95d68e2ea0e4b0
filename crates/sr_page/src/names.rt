//! Names of nodes, by their addresses.

ghost use Rattle.std.specs.Prelude.{IfSome, IfNone, length};
ghost use Rattle.sr_page.specs.Named.{AreOthers, IsFirstName};

use crate::elements::{put, put_escaped, put_mac};
use sr_frame::Mac;
use sr_markup::Escaped;
use std::io::{self, Write};

/// A node that has a name.
#[derive(Drop)]
pub struct NodeName {
    /// Its address.
    pub mac: Mac,
    /// Its name.
    pub name: Escaped,
}

/// The place of the first name of an address. None: it has none.
pub fn name_place(names: &[NodeName], mac: Mac) -> Option<usize>
    ensures first { IfSome result (IsFirstName names.now mac) }
    ensures none { IfNone result (AreOthers names.now mac (length names.now)) }
{
    for at in 0..names.len() {
        if names[at].mac == mac {
            return Some(at);
        }
    }
    None
}

/// Writes a node: by its name, if it has one, and its address.
///
/// # Errors
/// The writer fails.
pub fn put_node<W: Write>(writer: &mut W, names: &[NodeName], mac: Mac) -> io::Result<()> {
    if let Some(at) = name_place(names, mac) {
        if let Some(node) = names.get(at) {
            put(writer, "<span class=\"name\">")?;
            put_escaped(writer, &node.name)?;
            put(writer, "</span> ")?;
        }
    }
    put_mac(writer, mac)
}
