//! Captures and the scripts that they give, as the tables write them.

use std::alloc::{AllocError, Global};

/// A part of a text.
#[derive(Clone, Copy)]
pub enum Part {
    These(&'static [u8]),
    /// So many times these octets.
    Times(u16, &'static [u8]),
}

/// A text, in parts.
pub type Text = &'static [Part];

fn append_part(octets: &mut Vec<u8>, part: Part) -> Result<(), AllocError> {
    match part {
        Part::These(these) => octets.extend_from_slice(these),
        Part::Times(count, these) => {
            for _ in 0..count {
                octets.extend_from_slice(these)?;
            }
            Ok(())
        }
    }
}

/// The octets of a text. None where an allocation failed.
pub fn joined(alloc: Global, text: Text) -> Option<Vec<u8>> {
    let mut octets = Vec::new(alloc);
    for part in text {
        append_part(&mut octets, *part).ok()?;
    }
    Some(octets)
}
