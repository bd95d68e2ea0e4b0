//! Octets, as the tables write them.

use std::alloc::{AllocError, Global};

/// A part of some octets.
#[derive(Clone, Copy)]
pub enum Part {
    These(&'static [u8]),
    Zeros(usize),
    /// A payload that a Linux node sent: `53 51`, the count of its octets, each octet's place, and zeros to 46 octets.
    Counted(u16),
    /// From the fourth octet up to this one, each octet is its place, modulo 256.
    Places(usize),
}

/// Octets, in parts.
pub type Text = &'static [Part];

fn append_counted(octets: &mut Vec<u8>, count: u16) -> Result<(), AllocError> {
    octets.extend_from_slice(&[0x53, 0x51])?;
    octets.extend_from_slice(&count.to_be_bytes())?;
    for place in 4..count {
        octets.push((place % 256) as u8)?;
    }
    for _ in count.max(4)..46 {
        octets.push(0)?;
    }
    Ok(())
}

fn append_part(octets: &mut Vec<u8>, part: Part) -> Result<(), AllocError> {
    match part {
        Part::These(these) => octets.extend_from_slice(these),
        Part::Zeros(count) => {
            for _ in 0..count {
                octets.push(0)?;
            }
            Ok(())
        }
        Part::Counted(count) => append_counted(octets, count),
        Part::Places(end) => {
            for place in 4..end {
                octets.push((place % 256) as u8)?;
            }
            Ok(())
        }
    }
}

/// Appends a text.
pub fn append_text(octets: &mut Vec<u8>, text: Text) -> Result<(), AllocError> {
    for part in text {
        append_part(octets, *part)?;
    }
    Ok(())
}

/// The texts one behind the other. None where an allocation failed.
pub fn joined(alloc: Global, texts: &[Text]) -> Option<Vec<u8>> {
    let mut octets = Vec::new(alloc);
    for text in texts {
        append_text(&mut octets, *text).ok()?;
    }
    Some(octets)
}

/// Whether the octets are this text. None where an allocation failed.
pub fn is_text(alloc: Global, octets: &[u8], texts: &[Text]) -> Option<bool> {
    let wanted = joined(alloc, texts)?;
    Some(wanted.as_slice() == octets)
}
