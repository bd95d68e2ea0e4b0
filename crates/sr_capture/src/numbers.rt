//! Numbers in either order of octets.

ghost use Rattle.std.specs.Prelude.{◌≡◌, ◌+◌, ◌≤◌, length};
ghost use Rattle.sr_capture.specs.Numbers.{half_at, word_at};

/// The order of the octets of a number.
#[derive(Clone, Copy, Debug, PartialEq, Eq)]
pub enum ByteOrder {
    /// The least comes first.
    Little,
    /// The greatest comes first.
    Big,
}

/// The number of 16 bits from a place on.
pub fn half_at(order: ByteOrder, octets: &[u8], at: usize) -> u16
    requires { at + 2 ≤ length octets.now }
    ensures { result ≡ half_at order octets.now at }
{
    let half = [octets[at], octets[at + 1]];
    match order {
        ByteOrder::Little => u16::from_le_bytes(half),
        ByteOrder::Big => u16::from_be_bytes(half),
    }
}

/// The number of 32 bits from a place on.
pub fn word_at(order: ByteOrder, octets: &[u8], at: usize) -> u32
    requires { at + 4 ≤ length octets.now }
    ensures { result ≡ word_at order octets.now at }
{
    let word = [octets[at], octets[at + 1], octets[at + 2], octets[at + 3]];
    match order {
        ByteOrder::Little => u32::from_le_bytes(word),
        ByteOrder::Big => u32::from_be_bytes(word),
    }
}
