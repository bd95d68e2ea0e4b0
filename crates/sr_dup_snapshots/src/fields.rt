//! Where the fields of a snapshot stand.
ghost use Rattle.std.specs.Prelude.{◌≡◌, ◌≤◌, ◌*◌, ◌%◌};
ghost use Rattle.sr_dup_table.specs.Widths.{numbers_in};
ghost use Rattle.sr_dup_snapshots.specs.Snapshots.{lane_len, source_len};

use sr_dup_table::Width;

/// The octets before the number of sources of a narrow table: `SRDW`, and version 1.
pub const NARROW_HEAD: [u8; 5] = [0x53, 0x52, 0x44, 0x57, 1];

/// The octets before the number of sources of a wide table: `SRDW`, and version 2.
pub const WIDE_HEAD: [u8; 5] = [0x53, 0x52, 0x44, 0x57, 2];

/// How many octets stand before the sources.
pub const HEAD_LEN: usize = 7;

/// How many octets a lane has, a bit for each number.
pub fn lane_len(width: Width) -> usize
    ensures len { result ≡ lane_len (numbers_in width) }
    ensures bits { 8 * result ≡ numbers_in width }
    ensures small { result ≤ 256 }
{
    match width {
        Width::Narrow => 128,
        Width::Wide => 256,
    }
}

/// How many octets a source has: address, time and record.
pub fn source_len(width: Width) -> usize
    ensures len { result ≡ source_len (numbers_in width) }
    ensures small { result ≤ 1552 }
{
    16 + 6 * lane_len(width)
}
