//! Times of packets.

ghost use Rattle.std.specs.Prelude.{◌≡◌, ◌<◌, ◌≤◌, ◌^◌};
ghost use Rattle.sr_pcapng.specs.Times.{units_of, IsMoment, IsTime};

use crate::track::Interface;

/// The nanoseconds of a second.
const SECOND: u128 = 1_000_000_000;

/// The latest time, in nanoseconds since 1970: in the year 2262.
const LATEST: i128 = 0x7FFF_FFFF_FFFF_FFFF;

/// The greatest power of ten that is counted with. With a finer unit each time is 0 in nanoseconds.
const MAX_POWER: u8 = 38;

/// The highest bit of a resolution, which says that it is a power of two.
const OF_TWO: u8 = 0x80;

/// How many units a second has.
fn units_of(resolution: u8) -> u128
    ensures value { result ≡ units_of resolution }
    ensures some { 0 < result }
{
    if resolution < OF_TWO {
        10_u128.pow(u32::from(resolution.min(MAX_POWER)))
    } else {
        2_u128.pow(u32::from(resolution - OF_TWO))
    }
}

/// Nanoseconds since 1970, of an offset in seconds and nanoseconds since.
fn moment_of(offset: i64, since: u128) -> u64
    requires { since < 2 ^ 94 }
    ensures moment { IsMoment offset since result }
    ensures early { result < 2 ^ 63 }
{
    let moment = i128::from(offset) * SECOND as i128 + since as i128;
    moment.clamp(0, LATEST) as u64
}

/// The time of so many units at an interface, in nanoseconds since 1970.
pub(crate) fn time_of(interface: &Interface, ticks: u64) -> u64
    ensures time { IsTime interface.now ticks result }
    ensures early { result < 2 ^ 63 }
{
    let units = units_of(interface.resolution);
    moment_of(interface.offset, u128::from(ticks) * SECOND / units)
}
