//! How high numbers stand in a plot.

ghost use Rattle.std.specs.Prelude.{◌≤◌};

use crate::ranges::Range;

/// How a scale of skews is divided.
#[derive(Clone, Copy, PartialEq, Eq)]
pub enum Division {
    /// Each nanosecond is as high as any other.
    Even,
    /// Beyond a microsecond each doubling is as high as any other.
    Doubling,
}

/// The skews that a plot shows, the greatest at its top.
#[derive(Clone, Copy)]
pub struct Scale {
    /// From the least to the greatest.
    pub range: Range,
    /// How they are divided.
    pub division: Division,
    /// The height of the plot, in tenths of a pixel.
    pub height: u32,
}

/// Up to which size a scale of doublings is even, in nanoseconds.
const EVEN: u64 = 1000;

/// How high a number above 0 stands where each doubling is as high as any other, and numbers between are even: 256 for each doubling.
pub(crate) fn level_of(number: u64) -> u64 {
    let Some(doublings) = number.checked_ilog2() else {
        return 0;
    };
    let part = match doublings.checked_sub(8) {
        Some(shift) => number.checked_shr(shift),
        None => number.saturating_mul(256).checked_shr(doublings),
    };
    let part = part.unwrap_or(0) % 256;
    u64::from(doublings)
        .saturating_mul(256)
        .saturating_add(part)
}

/// A skew where each doubling beyond a microsecond is as high as any other.
fn bent(skew: i128) -> i128 {
    let size = u64::try_from(skew.unsigned_abs()).unwrap_or(u64::MAX);
    let level = level_of(size.saturating_add(EVEN)).saturating_sub(level_of(EVEN));
    if skew < 0 {
        0_i128.saturating_sub(i128::from(level))
    } else {
        i128::from(level)
    }
}

impl Scale {
    /// A skew as the scale divides it.
    fn divided(self, skew: i128) -> i128 {
        match self.division {
            Division::Even => skew,
            Division::Doubling => bent(skew),
        }
    }

    /// How far below the top of the plot a skew lies, in tenths of a pixel.
    pub fn depth_of(self, skew: i128) -> u64
        ensures { result ≤ self.height }
    {
        let height = i128::from(self.height);
        let (least, greatest) = (
            self.divided(self.range.least),
            self.divided(self.range.greatest),
        );
        let whole = greatest.saturating_sub(least);
        if whole <= 0 {
            return u64::from(self.height / 2);
        }
        let below = greatest.saturating_sub(self.divided(skew));
        let depth = below.saturating_mul(height) / whole;
        depth.clamp(0, height) as u64
    }
}
