//! How many pairs of a source have skews of each size.

use crate::cards::{BINS, Card, bin_floor};
use crate::paths::{Shape, draw_box};
use crate::scales::Scale;
use crate::times::COLUMNS;
use std::io::{self, Write};

/// How many bars show the sizes of skews.
const BARS: usize = 55;

/// The height of a bar, in tenths of a pixel.
const BAR: u64 = 20;

/// How wide the widest bar is.
const WIDTH: u64 = 100;

/// How many pairs of a source have skews of each height of a plot.
#[derive(Clone, Copy)]
pub struct Profile {
    bars: [u64; BARS],
}

impl Profile {
    /// The sizes of all skews of a source.
    pub fn of(card: &Card, scale: Scale) -> Profile {
        let mut profile = Profile { bars: [0; BARS] };
        for at in 0..COLUMNS {
            profile.add_column(card, scale, at);
        }
        profile
    }

    /// Adds the skews of a column.
    fn add_column(&mut self, card: &Card, scale: Scale, at: usize) {
        let Some(range) = card.ranges.at(at) else {
            return;
        };
        for bin in 0..BINS {
            let count = u64::from(card.in_bin(at, bin));
            if count > 0 {
                self.add(scale.depth_of(bin_floor(range, bin)), count);
            }
        }
    }

    /// Adds pairs whose skews lie so far below the top.
    fn add(&mut self, depth: u64, count: u64) {
        let bar = usize::try_from(depth / BAR).unwrap_or(0).min(BARS - 1);
        if let Some(own) = self.bars.get_mut(bar) {
            *own = own.saturating_add(count);
        }
    }

    /// How many pairs the fullest bar has.
    fn most(&self) -> u64 {
        let mut most = 0;
        for count in self.bars {
            most = count.max(most);
        }
        most
    }

    /// How many bars the middle half of the pairs has.
    pub fn middle(&self) -> usize {
        let mut whole: u64 = 0;
        for count in self.bars {
            whole = whole.saturating_add(count);
        }
        let (mut seen, mut middle): (u64, usize) = (0, 0);
        for count in self.bars {
            seen = seen.saturating_add(count);
            let fourths = seen.saturating_mul(4);
            if fourths > whole
                && seen.saturating_sub(count).saturating_mul(4) < whole.saturating_mul(3)
            {
                middle = middle.saturating_add(1);
            }
        }
        middle
    }

    /// Draws a bar for each height.
    ///
    /// # Errors
    /// The writer fails.
    pub fn draw<W: Write>(&self, writer: &mut W) -> io::Result<()> {
        let most = self.most();
        for at in 0..BARS {
            let count = self.bars.get(at).copied().unwrap_or(0);
            let width = count.saturating_mul(WIDTH).checked_div(most).unwrap_or(0);
            if count > 0 {
                let top = (at as u64).saturating_mul(BAR);
                draw_box(writer, 0, width.max(1), Shape { top, height: BAR })?;
            }
        }
        Ok(())
    }
}
