//! What is kept of an audit for drawing, in columns of time, and the picture that is drawn of it.
#![tactic(auto)]

mod bars;
mod cards;
mod drawing;
mod histogram;
mod kept;
mod lists;
mod losses;
mod paths;
mod picture;
mod profiles;
mod ranges;
mod ranking;
mod scales;
mod skews;
mod sources;
mod strips;
mod times;

pub use bars::{Stand, draw_bars, greatest_of};
pub use cards::{BINS, Card, bin_floor};
pub use histogram::Histogram;
pub use kept::{Astray, Kept, MAX_CARDS, MAX_SINGLES, MAX_STRIPS, MAX_TRACED, Single, Traced};
pub use losses::{Losses, Packets, Stretch};
pub use paths::{Shape, draw_lane, draw_path};
pub use picture::{MAX_CHARTS, print_picture};
pub use profiles::Profile;
pub use ranges::{Range, Ranges};
pub use ranking::rank;
pub use scales::{Division, Scale};
pub use skews::{draw_halves, draw_medians, draw_ranges};
pub use sources::{SourceLine, lines_in};
pub use strips::Strip;
pub use times::{COLUMNS, Times, times_of};
