//! Sequence charts of networks, as pictures (SVG 1.1): a column for each node, a row for each event, an arrow for each copy.
#![tactic(auto)]

mod arrows;
mod chart;
mod columns;
mod drawing;
mod elements;
mod grid;
mod kinds;
mod labels;
mod legend;
mod top;

pub use chart::{Chart, MAX_ROWS};
pub use kinds::{Arrow, Deed, Fate, Frame, LinkPlace, Outlet, Part, Path, Row, Shape, Side};
