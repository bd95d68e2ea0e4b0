//! Where columns, rows and links stand, in pixels.

use crate::kinds::{LinkPlace, Part, Shape, Side};

/// The left side of the first column's room; the names of events stand left of it.
pub(crate) const LEFT: usize = 220;

/// The room behind the last column, for the name of a link that stands there.
const RIGHT: usize = 70;

/// The least width of a picture: that of its legend.
const MIN_WIDTH: usize = 900;

/// The height of what stands above the rows.
pub(crate) const HEAD: usize = 146;

/// The height of a row.
pub(crate) const ROW: usize = 24;

/// The height of what stands below the rows.
pub(crate) const FOOT: usize = 40;

/// How wide all columns are together, as far as they can be.
const WIDTH: usize = 1000;

/// How far from its column a link stands that ends at that node alone.
const OWN_LINK: usize = 7;

/// The least and the greatest width of a column.
const MIN_STEP: usize = 48;

const MAX_STEP: usize = 150;

/// Where the columns of a chart stand.
#[derive(Clone, Copy)]
pub(crate) struct Columns {
    shape: Shape,
    step: usize,
}

/// How many columns' widths a part takes.
fn width_of(part: Option<Part>) -> usize {
    match part {
        Some(part) => part.count,
        None => 0,
    }
}

impl Columns {
    /// Those of a shape.
    pub(crate) fn of(shape: Shape) -> Columns {
        let count = shape.left.count.saturating_add(width_of(shape.right));
        let step = (WIDTH / count.max(1)).clamp(MIN_STEP, MAX_STEP);
        Columns { shape, step }
    }

    /// The width of a column.
    pub(crate) fn step(&self) -> usize {
        self.step
    }

    /// The part that a node belongs to.
    pub(crate) fn part_of(&self, node: usize) -> Part {
        match self.shape.right {
            Some(right) if node >= right.first => right,
            _ => self.shape.left,
        }
    }

    /// How much room there is left of the columns of a part: half a column between two of them.
    fn gap(&self, part: Part) -> usize {
        if part.first == 0 { 0 } else { self.step / 2 }
    }

    /// The place of a node's column.
    pub(crate) fn x_of(&self, node: usize) -> usize {
        let part = self.part_of(node);
        node.saturating_mul(self.step)
            .saturating_add(self.step / 2)
            .saturating_add(self.gap(part))
            .saturating_add(LEFT)
    }

    /// The last node of a part.
    fn last_of(part: Part) -> usize {
        part.first.saturating_add(part.count).saturating_sub(1)
    }

    /// The left and the right side of a node's part.
    pub(crate) fn sides_of(&self, node: usize) -> (usize, usize) {
        let part = self.part_of(node);
        let left = self.x_of(part.first).saturating_sub(self.step / 2);
        let right = self
            .x_of(Columns::last_of(part))
            .saturating_add(self.step / 2);
        (left, right)
    }

    /// The width of the whole picture.
    pub(crate) fn width(&self) -> usize {
        let last = match self.shape.right {
            Some(right) => Columns::last_of(right),
            None => Columns::last_of(self.shape.left),
        };
        let (_, right) = self.sides_of(last);
        right.saturating_add(RIGHT).max(MIN_WIDTH)
    }

    /// Where a link is drawn.
    pub(crate) fn link_x(&self, place: LinkPlace) -> usize {
        let off = if place.is_own {
            OWN_LINK
        } else {
            self.step / 2
        };
        let x = self.x_of(place.node);
        match place.side {
            Side::Left => x.saturating_sub(off),
            Side::Right => x.saturating_add(off),
        }
    }

    /// Where a link is drawn once more: a ring's last link stands on both sides of the ring.
    pub(crate) fn again_x(&self, place: LinkPlace) -> Option<usize> {
        let part = self.part_of(place.node);
        let is_last = place.node == Columns::last_of(part);
        if place.is_own || place.side != Side::Right || !is_last {
            return None;
        }
        let (left, _) = self.sides_of(place.node);
        Some(left)
    }
}

/// The height at which a row stands.
pub(crate) fn y_of(row: usize) -> usize {
    row.saturating_mul(ROW)
        .saturating_add(ROW / 2)
        .saturating_add(HEAD)
}

/// The place between two others, so many tenths of the way.
pub(crate) fn between(from: usize, to: usize, tenths: usize) -> usize {
    let rest = 10usize.saturating_sub(tenths);
    from.saturating_mul(rest)
        .saturating_add(to.saturating_mul(tenths))
        / 10
}
