//! A chart as a picture.

use crate::arrows::{draw_arrow, draw_arrow_name};
use crate::chart::{Chart, Mark};
use crate::columns::{Columns, FOOT, y_of};
use crate::elements::{Spot, colour_of, define_heads, draw_dot, draw_ring};
use crate::grid::{draw_cut, draw_cut_name, draw_part, draw_row};
use crate::kinds::{Arrow, Fate, Frame};
use crate::legend::draw_legend;
use crate::top::{Tally, draw_top};
use std::io::{self, Write};

/// A frame that no chart has.
const NO_FRAME: Frame = Frame {
    source: 0,
    number: 0,
};

/// The place of a mark.
fn spot_of(columns: &Columns, mark: &Mark) -> Spot {
    Spot {
        x: columns.x_of(mark.node),
        y: y_of(mark.row),
    }
}

/// Draws a frame that a node sends, with its name.
fn draw_sent<W: Write>(
    writer: &mut W,
    columns: &Columns,
    mark: &Mark,
    frame: Frame,
) -> io::Result<()> {
    let at = spot_of(columns, mark);
    let node = mark.node;
    writeln!(writer, "<g><title>node {node} sends frame {frame}</title>")?;
    draw_ring(writer, at, colour_of(mark.frame))?;
    let x = at.x.saturating_add(9);
    let y = at.y.saturating_sub(3);
    writeln!(
        writer,
        "<text x=\"{x}\" y=\"{y}\" font-weight=\"bold\">{frame}</text></g>"
    )
}

/// Draws a frame that a host is handed.
fn draw_up<W: Write>(
    writer: &mut W,
    columns: &Columns,
    mark: &Mark,
    frame: Frame,
) -> io::Result<()> {
    let at = spot_of(columns, mark);
    let node = mark.node;
    writeln!(
        writer,
        "<g><title>node {node} hands frame {frame} up</title>"
    )?;
    draw_dot(writer, at, colour_of(mark.frame))?;
    writeln!(writer, "</g>")
}

impl Chart {
    /// The frame at a place.
    fn frame_at(&self, place: usize) -> Frame {
        match self.frames.get(place) {
            Some(frame) => *frame,
            None => NO_FRAME,
        }
    }

    /// What the chart tells in numbers, with so many copies in flight.
    fn tally(&self, flying: usize) -> Tally {
        let arrived = self.count_of(Fate::Arrived);
        let ended = self.arrows.len();
        Tally {
            events: self.rows.len(),
            copies: ended.saturating_add(flying),
            arrived,
            lost: ended.saturating_sub(arrived),
            flying,
            up: self.up.len(),
        }
    }

    /// Draws columns, rows and cut links.
    fn draw_grid<W: Write>(
        &self,
        writer: &mut W,
        columns: &Columns,
        bottom: usize,
    ) -> io::Result<()> {
        let width = columns.width();
        for row in 0..self.rows.len() {
            draw_row(writer, row, &self.rows[row], width)?;
        }
        draw_part(writer, columns, self.shape.left, bottom)?;
        if let Some(right) = self.shape.right {
            draw_part(writer, columns, right, bottom)?;
        }
        for cut in &self.cuts {
            draw_cut(writer, columns, cut, bottom)?;
        }
        Ok(())
    }

    /// Draws what nodes and copies do.
    fn draw_traffic<W: Write>(
        &self,
        writer: &mut W,
        columns: &Columns,
        flying: &[Arrow],
    ) -> io::Result<()> {
        for arrow in &self.arrows {
            draw_arrow(writer, columns, arrow, self.frame_at(arrow.frame))?;
        }
        for arrow in flying {
            draw_arrow(writer, columns, arrow, self.frame_at(arrow.frame))?;
        }
        for mark in &self.up {
            draw_up(writer, columns, mark, self.frame_at(mark.frame))?;
        }
        for mark in &self.sent {
            draw_sent(writer, columns, mark, self.frame_at(mark.frame))?;
        }
        Ok(())
    }

    /// Draws the names of copies and of cut links, over all lines.
    fn draw_names<W: Write>(
        &self,
        writer: &mut W,
        columns: &Columns,
        flying: &[Arrow],
    ) -> io::Result<()> {
        for arrow in &self.arrows {
            draw_arrow_name(writer, columns, arrow, self.frame_at(arrow.frame))?;
        }
        for arrow in flying {
            draw_arrow_name(writer, columns, arrow, self.frame_at(arrow.frame))?;
        }
        for cut in &self.cuts {
            draw_cut_name(writer, columns, cut)?;
        }
        Ok(())
    }

    /// Draws how many events are left out, if some are.
    fn draw_left_out<W: Write>(&self, writer: &mut W, bottom: usize) -> io::Result<()> {
        if self.left_out == 0 {
            return Ok(());
        }
        let left_out = self.left_out;
        let y = bottom.saturating_add(20);
        writeln!(
            writer,
            "<text x=\"12\" y=\"{y}\">{left_out} more events are left out</text>"
        )
    }

    /// Writes the chart as a picture, with these copies in flight at its end.
    ///
    /// # Errors
    /// Those of the writer.
    pub fn draw<W: Write>(&self, writer: &mut W, flying: &[Arrow]) -> io::Result<()> {
        let columns = Columns::of(self.shape);
        let bottom = y_of(self.rows.len());
        let size = (columns.width(), bottom.saturating_add(FOOT));
        draw_top(writer, self.shape, self.tally(flying.len()), size)?;
        define_heads(writer)?;
        draw_legend(writer)?;
        self.draw_grid(writer, &columns, bottom)?;
        self.draw_traffic(writer, &columns, flying)?;
        self.draw_names(writer, &columns, flying)?;
        self.draw_left_out(writer, bottom)?;
        writeln!(writer, "</svg>")
    }
}
