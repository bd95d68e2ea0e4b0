//! A chart that grows event by event.

ghost use Rattle.std.specs.Prelude.{◌≡◌, ◌+◌, ◌++◌, ◌∷◌, ◌≤◌, ◌↔◌, [], length, true, OnOk, OnErr, IfOk};
ghost use Rattle.sr_chart.specs.Charts.{most_events, nothing_shown, last_row, mark_of, with_frame, cut_link, with_left_out};

use crate::kinds::{Arrow, Deed, Fate, Frame, LinkPlace, Row, Shape};
use std::alloc::{AllocError, Global};
use std::marker::Model;

/// How many events a chart shows (choice of this project).
pub const MAX_ROWS: usize = 500;

/// Something at the column of a node.
#[derive(Clone, Copy)]
pub(crate) struct Mark {
    /// The node.
    pub(crate) node: usize,
    /// The row.
    pub(crate) row: usize,
    /// The place of its frame.
    pub(crate) frame: usize,
}

/// How long a link was cut.
#[derive(Clone, Copy)]
pub(crate) struct CutLink {
    /// The link.
    pub(crate) link: usize,
    /// Where it is drawn.
    pub(crate) place: LinkPlace,
    /// The row in which it was cut.
    pub(crate) start: usize,
    /// The row in which it was mended, if it was.
    pub(crate) end: Option<usize>,
}

/// A chart: what happened in its first events, and how many others there were.
#[derive(Drop)]
pub struct Chart {
    pub(crate) shape: Shape,
    pub(crate) rows: Vec<Row>,
    pub(crate) frames: Vec<Frame>,
    pub(crate) arrows: Vec<Arrow>,
    pub(crate) sent: Vec<Mark>,
    pub(crate) up: Vec<Mark>,
    pub(crate) cuts: Vec<CutLink>,
    pub(crate) left_out: u64,
}

impl Model for Chart {
    ghost use Rattle.std.specs.Prelude.{map};
    ghost use Rattle.sr_chart.specs.Charts.{Shown};

    ghost Value = { Shown };

    ghost view = { λ c. record {
      events = c.rows.len;
      senders = map (λ f. f.source) c.frames.items;
      arrows = c.arrows.items;
      sent = c.sent.items;
      up = c.up.items;
      cuts = c.cuts.items;
      left_out = c.left_out;
    } };
}

/// Puts an item behind all others.
fn push<T: Copy>(list: &mut Vec<T>, item: T) -> Result<(), AllocError>
    ensures ok { OnOk result (list.new.items ≡ list.old.items ++ item ∷ []) }
    ensures len { OnOk result (list.new.len ≡ list.old.len + 1) }
    ensures same { OnErr result (list.new.items ≡ list.old.items) }
    ensures same_len { OnErr result (list.new.len ≡ list.old.len) }
{
    match list.push(item) {
        Ok(()) => Ok(()),
        Err(refused) => Err(AllocError::from(refused)),
    }
}

impl Chart {
    /// A chart without an event. It takes no memory.
    pub fn new(alloc: Global, shape: Shape) -> Chart
        ensures { result ≡ nothing_shown }
    {
        Chart {
            shape,
            rows: Vec::new(alloc),
            frames: Vec::new(alloc),
            arrows: Vec::new(alloc),
            sent: Vec::new(alloc),
            up: Vec::new(alloc),
            cuts: Vec::new(alloc),
            left_out: 0,
        }
    }

    /// Whether it shows as many events as a chart does.
    pub fn is_full(&self) -> bool
        ensures { (result ≡ true) ↔ (most_events ≤ self.now.events) }
    {
        self.rows.len() >= MAX_ROWS
    }

    /// Counts an event that is not shown.
    pub fn leave_out(&mut self)
        ensures { self.new ≡ with_left_out self.old }
    {
        self.left_out = self.left_out.saturating_add(1);
    }

    /// The row of the event that was added last.
    pub fn row(&self) -> usize
        ensures { result ≡ last_row self.now }
    {
        self.rows.len().saturating_sub(1)
    }

    /// Adds an event.
    ///
    /// # Errors
    /// An allocation failed, and nothing changes.
    pub fn add_event(
        &mut self,
        line: u64,
        deed: Deed,
        refusal: Option<&'static str>,
    ) -> Result<(), AllocError>
        ensures ok { OnOk result (self.new ≡ record self.old { events = self.old.events + 1 }) }
        ensures same { OnErr result (self.new ≡ self.old) }
    {
        let row = Row {
            line,
            deed,
            refusal,
        };
        push(&mut self.rows, row)
    }

    /// The number of the next frame of a node, among those of that node.
    fn next_number(&self, source: usize) -> u64 {
        let mut number: u64 = 1;
        for frame in &self.frames {
            if frame.source == source {
                number = number.saturating_add(1);
            }
        }
        number
    }

    /// Adds a frame that a node sends in the last row. The answer is its place.
    ///
    /// # Errors
    /// An allocation failed, and nothing changes.
    pub fn add_frame(&mut self, source: usize) -> Result<usize, AllocError>
        ensures ok { OnOk result (self.new ≡ with_frame self.old source) }
        ensures place { IfOk result (λ place. place ≡ length self.old.senders) }
        ensures same { OnErr result (self.new ≡ self.old) }
    {
        let number = self.next_number(source);
        let row = self.row();
        let frame = self.frames.len();
        self.sent.reserve(1)?;
        push(&mut self.frames, Frame { source, number })?;
        self.sent.push_reserved(Mark {
            node: source,
            row,
            frame,
        });
        Ok(frame)
    }

    /// Adds a copy.
    ///
    /// # Errors
    /// An allocation failed, and nothing changes.
    pub fn add_arrow(&mut self, arrow: Arrow) -> Result<(), AllocError>
        ensures ok { OnOk result (self.new
            ≡ record self.old { arrows = self.old.arrows ++ arrow ∷ [] }) }
        ensures same { OnErr result (self.new ≡ self.old) }
    {
        push(&mut self.arrows, arrow)
    }

    /// Adds a frame that a node hands up in the last row.
    ///
    /// # Errors
    /// An allocation failed, and nothing changes.
    pub fn add_up(&mut self, node: usize, frame: usize) -> Result<(), AllocError>
        ensures ok { OnOk result (self.new
            ≡ record self.old { up = self.old.up ++ mark_of self.old node frame ∷ [] }) }
        ensures same { OnErr result (self.new ≡ self.old) }
    {
        let row = self.row();
        push(&mut self.up, Mark { node, row, frame })
    }

    /// Adds that a link is cut from the last row on.
    ///
    /// # Errors
    /// An allocation failed, and nothing changes.
    pub fn add_cut(&mut self, link: usize, place: LinkPlace) -> Result<(), AllocError>
        ensures ok { OnOk result (self.new
            ≡ record self.old { cuts = self.old.cuts ++ cut_link self.old link place ∷ [] }) }
        ensures same { OnErr result (self.new ≡ self.old) }
    {
        let start = self.row();
        push(
            &mut self.cuts,
            CutLink {
                link,
                place,
                start,
                end: None,
            },
        )
    }

    /// Notes that a link is cut no more, from the last row on.
    pub fn end_cut(&mut self, link: usize)
        ensures { self.new ≡ record self.old { cuts = self.new.cuts } }
    {
        let row = self.row();
        for cut in self.cuts.iter_mut() {
            if cut.link == link && cut.end.is_none() {
                cut.end = Some(row);
            }
        }
    }

    /// How many copies ended so.
    pub(crate) fn count_of(&self, fate: Fate) -> usize {
        let mut count: usize = 0;
        for arrow in &self.arrows {
            if arrow.fate == fate {
                count = count.saturating_add(1);
            }
        }
        count
    }
}
