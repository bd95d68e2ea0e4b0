//! The elements of a page that tells of an audit, in HTML: its head and policy, the verdict, figures, findings, tables and words.
#![tactic(auto)]

mod captures;
mod charts;
mod digests;
mod elements;
mod findings;
mod head;
mod names;
mod outcome;
mod scales;
mod script;
mod shown;
mod singles;
mod style;
mod table;
mod topology;
mod totals;
mod words;

pub use captures::{CaptureCounts, CaptureFile, close_captures, open_captures, write_capture};
pub use charts::{
    Key, close_columns, close_figure, close_path, close_plot, close_row, open_columns, open_figure,
    open_path, open_plot, open_row, put_bar, put_beside, put_grid, put_legend, write_axis,
};
pub use digests::digest_of;
pub use elements::{
    close_section, open_section, put, put_all, put_count, put_escaped, put_mac, put_some, word_for,
};
pub use findings::{
    Weight, close_finding, close_findings, open_finding, open_findings, put_advice, put_expression,
    put_filter, put_named, put_packets, put_since, put_subject, write_note, write_remark,
};
pub use head::{Fact, close_page, open_page, write_head};
pub use names::{NodeName, name_place, put_node};
pub use outcome::{Outcome, close_verdict, open_verdict, outcome_by, write_doubt, write_reason};
pub use scales::{Extent, Place, Unit, rounded_up, unit_of};
pub use shown::{Count, Hexadecimal, Percent, Seconds, Skew, parts_of};
pub use singles::{SingleRow, close_singles, open_singles, write_single};
pub use table::{SourceRow, close_sources, open_sources, write_source};
pub use topology::{Topology, Way};
pub use totals::{Totals, write_totals};
pub use words::write_words;
