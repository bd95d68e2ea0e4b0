//! A picture of what an audit tells: skew against time, and when frames were lost.

use crate::drawing::{draw_chart, draw_foot, draw_head};
use crate::kept::Kept;
use crate::sources::SourceLine;
use sr_capture_script::ScriptFault;
use std::io::Write;

/// How many sources a picture has: the worst ones (choice of this project).
pub const MAX_CHARTS: usize = 16;

/// Draws the worst sources: of each, skew against time, and marks where frames were lost. Time is divided into 500 columns; of each, the
/// least and the greatest skew are drawn, and a mark for each kind of loss.
///
/// # Errors
/// `Write` where the writer fails.
pub fn print_picture<W: Write>(
    writer: &mut W,
    lines: &[SourceLine],
    kept: &Kept,
) -> Result<(), ScriptFault> {
    let charts = kept.cards.len().min(MAX_CHARTS);
    draw_head(writer, charts, lines.len(), kept.times)?;
    for at in 0..charts {
        if let (Some(line), Some(card), Some(strip)) = (
            lines.get(at),
            kept.cards.get(at),
            kept.strips.get(at),
        ) {
            draw_chart(writer, at, line, card, strip)?;
        }
    }
    draw_foot(writer, charts, kept.times)
}
