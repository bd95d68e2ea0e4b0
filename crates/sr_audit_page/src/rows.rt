//! What the table of the captures shows.

ghost use Rattle.std.specs.Prelude.{◌≡◌};
ghost use Rattle.sr_audit_page.specs.Rows.{counts_at};

use sr_audit::Span;
use sr_capture_audit::SideCounts;
use sr_page::CaptureCounts;

/// What the table of the captures shows of one.
pub fn counts_at(counts: &SideCounts, span: Option<Span>) -> CaptureCounts
    ensures { result ≡ counts_at counts.now span }
{
    let (first, last) = match span {
        Some(span) => (Some(span.first), Some(span.last)),
        None => (None, None),
    };
    CaptureCounts {
        packets: counts.packets,
        numbered: counts.numbered,
        plain: counts.plain,
        misfit: counts.misfit,
        wrong_lan: counts.wrong_lan,
        cut: counts.cut,
        long: counts.long,
        empty: counts.empty,
        first,
        last,
    }
}
