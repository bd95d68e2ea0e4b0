//! The edges of recordings: how long one side may have a frame that the other side's recorder was too late for, or too early.

ghost use Rattle.std.specs.Prelude.{◌≡◌, min};
ghost use Rattle.sr_capture_audit.specs.Edging.{widest, inner_span, inner_spans};

use sr_audit::{Skews, Span, Spans};

/// How wide an edge is at least, in nanoseconds: a switch may keep a frame back so long.
pub(crate) const LEAST_EDGE: u128 = 1_000_000;

/// How wide it is at most: copies that come further apart are a fault.
const MOST_EDGE: u64 = 400_000_000;

/// How far apart the copies of a source's frames came at most.
pub(crate) fn widest(skews: &Skews) -> u128
    ensures { result ≡ widest skews.now }
{
    skews
        .least
        .unsigned_abs()
        .max(skews.greatest.unsigned_abs())
}

/// The part of a recording that is so far from its beginning and its end.
fn inner_span(width: u64, span: Option<Span>) -> Option<Span>
    ensures { result ≡ inner_span width span }
{
    match span {
        Some(span) => Some(Span {
            first: span.first.saturating_add(width),
            last: span.last.saturating_sub(width),
        }),
        None => None,
    }
}

/// The parts of recordings in which a frame of the one is missing in the other, if it has no copy there: those that are so far from the
/// beginning and the end, as copies come apart.
pub fn inner_spans(width: u64, spans: Spans) -> Spans
    ensures { result ≡ inner_spans width spans }
{
    Spans {
        a: inner_span(width, spans.a),
        b: inner_span(width, spans.b),
    }
}

/// The width of an edge, which is at most 400 ms.
pub(crate) fn bounded_edge(width: u128) -> u64
    ensures { result ≡ min width 400000000 }
{
    u64::try_from(width).unwrap_or(MOST_EDGE).min(MOST_EDGE)
}
