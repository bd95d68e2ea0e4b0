//! The first reading of an audit: when its captures begin and end, and what they tell of their sources, streams and recorders.

use crate::audit::passes::open;
use sr_audit::{Sides, Spans};
use sr_capture_audit::Subject;
use sr_capture_script::Inlet;
use sr_capture_sources::sources_beside;
use sr_capture_streams::StreamWatch;
use sr_command_io::{Ended, Progress};
use sr_options::AuditTask;
use sr_slots::Keys;
use sr_sources::Sources;
use sr_streams::Streams;
use std::rt::Files;

/// What one reading of the captures tells.
#[derive(Drop)]
pub(crate) struct Seen {
    /// When they begin and end.
    pub(crate) spans: Spans,
    /// What frames and supervision tell of the sources.
    pub(crate) sources: Sources,
    /// The streams of GOOSE and sampled values.
    pub(crate) streams: Streams,
    /// How many packets the recorders say that they dropped.
    pub(crate) dropped: Sides,
}

/// What one reading of the captures tells.
pub(crate) fn read_seen<R: AllocGlobal + Eprint + Files>(
    rt: &R,
    task: &AuditTask<'_>,
    subject: Subject,
    keys: Keys,
    progress: Progress,
) -> Result<Seen, Ended> {
    let mut captures = open(rt, task, progress)?;
    let told = sources_beside(
        rt.alloc(),
        keys,
        &mut captures,
        &task.options.choice,
        subject,
        StreamWatch::new(rt.alloc()),
    );
    let dropped = Sides {
        a: captures.dropped(Inlet::A).unwrap_or(0),
        b: captures.dropped(Inlet::B).unwrap_or(0),
    };
    drop(captures);
    let told = told?;
    Ok(Seen {
        spans: told.spans,
        sources: told.sources,
        streams: told.other.into_streams(),
        dropped,
    })
}
