//! Laws of what is kept of sources.

ghost use Rattle.sr_sources.specs.Sources.{SourcesShowEvents};

/// What is kept of a source has the figures of all of its frames in each LAN, and all that supervision said of it.
pub fn sources_show_events()
    ensures { SourcesShowEvents }
{}
