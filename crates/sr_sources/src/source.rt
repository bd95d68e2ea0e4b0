//! What is known of a source.

ghost use Rattle.std.specs.Prelude.{◌≡◌};

use crate::glimpse::Glimpse;
use crate::lane::Lane;
use sr_frame::Mac;
use sr_prp_trailer::Lan;
use sr_slots::Ranked;
use sr_supervision::Life;

/// What is told of a source.
#[derive(Clone, Copy, Debug, PartialEq, Eq)]
pub enum Event {
    /// A frame of it came by a LAN.
    Frame(Lan, Glimpse),
    /// Supervision says so that it lives.
    Alive(Life),
    /// Supervision says that it stands behind this RedBox.
    Behind(Mac),
    /// Supervision names it as a RedBox.
    IsBox,
}

/// What is known of a source.
#[derive(Clone, Copy, Debug, Drop, PartialEq, Eq)]
pub struct Source {
    /// Its frames in LAN A.
    pub a: Lane,
    /// Its frames in LAN B.
    pub b: Lane,
    /// How it announced itself last.
    pub life: Option<Life>,
    /// The RedBox that it stands behind.
    pub redbox: Option<Mac>,
    /// Whether it was named as a RedBox.
    pub is_redbox: bool,
}

impl Ranked for Source {
    ghost rank_of = { λ s. 0 };

    // No source goes.
    fn rank(&self) -> u64 {
        0
    }
}

impl Source {
    ghost use Rattle.std.specs.Prelude.{◌≡◌};
    ghost use Rattle.sr_sources.specs.Sources.{no_source, source_with};

    /// Nothing was told of it.
    pub(crate) fn new() -> Source
        ensures { result ≡ no_source }
    {
        Source {
            a: Lane::new(),
            b: Lane::new(),
            life: None,
            redbox: None,
            is_redbox: false,
        }
    }

    /// With what is told of it next.
    pub(crate) fn with(self, event: Event) -> Source
        ensures { result ≡ source_with event self }
    {
        match event {
            Event::Frame(Lan::A, x) => Source {
                a: self.a.with(x),
                ..self
            },
            Event::Frame(Lan::B, x) => Source {
                b: self.b.with(x),
                ..self
            },
            Event::Alive(life) => Source {
                life: Some(life),
                ..self
            },
            Event::Behind(redbox) => Source {
                redbox: Some(redbox),
                ..self
            },
            Event::IsBox => Source {
                is_redbox: true,
                ..self
            },
        }
    }
}
