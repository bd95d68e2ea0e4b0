//! The first sources that something is told of, and how many more there are.

ghost use Rattle.std.specs.Prelude.{◌≡◌};

use sr_frame::Mac;

/// The first three sources that something is told of, and how many more there are. The count stays at 2^64 - 1.
#[derive(Clone, Copy, Debug, PartialEq, Eq)]
pub struct Names {
    /// The first one.
    pub first: Option<Mac>,
    /// The second one.
    pub second: Option<Mac>,
    /// The third one.
    pub third: Option<Mac>,
    /// How many more there are.
    pub more: u64,
}

impl Names {
    ghost use Rattle.std.specs.Prelude.{◌≡◌};
    ghost use Rattle.sr_verdict.specs.Names.{no_names, names_with};

    /// No source.
    pub(crate) const NONE: Names = Names {
        first: None,
        second: None,
        third: None,
        more: 0,
    };

    /// With a source more.
    pub(crate) fn with(self, mac: Mac) -> Names
        ensures { result ≡ names_with mac self }
    {
        if self.first.is_none() {
            Names {
                first: Some(mac),
                ..self
            }
        } else if self.second.is_none() {
            Names {
                second: Some(mac),
                ..self
            }
        } else if self.third.is_none() {
            Names {
                third: Some(mac),
                ..self
            }
        } else {
            Names {
                more: self.more.saturating_add(1),
                ..self
            }
        }
    }
}
