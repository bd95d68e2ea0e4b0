//! What the nodes of tests are told, where they are no plain ones.

use sr_dup_table::Width;
use sr_node::{Mode, Settings};

/// Mode X, and 1024 numbers of a source.
pub const MODE_X: Settings = Settings {
    mode: Mode::X,
    width: Width::Narrow,
};

/// Mode H, and 2048 numbers of a source.
pub const WIDE: Settings = Settings {
    mode: Mode::H,
    width: Width::Wide,
};
