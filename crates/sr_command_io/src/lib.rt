//! What the commands of the program read and write: the files of captures, opened as one, and standard output.
#![tactic(auto)]

mod bounds;
mod ended;
mod files;
mod joined;
mod order;
mod owned;
mod pipes;
mod progress;
mod spelled;

pub use ended::Ended;
pub use files::{Opened, Sides, digest_at, open_captures, open_file, shown_of, size_of, tell_file};
pub use order::check_order;
pub use owned::{beside, both};
pub use pipes::{Pipe, Surveyed};
pub use progress::Progress;
pub use spelled::Spelled;
