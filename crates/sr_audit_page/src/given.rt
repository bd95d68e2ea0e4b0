//! What stands in a page besides the figures: words from outside, in which nothing is markup.

use sr_markup::Escaped;
use sr_page::{CaptureFile, Fact, NodeName};

/// What stands in a page besides the figures.
#[derive(Drop)]
pub struct Given {
    /// Its title.
    pub title: Escaped,
    /// What is known of the captures as a whole.
    pub facts: Vec<Fact>,
    /// What the tester wrote.
    pub note: Option<Escaped>,
    /// Names of nodes.
    pub names: Vec<NodeName>,
    /// The files of capture A, or of the mirror port.
    pub files_a: Vec<CaptureFile>,
    /// Those of capture B.
    pub files_b: Vec<CaptureFile>,
}
