//! What is told beside a fault: what is wrong with a line of a script, and what looks wrong in captures and at the end of a script.
#![tactic(auto)]

mod files;
mod flaws;
mod forms;
mod hints;
mod line_flaws;
mod survey;
mod tails;
mod word_flaws;

pub use files::{FileFault, FileReason, NoInterface, Unopened, letter_of};
pub use flaws::{Flaw, Found};
pub use forms::ScriptKind;
pub use hints::ScriptAdvice;
pub use line_flaws::{found_in, is_capture};
pub use survey::Survey;
pub use tails::{TailAdvice, tail_advice};
