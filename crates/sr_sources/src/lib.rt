//! The sources of a network, told by their frames one by one: how many in a second, with a number or without, of one sender or of two, and what
//! supervision says of them.
#![tactic(auto)]

mod glimpse;
mod kinds;
mod lane;
mod laws;
mod rates;
mod senders;
mod source;
mod table;

pub use glimpse::Glimpse;
pub use kinds::NodeKind;
pub use lane::{Lane, Tail};
pub use laws::sources_show_events;
pub use rates::{Rates, Second};
pub use senders::Turns;
pub use source::{Event, Source};
pub use table::{MAX_SOURCES, Sources};
