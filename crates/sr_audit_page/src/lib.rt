//! The page that tells of an audit, for who has ordered the test of a network: its figures and what is told of it, in HTML.
#![tactic(auto)]

mod cards;
mod faults;
mod findings;
mod given;
mod grounds;
mod lines;
mod marks;
mod network;
mod page;
mod remarks;
mod rows;
mod singles;
mod sources;
mod stretches;
mod sums;
mod teller;
mod told;

pub use given::Given;
pub use grounds::{Grounds, grounds_of};
pub use lines::{row_of, rows_of};
pub use page::{Page, write_page};
pub use rows::counts_at;
pub use sums::sums_of;
pub use teller::topology_of;
