//! Values by hardware address, in the order of first hearing, with places that can be held ahead.
#![tactic(auto)]

mod by_address;
mod cell;
mod entries;
mod holding;
mod keys;
mod places;
mod putting;
mod ranked;
mod sifting;

pub use by_address::{Hint, Slots};
pub use entries::Iter;
pub use keys::{KeyedHasher, Keys};
pub use ranked::Ranked;
