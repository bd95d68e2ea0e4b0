//! Tests of RedBoxes, of nodes over their roles, and of plants, above the crates that they test, so that these are proved once.
#![tactic(auto)]

#[cfg(test)]
mod plants;
#[cfg(test)]
mod redboxes;
#[cfg(test)]
mod settings;
