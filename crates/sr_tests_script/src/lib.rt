//! Tests of scripts of nodes and of plants, above the crates that they test, so that these are proved once.
#![tactic(auto)]

#[cfg(test)]
mod answers;
#[cfg(test)]
mod plant_scripts;
#[cfg(test)]
mod scripts;
