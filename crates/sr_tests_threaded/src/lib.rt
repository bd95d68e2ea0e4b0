//! The tests of wires and of threaded networks.
#![tactic(auto)]

#[cfg(test)]
mod anew;
pub mod host;
#[cfg(test)]
mod networks;
#[cfg(test)]
mod runs;
#[cfg(test)]
mod scripts;
#[cfg(test)]
mod wires;
