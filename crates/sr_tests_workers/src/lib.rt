//! The tests of workers at a node that threads share.
#![tactic(auto)]

#[cfg(test)]
mod boxes;
#[cfg(test)]
mod crew;
pub mod gate;
#[cfg(test)]
mod gear;
#[cfg(test)]
mod hand;
#[cfg(test)]
mod judging;
#[cfg(test)]
mod marks;
#[cfg(test)]
mod rotating;
#[cfg(test)]
mod runs;
#[cfg(test)]
mod scripts;
#[cfg(test)]
mod steps;
