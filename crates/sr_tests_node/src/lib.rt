//! Tests of `sr_node`, above it, so that its own functions are proved once.
#![tactic(auto)]

#[cfg(test)]
mod arrivals;
#[cfg(test)]
mod calls;
#[cfg(test)]
mod example;
#[cfg(test)]
mod frames;
#[cfg(test)]
mod hearings;
#[cfg(test)]
mod makers;
#[cfg(test)]
mod many;
#[cfg(test)]
mod noted;
#[cfg(test)]
mod others;
#[cfg(test)]
mod resumed;
#[cfg(test)]
mod rings;
#[cfg(test)]
mod standbys;
#[cfg(test)]
mod steps;
#[cfg(test)]
mod taken;
#[cfg(test)]
mod ticks;
#[cfg(test)]
mod ways;
