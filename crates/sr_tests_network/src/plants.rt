//! Tests of `sr_plant`, above it, so that its own functions are proved once; and of the words of all faults below it.

mod coupled;
mod faults;
mod frames;
mod joining;
mod makers;
mod refusals;
mod steps;
mod traffic;
