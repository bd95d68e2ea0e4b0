//! Tests of `sr_capture`, `sr_pcapng`, `sr_capture_script` and `sr_clocks`, above them, so that their own functions are proved once:
//! captures in memory, the scripts that they give, and clocks.
#![tactic(auto)]

#[cfg(test)]
mod blocks;
#[cfg(test)]
mod clocks;
#[cfg(test)]
mod damage;
#[cfg(test)]
mod delays;
#[cfg(test)]
mod failing;
#[cfg(test)]
mod interfaces;
#[cfg(test)]
mod large;
#[cfg(test)]
mod listing;
#[cfg(test)]
mod pcapng;
#[cfg(test)]
mod runs;
#[cfg(test)]
mod steps;
#[cfg(test)]
mod texts;
#[cfg(test)]
mod written;
