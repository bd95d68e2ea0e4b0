//! Tests of `sr_sequence`, `sr_frame`, `sr_prp_trailer`, `sr_hsr_tag`, `sr_supervision` and `sr_forwarding`, above them,
//! so that their own functions are proved once.
#![tactic(auto)]

#[cfg(test)]
mod calls;
#[cfg(test)]
mod captured;
#[cfg(test)]
mod frames;
#[cfg(test)]
mod framings;
#[cfg(test)]
mod growths;
#[cfg(test)]
mod linux_frames;
#[cfg(test)]
mod numbers;
#[cfg(test)]
mod reading_edges;
#[cfg(test)]
mod steps;
#[cfg(test)]
mod supervision;
#[cfg(test)]
mod tags;
#[cfg(test)]
mod texts;
#[cfg(test)]
mod trailers;
