//! A node for C programs: `clib/include/seamless.h` is its header.
#![tactic(auto)]

mod bulk;
mod codes;
mod entries;
mod frames;
mod handle;
mod lending;
mod life;
mod lists;
mod making;
mod others;
