//! Tests of `sr_plant_script`, above it, so that its own functions are proved once: allocations that fail. What a script prints is
//! told by rows in `examples/cases`.

mod refusals;
mod runs;
mod steps;
