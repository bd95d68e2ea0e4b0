//! Tests of `sr_script`, above it, so that its own functions are proved once: readers and writers that fail, and allocations
//! that do. What a script prints is told by rows in `examples/cases`.

mod failing;
mod refusals;
mod runs;
mod steps;
mod streams;
