//! Tests of `sr_redbox`, and of a node over its roles, above both, so that their own functions are proved once.

mod exchanges;
mod learning;
mod node_steps;
mod nodes;
mod routes;
