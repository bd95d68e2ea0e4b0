//! Tests of `sr_slots`, `sr_dup_window`, `sr_aged_slots`, `sr_dup_table`, `sr_dup_snapshots`, `sr_node_table` and `sr_proxy_table`,
//! above them, so that their own functions are proved once.
#![tactic(auto)]

#[cfg(test)]
mod ages;
#[cfg(test)]
mod duplicates;
#[cfg(test)]
mod joins;
#[cfg(test)]
mod node_steps;
#[cfg(test)]
mod nodes;
#[cfg(test)]
mod places;
#[cfg(test)]
mod proxied;
#[cfg(test)]
mod random_records;
#[cfg(test)]
mod records;
#[cfg(test)]
mod slots;
#[cfg(test)]
mod snapshot_steps;
#[cfg(test)]
mod snapshots;
#[cfg(test)]
mod steps;
