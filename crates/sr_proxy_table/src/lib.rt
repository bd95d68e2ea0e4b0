//! The addresses that a RedBox stands for: those that it learned at its interlink.
#![tactic(auto)]

mod table;

pub use table::{MAX_PROXIED, PROXY_FORGET_TIME, ProxyTable};
