//! What the thread of a capture does.

use crate::outlet::Takers;
use crate::plan::LanPlan;
use crate::reader::read_lan;
use std::rt::Files;
use std::sync::Wait;

/// What the thread of a capture does: it reads the capture of a LAN to its end, and those behind it where its path is opened again.
#[derive(Drop)]
pub struct Job {
    pub(crate) path: String,
    pub(crate) plan: LanPlan,
    pub(crate) to: Takers,
}

impl Job {
    /// Does it, in the thread that calls.
    pub fn run<R: AllocGlobal + Files + Wait + Copy + Drop>(self, rt: R) {
        read_lan(rt, self.path, self.plan, self.to)
    }
}
