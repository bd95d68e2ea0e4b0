//! The addresses that a node stands for beside its own.

ghost use Rattle.std.specs.Prelude.{◌≡◌, IfOk, slice_get};
ghost use Rattle.sr_forwarding.specs.Proxies.{recent_of};
ghost use Rattle.sr_endpoint.specs.Endpoints.{state_by};

use crate::Endpoint;
use sr_frame::{Mac, NoMemory};
use sr_proxy_table::PROXY_FORGET_TIME;
use std::alloc::Global;

/// Those of some addresses that were heard less than `PROXY_FORGET_TIME` ago.
fn recent_of(alloc: Global, proxied: &[(Mac, u64)], now: u64) -> Result<Vec<(Mac, u64)>, NoMemory>
    ensures { IfOk result (λ recent. recent.items ≡ recent_of proxied.now now) }
{
    let mut recent = Vec::with_capacity(alloc, proxied.len())?;
    for (mac, at) in proxied {
        if now.saturating_sub(*at) < PROXY_FORGET_TIME {
            recent.extend_from_slice(&[(*mac, *at)])?;
        }
    }
    Ok(recent)
}

impl Endpoint {
    /// The addresses that the node stands for beside its own, in the order in which they were heard first at its interlink, each with
    /// the time when it was last heard there, in milliseconds. They are heard less than 60000 ms ago. There are none but at a RedBox
    /// for SANs. NoMemory: an allocation failed.
    pub fn proxied(&self) -> Result<Vec<(Mac, u64)>, NoMemory>
        ensures { IfOk result (λ recent. recent.items
            ≡ recent_of (state_by self.now).role.proxied (state_by self.now).core.time) }
    {
        let image = self.node.image()?;
        recent_of(self.alloc, image.role.proxied.addresses(), image.time)
    }
    /// Of these addresses the one at this index; None where there are fewer. NoMemory: an allocation failed.
    pub fn proxied_at(&self, index: usize) -> Result<Option<(Mac, u64)>, NoMemory>
        ensures { IfOk result (λ told. told ≡ slice_get (recent_of (state_by self.now).role.proxied
            (state_by self.now).core.time) index) }
    {
        let recent = self.proxied()?;
        match recent.get(index) {
            Some(proxied) => Ok(Some(*proxied)),
            None => Ok(None),
        }
    }
}
