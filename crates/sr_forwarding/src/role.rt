//! What a node's role decides.

ghost use Rattle.std.specs.Prelude.{◌≡◌, IfOk, OnOk, OnErr};
ghost use Rattle.sr_forwarding.specs.RoleImages.{owned};
ghost use Rattle.sr_forwarding.specs.Routes.{routes};
ghost use Rattle.sr_forwarding.specs.Proxies.{learned, learnt, pruned, pruned_count};

use crate::{Header, Outlets, RoleImage, RoleKind};
use sr_frame::{LearnOutcome, Mac, NoMemory, Port};
use std::alloc::Global;

/// The part of a node that decides where frames go, and for which addresses the node stands. All that it answers is a
/// function of its image.
pub trait Role: Drop {
    ghost use Rattle.sr_forwarding.specs.declared.role_image.RoleImage.{RoleImage};

    ghost meaning: { Self → RoleImage };

    /// The node's address.
    fn mac(&self) -> Mac
        ensures { result ≡ (meaning self.now).mac };

    /// Which table its routes are.
    fn kind(&self) -> RoleKind
        ensures { result ≡ (meaning self.now).kind };

    /// Whether the node stands for this address: its own, or one that is proxied at this time.
    fn owns(&self, mac: Mac, now: u64) -> bool
        ensures { result ≡ owned (meaning self.now) mac now };

    /// Where a frame from this inlet goes, by the first line that fits of the table of its kind.
    fn wants(&self, header: &Header, inlet: Port, now: u64) -> Outlets
        ensures { result ≡ routes (meaning self.now) header.now inlet now };

    /// Learns the source of a frame at the interlink, where the role stands for the nodes behind it.
    /// NoMemory: an allocation failed, and nothing changes.
    fn learn(
        &mut self,
        alloc: Global,
        header: &Header,
        inlet: Port,
        now: u64,
    ) -> Result<LearnOutcome, NoMemory>
        ensures answer { IfOk result (λ a. a ≡ learnt (meaning self.old) header.now inlet now) }
        ensures after { OnOk result (meaning self.new
            ≡ learned (meaning self.old) header.now inlet now) }
        ensures err { OnErr result (meaning self.new ≡ meaning self.old) };

    /// Lets go the addresses that are proxied no more, and says how many they were.
    fn prune(&mut self, now: u64) -> usize
        ensures count { result ≡ pruned_count (meaning self.old) now }
        ensures after { meaning self.new ≡ pruned (meaning self.old) now };

    /// The role as data. NoMemory: an allocation failed.
    fn image(&self, alloc: Global) -> Result<RoleImage, NoMemory>
        ensures { IfOk result (λ i. i ≡ meaning self.now) };
}

impl Role for Box<dyn Role + Send> {
    ghost meaning = { λ b. (Role-box b).meaning b.value };

    fn mac(&self) -> Mac {
        (**self).mac()
    }

    fn kind(&self) -> RoleKind {
        (**self).kind()
    }

    fn owns(&self, mac: Mac, now: u64) -> bool {
        (**self).owns(mac, now)
    }

    fn wants(&self, header: &Header, inlet: Port, now: u64) -> Outlets {
        (**self).wants(header, inlet, now)
    }

    fn learn(
        &mut self,
        alloc: Global,
        header: &Header,
        inlet: Port,
        now: u64,
    ) -> Result<LearnOutcome, NoMemory> {
        (**self).learn(alloc, header, inlet, now)
    }

    fn prune(&mut self, now: u64) -> usize {
        (**self).prune(now)
    }

    fn image(&self, alloc: Global) -> Result<RoleImage, NoMemory> {
        (**self).image(alloc)
    }
}
