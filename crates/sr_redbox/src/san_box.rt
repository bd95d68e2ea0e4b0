//! The role of a RedBox for nodes that know no redundancy.

ghost use Rattle.std.specs.Prelude.{◌≡◌, IfOk, OnOk, OnErr};
ghost use Rattle.sr_forwarding.specs.Proxies.{proxied_after, proxy_answer};
ghost use Rattle.sr_forwarding.specs.RoleImages.{is_proxied, role_of};
ghost use Rattle.sr_forwarding.specs.Routes.{san_from_host, san_from_interlink, san_from_ring};
ghost use Rattle.sr_redbox.specs.SanBoxes.{san_of};

use bitflags::Flags;
use sr_forwarding::{Header, LearnOutcome, Outlets, Port, Proxied, Role, RoleImage, RoleKind};
use sr_frame::{Mac, NoMemory};
use sr_proxy_table::ProxyTable;
use sr_slots::Keys;
use std::alloc::Global;
use std::marker::Model;

/// A RedBox between a ring and nodes that know no redundancy, which it stands for in the ring (IEC 62439-3 clause 5): those that
/// it heard at its interlink.
#[derive(Drop)]
pub struct SanBox {
    mac: Mac,
    proxied: ProxyTable,
}

impl Model for SanBox {
    ghost use Rattle.sr_redbox.specs.SanBoxes.{SanView};

    ghost Value = { SanView };

    ghost view = { λ b. record { mac = b.mac; proxied = b.proxied } };
}

impl SanBox {
    /// The role of the node with this address, which proxies none yet. Its table has fixed keys. Does not allocate.
    pub fn new(alloc: Global, mac: Mac) -> SanBox
        ensures { san_of result ≡ role_of RoleKind.San mac }
    {
        SanBox::with_keys(alloc, mac, Keys::FIXED)
    }

    /// Such a role whose table places its addresses by these keys.
    pub fn with_keys(alloc: Global, mac: Mac, keys: Keys) -> SanBox
        ensures { san_of result ≡ role_of RoleKind.San mac }
    {
        SanBox {
            mac,
            proxied: ProxyTable::with_keys(alloc, keys),
        }
    }

    // Whether the node stands for another's address.
    fn proxies(&self, mac: Mac, now: u64) -> bool
        ensures { result ≡ is_proxied (san_of self.now) mac now }
    {
        self.proxied.has(mac, now)
    }

    // Stands for this address from now on, where there is room. NoMemory: an allocation failed, and nothing changes.
    fn proxy(&mut self, mac: Mac, now: u64) -> Result<LearnOutcome, NoMemory>
        ensures answer { IfOk result (λ a. a ≡ proxy_answer (san_of self.old).proxied mac now) }
        ensures after { OnOk result (san_of self.new
            ≡ record (san_of self.old) {
              proxied = proxied_after (san_of self.old).proxied
                  mac now;
            }) }
        ensures err { OnErr result (self.new ≡ self.old) }
    {
        self.proxied.learn(mac, now)
    }

    // Where a frame of the host goes.
    fn from_host(&self, header: &Header, now: u64) -> Outlets
        ensures { result ≡ san_from_host (san_of self.now) header.now now }
    {
        let ring = Outlets::A.union(Outlets::B);
        if header.supervision {
            ring
        } else if header.dst.is_group() {
            ring.union(Outlets::C)
        } else if self.proxies(header.dst, now) {
            Outlets::C
        } else if header.dst_known {
            ring
        } else {
            ring.union(Outlets::C)
        }
    }

    // Where a frame of the ring goes.
    fn from_ring(&self, header: &Header, inlet: Port, now: u64) -> Outlets
        ensures { result ≡ san_from_ring (san_of self.now) header.now inlet now }
    {
        let ring = Outlets::other_ring_port(inlet);
        if header.src == self.mac || self.proxies(header.src, now) {
            Outlets::none()
        } else if header.supervision {
            ring
        } else if header.dst == self.mac {
            Outlets::H
        } else if header.dst.is_group() {
            Outlets::H.union(ring).union(Outlets::C)
        } else if self.proxies(header.dst, now) {
            Outlets::C
        } else if header.dst_known {
            ring
        } else {
            ring.union(Outlets::C)
        }
    }

    // Where a frame of a node that knows no redundancy goes.
    fn from_interlink(&self, header: &Header, now: u64) -> Outlets
        ensures { result ≡ san_from_interlink (san_of self.now) header.now now }
    {
        if header.supervision {
            Outlets::none()
        } else if header.dst == self.mac {
            Outlets::H
        } else if header.dst.is_group() {
            Outlets::H.union(Outlets::A).union(Outlets::B)
        } else if self.proxies(header.dst, now) {
            Outlets::none()
        } else {
            Outlets::A.union(Outlets::B)
        }
    }
}

impl Role for SanBox {
    ghost use Rattle.sr_redbox.specs.SanBoxes.{san_of};

    ghost meaning = { san_of };

    fn mac(&self) -> Mac {
        self.mac
    }

    fn kind(&self) -> RoleKind {
        RoleKind::San
    }

    fn owns(&self, mac: Mac, now: u64) -> bool {
        mac == self.mac || self.proxies(mac, now)
    }

    fn wants(&self, header: &Header, inlet: Port, now: u64) -> Outlets {
        match inlet {
            Port::H => self.from_host(header, now),
            Port::A | Port::B => self.from_ring(header, inlet, now),
            Port::C => self.from_interlink(header, now),
        }
    }

    fn learn(
        &mut self,
        _alloc: Global,
        header: &Header,
        inlet: Port,
        now: u64,
    ) -> Result<LearnOutcome, NoMemory> {
        match inlet {
            Port::C => self.proxy(header.src, now),
            Port::H | Port::A | Port::B => Ok(LearnOutcome::Known),
        }
    }

    fn prune(&mut self, now: u64) -> usize {
        self.proxied.prune(now)
    }

    fn image(&self, _alloc: Global) -> Result<RoleImage, NoMemory> {
        Ok(RoleImage {
            kind: RoleKind::San,
            mac: self.mac,
            proxied: Proxied::of(self.proxied.times()?),
        })
    }
}
