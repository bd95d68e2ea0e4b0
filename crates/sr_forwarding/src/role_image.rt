//! Roles as data.

ghost use Rattle.std.specs.Prelude.{◌≡◌};

use crate::RoleKind;
use sr_frame::Mac;
use std::marker::Model;

/// The addresses that a role stands for beside its own, each with the time when it was last learned, in the order in
/// which they were learned first.
#[derive(Debug, Drop)]
pub struct Proxied {
    addresses: Vec<(Mac, u64)>,
}

impl Model for Proxied {
    ghost use Rattle.std.specs.Prelude.{List, ℕ};
    ghost use Rattle.sr_frame.specs.declared.fields.Mac.{Mac as Address};

    ghost Value = { List (Address × ℕ) };

    ghost view = { λ p. p.addresses.items };
}

impl PartialEq for Proxied {
    ghost use Rattle.std.specs.Prelude.{nat_eq};
    ghost use Rattle.std.specs.Cmp.Lexicographic.{pointwise};
    ghost use Rattle.std.specs.Ordering.{on, eq_of_both};
    ghost use Rattle.std.specs.Cmp.Rules.{comparing};
    ghost use Rattle.std.proofs.Common.{rules};
    ghost use Rattle.sr_frame.specs.Addresses.{mac_eq};

    ghost eq = { pointwise (eq_of_both (on (λ p. p.0) mac_eq) (on (λ p. p.1) nat_eq)) };

    ghost laws = { Prim.search (comparing, rules) };

    fn eq(&self, other: &Proxied) -> bool {
        self.addresses == other.addresses
    }
}

impl Eq for Proxied {
    ghost use Rattle.std.specs.Cmp.Rules.{comparing};
    ghost use Rattle.std.proofs.Common.{rules};

    ghost laws = { Prim.search (comparing, rules) };
}

impl Proxied {
    /// The list of these addresses, which it keeps without a copy.
    pub fn of(addresses: Vec<(Mac, u64)>) -> Proxied
        ensures { result ≡ addresses.items }
    {
        Proxied { addresses }
    }

    /// The addresses with their times.
    pub fn addresses(&self) -> &[(Mac, u64)]
        ensures { result.now ≡ self.now }
    {
        &self.addresses
    }

    /// The list that it keeps, given back without a copy.
    pub fn into_addresses(self) -> Vec<(Mac, u64)>
        ensures { result.items ≡ self }
    {
        let Proxied { addresses } = self;
        addresses
    }
}

/// A role as data: all that it decides is a function of this.
#[derive(Debug, PartialEq, Eq, Drop)]
pub struct RoleImage {
    /// Which table its routes are.
    pub kind: RoleKind,
    /// The node's address.
    pub mac: Mac,
    /// The addresses that it stands for beside its own.
    pub proxied: Proxied,
}
