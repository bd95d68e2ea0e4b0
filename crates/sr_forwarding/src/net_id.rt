//! Numbers of PRP networks at a ring.

ghost use Rattle.std.specs.Prelude.{◌≡◌, ◌<◌, ◌≤◌, ◌⊎◌, IfSome, IfNone};
ghost use Rattle.sr_forwarding.specs.Limits.{greatest_net};
ghost use Rattle.sr_forwarding.specs.NetIds.{net_of, number_of};

/// The greatest number of a PRP network at a ring.
pub const MAX_NET: u8 = 6;

/// The number of a PRP network at a ring, 1 to 6 (IEC 62439-3, NetId).
#[derive(Clone, Copy, Debug, PartialEq, Eq)]
pub enum NetId {
    /// The network of number 1.
    One,
    /// The network of number 2.
    Two,
    /// The network of number 3.
    Three,
    /// The network of number 4.
    Four,
    /// The network of number 5.
    Five,
    /// The network of number 6.
    Six,
}

impl NetId {
    /// The network of this number.
    pub fn new(number: u8) -> NetId
        requires numbered { 0 < number }
        requires fits { number ≤ greatest_net }
        ensures { result ≡ net_of number }
    {
        match number {
            1 => NetId::One,
            2 => NetId::Two,
            3 => NetId::Three,
            4 => NetId::Four,
            5 => NetId::Five,
            _ => NetId::Six,
        }
    }

    /// The network of this number, where it is 1 to 6.
    pub fn checked(number: u8) -> Option<NetId>
        ensures some { IfSome result (λ net. number_of net ≡ number) }
        ensures none { IfNone result ((number ≡ 0) ⊎ (greatest_net < number)) }
    {
        match number {
            1 => Some(NetId::One),
            2 => Some(NetId::Two),
            3 => Some(NetId::Three),
            4 => Some(NetId::Four),
            5 => Some(NetId::Five),
            6 => Some(NetId::Six),
            _ => None,
        }
    }

    /// Its number.
    // speed: D-framing-table
    #[inline(always)]
    pub fn number(self) -> u8
        ensures number { result ≡ number_of self }
        ensures numbered { 0 < result }
        ensures fits { result ≤ greatest_net }
    {
        match self {
            NetId::One => 1,
            NetId::Two => 2,
            NetId::Three => 3,
            NetId::Four => 4,
            NetId::Five => 5,
            NetId::Six => 6,
        }
    }
}
