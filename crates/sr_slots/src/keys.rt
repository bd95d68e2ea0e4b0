//! The secret that places addresses in a table.
ghost use Rattle.std.specs.Prelude.{fold, ◌≡◌, ◌*◌, ◌+◌, ◌%◌, ◌/◌, ◌^◌};
ghost use Rattle.sr_slots.specs.Keyed.{keys_in, spread};

use std::hash::{BuildHasher, Hasher};
use std::random::RandomSource;
use std::{fmt, io};

/// Two secret words of 128 bits. No answer of a table depends on them, only how long a look-up takes: addresses that are chosen
/// without them meet no oftener than by chance.
#[derive(Clone, Copy)]
pub struct Keys {
    factor: u128,
    addend: u128,
}

impl Keys {
    /// Keys from the random source of the system. An error: it gave none.
    pub fn new(rt: &impl RandomSource) -> io::Result<Keys> {
        let mut octets = [0; 32];
        rt.fill_bytes(&mut octets)?;
        Ok(Keys::of(octets))
    }

    /// Keys from 32 octets that the caller has drawn: the first 16 are the factor and the last 16 the addend, each with its least
    /// octet first.
    pub const fn of(octets: [u8; 32]) -> Keys
        ensures { result ≡ keys_in octets }
    {
        Keys {
            factor: u128::from_le_bytes([
                octets[0], octets[1], octets[2], octets[3], octets[4], octets[5], octets[6],
                octets[7], octets[8], octets[9], octets[10], octets[11], octets[12], octets[13],
                octets[14], octets[15],
            ]),
            addend: u128::from_le_bytes([
                octets[16], octets[17], octets[18], octets[19], octets[20], octets[21], octets[22],
                octets[23], octets[24], octets[25], octets[26], octets[27], octets[28], octets[29],
                octets[30], octets[31],
            ]),
        }
    }

    /// Keys that anyone can know: for tests, and where nobody chooses addresses.
    pub const FIXED: Keys = Keys {
        factor: 0x9e37_79b9_7f4a_7c15_f39c_c060_5ced_c835,
        addend: 0x243f_6a88_85a3_08d3_1319_8a2e_0370_7344,
    };
}

// Keys say nothing that an answer depends on, so any two are equal.
impl PartialEq for Keys {
    ghost use Rattle.std.specs.Prelude.{true};
    ghost use Rattle.std.specs.Cmp.Rules.{comparing};
    ghost use Rattle.std.proofs.Common.{rules};

    ghost eq = { λ _ _. true };

    ghost laws = { Prim.search (comparing, rules) };

    fn eq(&self, _other: &Keys) -> bool {
        true
    }
}

impl Eq for Keys {
    ghost use Rattle.std.proofs.Common.{rules};

    ghost laws = { Prim.search rules };
}

// The words are secret, and not shown.
impl fmt::Debug for Keys {
    fn fmt<W: fmt::Write>(&self, f: &mut fmt::Formatter<W>) -> fmt::Result {
        f.write_str("Keys")
    }
}

impl BuildHasher for Keys {
    type Hasher = KeyedHasher;

    ghost build_hasher = { λ keys. record { keys = keys; word = 0 } };

    fn build_hasher(&self) -> KeyedHasher {
        KeyedHasher {
            keys: *self,
            word: 0,
        }
    }
}

/// The last eight octets that were written, as a number, under its keys.
#[derive(Clone, Copy)]
pub struct KeyedHasher {
    keys: Keys,
    word: u64,
}

impl Hasher for KeyedHasher {
    ghost write = { λ h octets.
        record h { word = fold (λ w octet. (w * 256 + octet) % 2 ^ 64) h.word octets } };

    ghost finish = { λ h.
        spread ((((h.keys.factor * h.word) % 2 ^ 128 + h.keys.addend) % 2 ^ 128) / 2 ^ 64) };

    fn write(&mut self, octets: &[u8]) {
        self.word = match octets {
            [a, b, c, d, e, f] => after_address(self.word, [*a, *b, *c, *d, *e, *f]),
            _ => after_each(self.word, octets),
        };
    }

    // Over all keys, the numbers of any two different words are a uniform pair: so is the upper half of
    // factor * word + addend, and `spread` is one to one.
    fn finish(&self) -> u64 {
        let sum = self
            .keys
            .factor
            .wrapping_mul(self.word as u128)
            .wrapping_add(self.keys.addend);
        spread((sum >> 64) as u64)
    }
}

// The last eight octets, as a number, when these were written after those of a word.
fn after_each(mut word: u64, octets: &[u8]) -> u64
    ensures { result ≡ fold (λ w octet. (w * 256 + octet) % 2 ^ 64) word octets.now }
{
    for octet in octets {
        word = word.wrapping_mul(256).wrapping_add(*octet as u64);
    }
    word
}

// The word after the six octets of an address, which is what a table looks up: two numbers in place of six steps.
fn after_address(word: u64, octets: [u8; 6]) -> u64
    ensures { result ≡ fold (λ w octet. (w * 256 + octet) % 2 ^ 64) word octets }
{
    let front = u32::from_be_bytes([octets[0], octets[1], octets[2], octets[3]]);
    let back = u16::from_be_bytes([octets[4], octets[5]]);
    word.wrapping_mul(0x1_0000_0000_0000)
        .wrapping_add(front as u64 * 65536 + back as u64)
}

// One to one, so that words of one step do not stay in step where a factor is unlucky.
fn spread(number: u64) -> u64
    ensures { result ≡ spread number }
{
    (number ^ (number >> 32)).wrapping_mul(0x9e37_79b9_7f4a_7c15)
}
