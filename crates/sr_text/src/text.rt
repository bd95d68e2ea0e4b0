//! Text in a list that is never shortened.

ghost use Rattle.std.specs.Prelude.{◌≡◌, ◌+◌, ◌*◌, ◌<◌, ◌^◌, ◌↔◌, ◌≤◌, ◌++◌, ◌∷◌, [], length, take, IsTrue, OnOk, OnErr, vec_len};
ghost use Rattle.hex.specs.Hex.{encode_lower};

use sr_hex::write_hex;
use std::alloc::{AllocError, Global};
use std::marker::Model;

/// Text that grows at its end. What is cut off or cleared stays in its memory as octets that say nothing, and what is appended is
/// written over them: so nothing is cleared for it, and as a rule no memory is asked for.
// speed: D-text-never-shortened
#[derive(Drop)]
pub struct Text {
    // The text, and behind it octets that say nothing.
    octets: Vec<u8>,
    // How many octets the text has.
    len: usize,
}

impl Model for Text {
    ghost use Rattle.std.specs.Prelude.{ℕ, List, take, ◌≤◌, vec_len};

    ghost Value = { List ℕ };

    ghost view = { λ t. take t.len t.octets.items };

    ghost invariant = { λ t. t.len ≤ vec_len t.octets };
}

// Asks for memory for so many octets behind a text. It stands apart, so that what is written over octets that stand there costs no call.
// speed: D-text-never-shortened
#[inline(never)]
fn lengthen(octets: &mut Vec<u8>, len: usize, more: usize) -> Result<(), AllocError>
    requires within { len ≤ vec_len octets.old }
    requires fits { more < 2 ^ 63 }
    ensures room { OnOk result (len + more ≤ vec_len octets.new) }
    ensures within { len ≤ vec_len octets.new }
    ensures text { take len octets.new.items ≡ take len octets.old.items }
{
    octets.resize(octets.len().max(len + more), 0)
}

// Sees that there are so many octets behind a text.
// speed: D-session-inlined
#[inline(always)]
fn make_room(octets: &mut Vec<u8>, len: usize, more: usize) -> Result<(), AllocError>
    requires within { len ≤ vec_len octets.old }
    requires fits { more < 2 ^ 63 }
    ensures room { OnOk result (len + more ≤ vec_len octets.new) }
    ensures within { len ≤ vec_len octets.new }
    ensures text { take len octets.new.items ≡ take len octets.old.items }
{
    if octets.len() - len < more {
        return lengthen(octets, len, more);
    }
    Ok(())
}

// Writes octets from a place on. The result is the place behind them.
#[inline(always)]
fn put(list: &mut Vec<u8>, at: usize, octets: &[u8]) -> usize
    requires { at + length octets.now ≤ vec_len list.old }
    ensures long { vec_len list.new ≡ vec_len list.old }
    ensures end { result ≡ at + length octets.now }
    ensures put { take result list.new.items ≡ take at list.old.items ++ octets.now }
{
    let end = at + octets.len();
    list[at..end].copy_from_slice(octets);
    end
}

// Writes the digits of octets from a place on. The result is the place behind them.
#[inline(always)]
fn put_hex(list: &mut Vec<u8>, at: usize, octets: &[u8]) -> usize
    requires { at + 2 * length octets.now ≤ vec_len list.old }
    ensures long { vec_len list.new ≡ vec_len list.old }
    ensures end { result ≡ at + 2 * length octets.now }
    ensures put { take result list.new.items ≡ take at list.old.items ++ encode_lower octets.now }
{
    if octets.is_empty() {
        return at;
    }
    let end = at + 2 * octets.len();
    write_hex(octets, &mut list[at..end]);
    end
}

impl Text {
    /// Text without an octet. It takes no memory.
    pub fn new(alloc: Global) -> Text
        ensures { result ≡ [] }
    {
        Text {
            octets: Vec::new(alloc),
            len: 0,
        }
    }

    /// Its octets.
    #[inline(always)]
    pub fn as_slice(&self) -> &[u8]
        ensures { result.now ≡ self.now }
    {
        &self.octets[..self.len]
    }

    /// How many octets it has.
    #[inline(always)]
    pub fn len(&self) -> usize
        ensures { result ≡ length self.now }
    {
        self.as_slice().len()
    }

    /// Whether it has no octet.
    #[inline(always)]
    pub fn is_empty(&self) -> bool
        ensures empty { IsTrue result ↔ (self.now ≡ []) }
        ensures none { IsTrue result ↔ (length self.now ≡ 0) }
    {
        self.len == 0
    }

    /// Keeps so many octets at its front, or all where it has no more.
    #[inline(always)]
    pub fn truncate(&mut self, len: usize)
        ensures { self.new ≡ take len self.old }
    {
        if len < self.len {
            self.len = len;
        }
    }

    /// Appends an octet. An error: no memory was had for it, and the text is what it was.
    #[inline(always)]
    pub fn push(&mut self, octet: u8) -> Result<(), AllocError>
        ensures ok { OnOk result (self.new ≡ self.old ++ octet ∷ []) }
        ensures same { OnErr result (self.new ≡ self.old) }
    {
        make_room(&mut self.octets, self.len, 1)?;
        self.octets[self.len] = octet;
        self.len += 1;
        Ok(())
    }

    /// Appends octets. An error: no memory was had for them, and the text is what it was.
    #[inline(always)]
    pub fn extend_from_slice(&mut self, octets: &[u8]) -> Result<(), AllocError>
        ensures ok { OnOk result (self.new ≡ self.old ++ octets.now) }
        ensures same { OnErr result (self.new ≡ self.old) }
    {
        make_room(&mut self.octets, self.len, octets.len())?;
        self.len = put(&mut self.octets, self.len, octets);
        Ok(())
    }

    /// Appends a line: octets as they are, then others, which stand in two pieces, as hexadecimal digits of lower case, two each, and
    /// a line feed. An error: no memory was had for it, and the text is what it was.
    // speed: D-text-hex-line
    #[inline(always)]
    pub fn append_hex_line(
        &mut self,
        start: &[u8],
        front: &[u8],
        behind: &[u8],
    ) -> Result<(), AllocError>
        requires { length start.now + length front.now + length behind.now < 2 ^ 32 }
        ensures ok { OnOk result (self.new
            ≡ self.old ++ (start.now ++ encode_lower (front.now ++ behind.now) ++ 10 ∷ [])) }
        ensures same { OnErr result (self.new ≡ self.old) }
    {
        let more = start.len() + 2 * (front.len() + behind.len()) + 1;
        make_room(&mut self.octets, self.len, more)?;
        let at = put(&mut self.octets, self.len, start);
        let at = put_hex(&mut self.octets, at, front);
        let at = put_hex(&mut self.octets, at, behind);
        self.len = put(&mut self.octets, at, b"\n");
        Ok(())
    }
}
