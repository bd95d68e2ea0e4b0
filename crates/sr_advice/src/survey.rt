//! What is seen of captures while their script is written, line by line: what the hints at its end rest on. A line is looked at
//! as it is written, in its digits.

ghost use Rattle.std.specs.Prelude.{◌≤◌, length, IfSome};

use crate::hints::ScriptAdvice;
use hex::FromHex;
use sr_options::ScriptTask;
use sr_prp_trailer::Lan;

/// Where the type of a frame stands that has no VLAN tag, in digits.
const TYPE_AT: usize = 24;

/// Where it stands behind a VLAN tag.
const TYPE_BEHIND_VLAN_AT: usize = 32;

/// How many digits a type has.
const TYPE_LEN: usize = 4;

/// How many digits a check sequence of four octets has.
const CHECK_LEN: usize = 8;

/// What is seen of the packets of a capture.
#[derive(Clone, Copy, Debug)]
pub(crate) struct Seen {
    /// How many have a line.
    pub used: u64,
    /// The first and the last time of a line, in milliseconds.
    pub times: Option<(u64, u64)>,
    /// How many of these have a trailer with the id of LAN A.
    pub lan_a: u64,
    /// How many have one with the id of LAN B.
    pub lan_b: u64,
    /// How many have none, but have one four octets before their end.
    pub ahead: u64,
    /// How many have an HSR tag.
    pub tagged: u64,
    /// How many supervision frames go to another address than nodes take them from.
    pub elsewhere: u64,
    /// How many packets the capture has, those of no line too.
    pub packets: u64,
    /// How many of these were cut.
    pub cut: u64,
    /// How many have a time before that of one ahead of them.
    pub back: u64,
}

/// Nothing was seen.
const NOTHING: Seen = Seen {
    used: 0,
    times: None,
    lan_a: 0,
    lan_b: 0,
    ahead: 0,
    tagged: 0,
    elsewhere: 0,
    packets: 0,
    cut: 0,
    back: 0,
};

/// Whether these digits stand at a place.
fn stands_at(digits: &[u8], at: usize, wanted: &[u8]) -> bool {
    match digits.get(at..) {
        Some(rest) => rest.starts_with(wanted),
        None => false,
    }
}

/// Where the type of a frame stands.
fn type_at(digits: &[u8]) -> usize
    ensures { result ≤ 32 }
{
    if stands_at(digits, TYPE_AT, b"8100") {
        TYPE_BEHIND_VLAN_AT
    } else {
        TYPE_AT
    }
}

/// Whether a frame has an HSR tag.
pub(crate) fn is_tagged(digits: &[u8]) -> bool {
    stands_at(digits, type_at(digits), b"892f")
}

/// Whether a frame is a supervision frame to 01:15:4e:00:01:01 or one of the addresses up to FF. Behind an HSR tag the type
/// stands six octets later.
fn is_elsewhere(digits: &[u8]) -> bool {
    let own_type = type_at(digits);
    let behind_tag = own_type + 12;
    let is_supervision = stands_at(digits, own_type, b"88fb")
        || is_tagged(digits) && stands_at(digits, behind_tag, b"88fb");
    is_supervision && digits.starts_with(b"01154e0001") && !stands_at(digits, 10, b"00")
}

/// The LAN that the trailer of a frame names, if it has one: the size in it counts what stands behind the type.
fn trailer_in(digits: &[u8]) -> Option<Lan> {
    let before = digits.strip_suffix(b"88fb")?;
    let field = before.get(before.len().checked_sub(4)?..)?;
    let [high, low] = <[u8; 2] as FromHex>::from_hex(field).ok()?;
    let size = usize::from(high % 16) * 256 + usize::from(low);
    if size * 2 + type_at(digits) + TYPE_LEN != digits.len() {
        return None;
    }
    match high / 16 {
        10 => Some(Lan::A),
        11 => Some(Lan::B),
        _ => None,
    }
}

/// Whether a trailer stands four octets before the end.
fn has_trailer_ahead(digits: &[u8]) -> bool {
    match digits.len().checked_sub(CHECK_LEN) {
        Some(len) => trailer_in(&digits[..len]).is_some(),
        None => false,
    }
}

/// What is seen with one more.
fn more(count: u64, is_one: bool) -> u64 {
    count.saturating_add(u64::from(is_one))
}

impl Seen {
    /// Notes the line of a packet that has this time and these digits.
    fn note(&mut self, time: u64, digits: &[u8]) {
        self.used = self.used.saturating_add(1);
        self.times = match self.times {
            Some((first, _)) => Some((first, time)),
            None => Some((time, time)),
        };
        match trailer_in(digits) {
            Some(Lan::A) => self.lan_a = self.lan_a.saturating_add(1),
            Some(Lan::B) => self.lan_b = self.lan_b.saturating_add(1),
            None => self.ahead = more(self.ahead, has_trailer_ahead(digits)),
        }
        self.tagged = more(self.tagged, is_tagged(digits));
        self.elsewhere = more(self.elsewhere, is_elsewhere(digits));
    }

    /// How many have a trailer.
    pub(crate) fn trailed(&self) -> u64 {
        self.lan_a.saturating_add(self.lan_b)
    }

    /// Whether more than half of the lines have this count.
    pub(crate) fn is_most(&self, count: u64) -> bool {
        count > self.used / 2
    }
}

/// The number that decimal digits spell at the front of octets, and what stands behind the octet that ends it.
pub(crate) fn number_in(octets: &[u8]) -> (u64, &[u8])
    ensures shorter { length result.1.now ≤ length octets.now }
{
    let mut number: u64 = 0;
    for at in 0..octets.len() {
        let octet = octets[at];
        if !octet.is_ascii_digit() {
            return (number, &octets[at + 1..]);
        }
        let digit = u64::from(octet.saturating_sub(b'0'));
        number = number.saturating_mul(10).saturating_add(digit);
    }
    (number, &[])
}

/// The next number of a text, and what stands behind the octet that ends it. Where there is none it is 0.
fn next_number(octets: &[u8]) -> (u64, &[u8]) {
    for at in 0..octets.len() {
        if octets[at].is_ascii_digit() {
            return number_in(&octets[at..]);
        }
    }
    (0, &[])
}

/// What is seen of a script as it is written: of each capture, and how many lines there are.
#[derive(Clone, Copy, Debug)]
pub struct Survey {
    a: Seen,
    b: Seen,
    c: Seen,
    lines: u64,
    /// The last octet was an LF, or there was none.
    is_new: bool,
}

impl Survey {
    /// Nothing is seen yet.
    pub fn new() -> Survey {
        Survey {
            a: NOTHING,
            b: NOTHING,
            c: NOTHING,
            lines: 0,
            is_new: true,
        }
    }

    /// What looks wrong in the captures of which this task made a script.
    pub fn advice<'a>(&self, task: &'a ScriptTask<'a>) -> ScriptAdvice<'a> {
        ScriptAdvice {
            task,
            a: self.a,
            b: self.b,
            c: self.c,
        }
    }

    /// How many lines were written.
    pub fn lines(&self) -> u64 {
        self.lines
    }

    /// The capture that a line begins with the letter of.
    fn seen_mut(&mut self, line: &[u8]) -> Option<&mut Seen> {
        match line.first() {
            Some(b'A') => Some(&mut self.a),
            Some(b'B') => Some(&mut self.b),
            Some(b'C') => Some(&mut self.c),
            _ => None,
        }
    }

    /// Notes the line of a packet, from the letter of its inlet on.
    fn note_packet(&mut self, line: &[u8]) {
        let (time, digits) = number_in(line.get(2..).unwrap_or(&[]));
        if let Some(seen) = self.seen_mut(line) {
            seen.note(time, digits.strip_suffix(b"\n").unwrap_or(digits));
        }
    }

    /// Notes a comment, from the letter of its inlet on, if it counts the packets of a file.
    fn note_comment(&mut self, comment: &[u8]) {
        let (packets, rest) = next_number(comment);
        if !rest.starts_with(b"packets,") {
            return;
        }
        let (cut, rest) = next_number(rest);
        let (_long, rest) = next_number(rest);
        let (_empty, rest) = next_number(rest);
        let (back, _) = next_number(rest);
        if let Some(seen) = self.seen_mut(comment) {
            seen.packets = packets;
            seen.cut = cut;
            seen.back = back;
        }
    }

    /// Notes lines that are not of packets, or parts of them.
    fn note_others(&mut self, text: &[u8]) {
        let mut start = 0;
        for at in 0..text.len() {
            if text[at] == b'\n' {
                let line = text.get(start..at).unwrap_or(&[]);
                if let Some(comment) = line.strip_prefix(b"# ") {
                    self.note_comment(comment);
                }
                self.lines = self.lines.saturating_add(1);
                start = at + 1;
            }
        }
    }

    /// Notes what was written: the line of a packet, other lines, or a part of a line.
    pub fn note(&mut self, text: &[u8]) {
        match text.strip_prefix(b"in ") {
            Some(line) if self.is_new && text.ends_with(b"\n") => {
                self.note_packet(line);
                self.lines = self.lines.saturating_add(1);
            }
            _ => self.note_others(text),
        }
        self.is_new = text.ends_with(b"\n");
    }
}
