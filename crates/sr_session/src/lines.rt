//! Lines of a reader.

ghost use Rattle.std.specs.Prelude.{◌≡◌, ◌≢◌, ◌≤◌, ◌<◌, ◌+◌, ◌++◌, ◌∷◌, [], length, take, IfOk, IfErr, OnOk, OnErr, IfSome, MatchOption, vec_len, vec_capacity, true, false, Err};
ghost use Rattle.std.specs.Io.KnownBytes.{IsAtEnd, Keeps};
ghost use Rattle.sr_session.specs.Lines.{TakesLine, TakesPart, BeginsLong, TakesPiece, IsOneOf};
ghost use Rattle.sr_session.specs.Octets.{IsPlaceOf};

use crate::fault::FaultKind;
use memchr::memchr;
use std::alloc::AllocError;
use std::io::BufRead;

/// The most octets of a line, without the LF that ends it (choice of this project).
pub const MAX_LINE: usize = 8000;

/// What ends the octets that were taken of a line.
#[derive(Clone, Copy)]
pub(crate) enum Piece {
    /// Nothing yet: the line goes on.
    Part,
    /// The LF of the line.
    Last,
    /// The end of the input.
    End,
}

/// The place of the first octet of this value.
pub(crate) fn place_of(octet: u8, octets: &[u8]) -> Option<usize>
    ensures { IsPlaceOf octet octets.now result }
{
    memchr(octet, octets)
}

/// Takes what the reader has at hand of a line, but no more than makes the line one octet too long.
fn take_piece<R: BufRead>(reader: &mut R, line: &mut Vec<u8>) -> Result<Piece, FaultKind>
    requires short { vec_len line.old ≤ 8000 }
    requires room { 8001 ≤ vec_capacity line.old }
    ensures taken { IfOk result (λ piece. TakesPiece piece line.old.items line.new.items
        (R.remaining reader.old) (R.remaining reader.new)) }
    ensures fault { IfErr result (λ kind. kind ≡ FaultKind.Read) }
    ensures untaken { OnErr result (Keeps (R.remaining reader.old) (R.remaining reader.new)) }
    ensures room { vec_capacity line.old ≤ vec_capacity line.new }
{
    let room = MAX_LINE + 1 - line.len();
    let Ok(available) = reader.fill_buf() else {
        return Err(FaultKind::Read);
    };
    if available.is_empty() {
        return Ok(Piece::End);
    }
    let near = &available[..available.len().min(room)];
    match place_of(b'\n', near) {
        Some(at) => {
            line.extend_from_slice(&near[..at]).unwrap();
            reader.consume(at + 1);
            Ok(Piece::Last)
        }
        None => {
            line.extend_from_slice(near).unwrap();
            let taken = near.len();
            reader.consume(taken);
            Ok(Piece::Part)
        }
    }
}

/// Reads a line into `line`, which has room for it, without the LF that ends it. False at the end of the input.
///
/// # Errors
/// `Long` for a line of more than 8000 octets, of which 8001 are taken and are then in `line`; `Read` where the reader fails.
pub(crate) fn next_line<R: BufRead>(reader: &mut R, line: &mut Vec<u8>) -> Result<bool, FaultKind>
    requires { 8001 ≤ vec_capacity line.old }
    ensures taken { IfOk result (λ more.
        TakesLine more line.new.items (R.remaining reader.old) (R.remaining reader.new)) }
    ensures short { IfOk result (λ _. length line.new.items ≤ 8000) }
    ensures long { result ≡ Err FaultKind.Long
        → IfSome (R.remaining reader.old) (BeginsLong line.new.items) }
    ensures read { result ≡ Err FaultKind.Read
        → TakesPart (R.remaining reader.old) (R.remaining reader.new) }
    ensures fault { IfErr result (λ kind. IsOneOf kind (FaultKind.Long ∷ FaultKind.Read ∷ [])) }
    ensures room { vec_capacity line.old ≤ vec_capacity line.new }
{
    line.clear();
    while line.len() <= MAX_LINE {
        match take_piece(reader, line)? {
            Piece::Part => {}
            Piece::Last => return Ok(true),
            Piece::End => return Ok(!line.is_empty()),
        }
    }
    Err(FaultKind::Long)
}

/// Whether the reader has nothing left.
///
/// # Errors
/// `Read` where the reader fails.
pub(crate) fn is_at_end<R: BufRead>(reader: &mut R) -> Result<bool, FaultKind>
    ensures ended { result ≡ Ok true → IsAtEnd (R.remaining reader.old) }
    ensures more { result ≡ Ok false → IfSome (R.remaining reader.old) (λ octets. octets ≢ []) }
    ensures fault { IfErr result (λ kind. kind ≡ FaultKind.Read) }
    ensures untaken { OnErr result (Keeps (R.remaining reader.old) (R.remaining reader.new)) }
{
    match reader.fill_buf() {
        Ok(available) => Ok(available.is_empty()),
        Err(_) => Err(FaultKind::Read),
    }
}

/// Makes room for the longest line in a list. An error: the allocation failed.
pub(crate) fn make_room(line: &mut Vec<u8>) -> Result<(), AllocError>
    ensures { OnOk result (8001 ≤ vec_capacity line.new) }
{
    line.reserve(MAX_LINE + 1)
}
