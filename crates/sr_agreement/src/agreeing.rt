//! What came in at one end of a wire, beside what went in at the other.

ghost use Rattle.std.specs.Prelude.{◌≡◌, ◌≢◌, ◌≤◌, List, ℕ, MatchBool, MatchOption, Some, None, [], ◌∷◌, vec_capacity};
ghost use Rattle.sr_agreement.specs.Agreement.{Agreement, arrivals_in, is_from};
ghost use Rattle.sr_agreement.specs.Progress.{IsEncodingOf, HasNoEncoding, Progress};

use sr_forwarding::{Framing, Parcel, want_of_memory_is_no_fault_of_a_parcel};
use sr_frame::{MAX_FRAME_LEN, Mac};
use sr_node::{Answer, Event};

// Whether a parcel came from this source; from any, where there is none.
fn is_from(source: Option<Mac>, parcel: &Parcel) -> bool
    ensures { result ≡ is_from source parcel.now }
{
    match source {
        None => true,
        Some(mac) => parcel.header().src == mac,
    }
}

// The octets of the first frame from this source that arrived, and what was entered behind it.
fn next_arrival<'a>(
    source: Option<Mac>,
    log: &'a [(Event, Answer)],
) -> (Option<&'a [u8]>, &'a [(Event, Answer)])
    ensures { MatchOption result.0 (arrivals_in source log.now ≡ [])
        (λ octets. arrivals_in source log.now ≡ octets.now ∷ arrivals_in source result.1.now) }
{
    let mut rest = log;
    while let Some((pair, behind)) = rest.split_first() {
        rest = behind;
        if let Event::Arrive { parcel, .. } = &pair.0 {
            if is_from(source, parcel) {
                return (Some(parcel.octets()), rest);
            }
        }
    }
    (None, rest)
}

// Writes the encoding of what an answer hands out. False where there is none.
fn encoding<G: Framing>(framing: &G, answer: &Answer, buffer: &mut Vec<u8>) -> bool
    requires { MAX_FRAME_LEN ≤ vec_capacity buffer.old }
    ensures room { MAX_FRAME_LEN ≤ vec_capacity buffer.new }
    ensures encoding { MatchBool result
        (IsEncodingOf (G.meaning framing.now) answer.now buffer.new.items)
        (HasNoEncoding (G.meaning framing.now) answer.now) }
{
    let Answer::Taken(Some(parcel)) = answer else {
        return false;
    };
    want_of_memory_is_no_fault_of_a_parcel();
    buffer.clear();
    match framing.write(buffer, &parcel.view()) {
        Ok(()) => true,
        Err(_fault) => false,
    }
}

// What is left to be found once this answer was seen.
fn after<'a, G: Framing>(
    framing: &G,
    source: Option<Mac>,
    first: Option<&'a [u8]>,
    left: &'a [(Event, Answer)],
    answer: &Answer,
    buffer: &mut Vec<u8>,
) -> (Option<&'a [u8]>, &'a [(Event, Answer)])
    requires { MAX_FRAME_LEN ≤ vec_capacity buffer.old }
    ensures room { MAX_FRAME_LEN ≤ vec_capacity buffer.new }
    ensures after { (xs : List (List ℕ))
        → MatchOption first.entry (xs ≡ []) (λ o. xs ≡ o.now ∷ arrivals_in source left.entry.now)
        → (ys : List (List ℕ))
        × MatchOption result.0 (ys ≡ []) (λ o. ys ≡ o.now ∷ arrivals_in source result.1.now)
        × Progress (G.meaning framing.now) answer.now xs ys }
{
    if !encoding(framing, answer, buffer) {
        return (first, left);
    }
    match first {
        None => (None, left),
        Some(octets) => {
            if octets == buffer.as_slice() {
                next_arrival(source, left)
            } else {
                (first, left)
            }
        }
    }
}

/// Whether the frames from a source that arrived at one end are, in order, among the encodings of the parcels that were
/// taken at the other. The list has room for a frame, in which each parcel is written.
pub fn agree<G: Framing>(
    framing: &G,
    source: Option<Mac>,
    arrivals: &[(Event, Answer)],
    takes: &[(Event, Answer)],
    buffer: &mut Vec<u8>,
) -> bool
    requires { MAX_FRAME_LEN ≤ vec_capacity buffer.old }
    ensures room { MAX_FRAME_LEN ≤ vec_capacity buffer.new }
    ensures agreement { Agreement (G.meaning framing.now) source arrivals.now takes.now result }
{
    let (mut first, mut left) = next_arrival(source, arrivals);
    let mut rest = takes;
    while let Some((pair, behind)) = rest.split_first() {
        rest = behind;
        let (next, behind) = after(framing, source, first, left, &pair.1, buffer);
        first = next;
        left = behind;
    }
    match first {
        None => true,
        Some(_) => false,
    }
}
