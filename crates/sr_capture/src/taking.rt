//! Octets taken from a reader.

ghost use Rattle.std.specs.Prelude.{◌≡◌, ◌≢◌, ◌≤◌, ◌<◌, ◌+◌, [], ◌++◌, ◌^◌, ℕ, List, length, IfOk, IfErr, IfSome, IfNone, vec_len, vec_capacity, ◌⊎◌};
ghost use Rattle.sr_capture.specs.Taking.{Loses, LosesBelow, HasSome, SkipsSome, Skips, TakesAll, Fills, FillsBelow};

use crate::fault::Reason;
use std::io::BufRead;

/// Appends what the reader has at hand, at most so many octets. False where nothing is left. A list with room for so many takes no
/// memory.
fn keep_some<R: BufRead>(reader: &mut R, room: usize, kept: &mut Vec<u8>) -> Result<bool, Reason>
    requires { 0 < room }
    ensures kept { IfOk result (λ more. (bs : List ℕ) × (kept.new.items ≡ kept.old.items ++ bs)
        × Loses bs (R.remaining reader.old) (R.remaining reader.new)
        × HasSome more room (length bs) (R.remaining reader.old) (R.remaining reader.new)) }
    ensures fault { IfErr result (λ reason. (reason ≡ Reason.Read) ⊎ (reason ≡ Reason.NoMemory)) }
    ensures few { vec_len kept.new ≤ vec_len kept.old + room }
    ensures err { IfErr result (λ _. (kept.new.items ≡ kept.old.items)
        × Loses [] (R.remaining reader.old) (R.remaining reader.new)) }
    ensures room { vec_len kept.old + room ≤ vec_capacity kept.old
        → IfErr result (λ reason. reason ≡ Reason.Read) }
    ensures capacity { vec_capacity kept.old ≤ vec_capacity kept.new }
{
    let Ok(available) = reader.fill_buf() else {
        return Err(Reason::Read);
    };
    if available.is_empty() {
        return Ok(false);
    }
    let near = &available[..available.len().min(room)];
    kept.extend_from_slice(near)?;
    let taken = near.len();
    reader.consume(taken);
    Ok(true)
}

/// Takes octets behind those that `kept` holds, till it has so many. False where the input ends before. A list with room for so many
/// takes no memory.
///
/// # Errors
/// `Read` where the reader fails, `NoMemory`. What was taken till then is in `kept`.
pub fn fill<R: BufRead>(reader: &mut R, count: usize, kept: &mut Vec<u8>) -> Result<bool, Reason>
    requires { vec_len kept.old ≤ count }
    ensures taken { IfOk result (λ whole. Fills whole count kept.old.items kept.new.items
        (R.remaining reader.old) (R.remaining reader.new)) }
    ensures fault { IfErr result (λ reason. (reason ≡ Reason.Read) ⊎ (reason ≡ Reason.NoMemory)) }
    ensures few { vec_len kept.new ≤ count }
    ensures err { IfErr result (λ _. FillsBelow count kept.old.items kept.new.items
        (R.remaining reader.old) (R.remaining reader.new)) }
    ensures room { count ≤ vec_capacity kept.old → IfErr result (λ reason. reason ≡ Reason.Read) }
    ensures capacity { vec_capacity kept.old ≤ vec_capacity kept.new }
{
    while kept.len() < count {
        if !keep_some(reader, count - kept.len(), kept)? {
            return Ok(false);
        }
    }
    Ok(true)
}

/// Takes so many octets into `kept`, in place of what it held. False where the input ends before. A list with room for so many takes
/// no memory.
///
/// # Errors
/// `Read` where the reader fails, `NoMemory`. What was taken till then is in `kept`.
pub fn keep<R: BufRead>(reader: &mut R, count: usize, kept: &mut Vec<u8>) -> Result<bool, Reason>
    ensures taken { IfOk result (λ whole.
        TakesAll whole count kept.new.items (R.remaining reader.old) (R.remaining reader.new)) }
    ensures fault { IfErr result (λ reason. (reason ≡ Reason.Read) ⊎ (reason ≡ Reason.NoMemory)) }
    ensures few { vec_len kept.new ≤ count }
    ensures err { IfErr result (λ _.
        LosesBelow count kept.new.items (R.remaining reader.old) (R.remaining reader.new)) }
    ensures room { count ≤ vec_capacity kept.old → IfErr result (λ reason. reason ≡ Reason.Read) }
    ensures capacity { vec_capacity kept.old ≤ vec_capacity kept.new }
{
    kept.clear();
    fill(reader, count, kept)
}

/// Passes over what the reader has at hand, at most so many octets. None where the reader fails; 0 where nothing is left.
fn skip_some<R: BufRead>(reader: &mut R, room: u64) -> Option<u64>
    requires { 0 < room }
    ensures none { IfNone result (Loses [] (R.remaining reader.old) (R.remaining reader.new)) }
    ensures some { IfSome result (λ taken. (bs : List ℕ) × (length bs ≡ taken)
        × Loses bs (R.remaining reader.old) (R.remaining reader.new)
        × SkipsSome room taken (R.remaining reader.old) (R.remaining reader.new)) }
{
    let Ok(available) = reader.fill_buf() else {
        return None;
    };
    if available.is_empty() {
        return Some(0);
    }
    let near = &available[..available.len().min(room as usize)];
    let taken = near.len();
    reader.consume(taken);
    Some(taken as u64)
}

/// Passes over octets. How many: fewer than asked for where the input ends before.
///
/// # Errors
/// How many octets were passed over before the reader failed.
pub(crate) fn skip<R: BufRead>(reader: &mut R, count: u64) -> Result<u64, u64>
    ensures err { IfErr result (λ skipped. (bs : List ℕ) × (length bs ≡ skipped)
        × LosesBelow count bs (R.remaining reader.old) (R.remaining reader.new)) }
    ensures taken { IfOk result (λ skipped. (bs : List ℕ) × (length bs ≡ skipped)
        × Loses bs (R.remaining reader.old) (R.remaining reader.new)
        × Skips count skipped (R.remaining reader.old) (R.remaining reader.new)) }
{
    let mut skipped = 0;
    while skipped < count {
        match skip_some(reader, count - skipped) {
            None => return Err(skipped),
            Some(0) => return Ok(skipped),
            Some(more) => skipped += more,
        }
    }
    Ok(skipped)
}
