//! The clocks of two recorders, told by the frames that both of them saw.

ghost use Rattle.std.specs.Prelude.{◌≡◌, ◌+◌, ◌≤◌, ◌<◌, ◌*◌, ◌^◌, IfOk, IfSome, IfNone};
ghost use Rattle.sr_capture_audit.specs.Clocking.{ahead_told, AreClocksTold, ArePutOff, IsPutOffTooFar, put_off};

use crate::kind::read_at;
use crate::network::{Network, Tap};
use crate::rows::{Format, Value, count, named, print_row};
use sr_audit::{Side, Span};
use sr_capture::{Extent, Packet};
use sr_capture_script::{
    Captures, Choice, Delays, MAX_DELAY, Pass, Place, ScriptFault, pass_over, start_of,
};
use sr_clocks::{Clocks, Line, Sighting, Sightings, clocks_of, pairs_of};
use sr_frame::{FrameView, Mac};
use sr_sequence::Seq;
use std::alloc::Global;
use std::io::{BufRead, Write};

/// All packets of a capture.
const ALL: Choice = Choice {
    from: 0,
    to: None,
    tick: None,
};

/// An odd number by which words are mixed.
const MIXER: u64 = 0x9E37_79B9_7F4A_7C15;

/// How many ranks there are.
const RANKS: u64 = 1024;

/// An odd number by which they are mixed.
const RANK_STEP: u64 = 677;

/// The numbers of sources that share one of 64 rows of bins.
const ROWS_APART: u64 = 0x400_0000_0000_0000;

/// How many keys a rank has: a key is its rank, times so many, and a sum.
const KEYS_OF_A_RANK: u64 = 0x40_0000_0000_0000;

/// What one recorder saw.
#[derive(Drop)]
struct Recording {
    network: Network,
    tap: Tap,
    /// The time of the first packet: that from which times are counted.
    start: u64,
    sightings: Sightings,
    /// The times of the first and the last packet.
    span: Option<Span>,
}

/// A sum with one word more.
fn mixed(sum: u64, word: u64) -> u64 {
    (sum ^ word).wrapping_mul(MIXER).rotate_left(29)
}

/// A sum of octets, eight at a time.
fn sum_of(octets: &[u8]) -> u64 {
    let mut sum = MIXER;
    let mut rest = octets;
    while let Some((front, behind)) = rest.split_first_chunk::<8>() {
        sum = mixed(sum, u64::from_le_bytes(*front));
        rest = behind;
    }
    for octet in rest {
        sum = mixed(sum, u64::from(*octet));
    }
    sum
}

/// A number for a source.
fn number_of(src: Mac) -> u64 {
    let [a, b, c, d, e, f] = src.0;
    // Twice, so that each octet of the address tells in each bit.
    let once = mixed(MIXER, u64::from_le_bytes([a, b, c, d, e, f, 0, 0]));
    mixed(once, MIXER)
}

/// The bin of a frame: 64 for each of 64 groups of sources, by the number that its source gave it.
fn bin_of(source: u64, seq: Seq) -> u16 {
    let row = (source / ROWS_APART) as u16;
    row * 64 + seq.0 % 64
}

/// Where the numbers of a source that share a bin stand among them: no order of time, so that what a bin keeps is of any time.
fn rank_of(source: u64, seq: Seq) -> u64
    ensures { result < 1024 }
{
    let block = u64::from(seq.0 / 64);
    (block * RANK_STEP + source % RANKS) % RANKS
}

/// The least key of a rank.
fn least_key(rank: u64) -> u64
    requires { rank < 1024 }
    ensures { result ≤ 1023 * 2 ^ 54 }
{
    rank * KEYS_OF_A_RANK
}

/// The key of a frame: its rank, then a sum of its source, type and payload.
fn key_of(rank: u64, source: u64, frame: &FrameView<'_>) -> u64
    requires { rank < 1024 }
{
    let front = mixed(source, u64::from(frame.ethertype));
    let sum = mixed(sum_of(frame.payload), front);
    least_key(rank) + sum % KEYS_OF_A_RANK
}

impl Recording {
    /// Takes a frame with a number, whose sum is asked for only where it may be kept.
    fn see(&mut self, octets: &[u8], time: u64) {
        let Ok(parcel) = read_at(self.network, self.tap, octets) else {
            return;
        };
        let Some(seq) = parcel.seq() else {
            return;
        };
        let frame = parcel.plain();
        // In a ring a frame to a single address goes past one recorder alone.
        if self.network == Network::Hsr && !frame.dst.is_group() {
            return;
        }
        let source = number_of(frame.src);
        let bin = bin_of(source, seq);
        let rank = rank_of(source, seq);
        if self.sightings.may_change(bin, least_key(rank)) {
            let key = key_of(rank, source, &frame);
            self.sightings.note(Sighting { bin, key, time });
        }
    }
}

impl Pass for Recording {
    // No clause tells what it keeps: that is tested.
    ghost takes = { λ _ _ _. Unit {0} };

    // It takes each packet.
    ghost refuses = { λ _. ⊥ };

    fn take(&mut self, place: Place, packet: &Packet) -> Result<(), ScriptFault> {
        let time = self.start.saturating_add(place.time);
        self.span = Span::lengthened(self.span, time);
        if packet.extent != Extent::Cut {
            self.see(packet.octets.as_slice(), time);
        }
        Ok(())
    }
}

/// What the recorder of a capture saw. It alone is open.
fn recording_of<R: BufRead + Drop>(
    alloc: Global,
    captures: &mut Captures<R>,
    network: Network,
    side: Side,
) -> Result<Recording, ScriptFault> {
    let mut recording = Recording {
        network,
        tap: Tap::Side(side),
        start: start_of(captures.front()),
        sightings: Sightings::new(alloc)?,
        span: None,
    };
    pass_over(captures, &ALL, &mut recording)?;
    Ok(recording)
}

/// The middle of a recording. 0: it has no packet.
fn middle_of(span: Option<Span>) -> u64 {
    match span {
        Some(span) => span.first / 2 + span.last / 2,
        None => 0,
    }
}

/// How far a clock is ahead at a time of its own by what is told of it: nothing, where no line is.
fn ahead_of(clocks: Clocks, time: u64) -> i128
    ensures { result ≡ ahead_told clocks time }
{
    match clocks {
        Clocks::One(line, _) => line.ahead_at(time),
        Clocks::Unknown | Clocks::Two(_, _) => 0,
    }
}

/// What two captures, each opened alone, tell of the clocks of their recorders, and how far that of B is ahead in the middle of its
/// recording, in nanoseconds.
///
/// # Errors
/// The fault of a file, `NoMemory` or `Endless`.
pub fn clocks_between<R: BufRead + Drop>(
    alloc: Global,
    network: Network,
    capture_a: &mut Captures<R>,
    capture_b: &mut Captures<R>,
) -> Result<(Clocks, i128), ScriptFault>
    // The answer is what some frames tell: that these are those which both recorders saw is tested.
    ensures { IfOk result (λ told. AreClocksTold told.0 told.1) }
{
    let a = recording_of(alloc, capture_a, network, Side::A)?;
    let b = recording_of(alloc, capture_b, network, Side::B)?;
    let pairs = pairs_of(alloc, &a.sightings, &b.sightings)?;
    let clocks = clocks_of(alloc, &pairs)?;
    Ok((clocks, ahead_of(clocks, middle_of(b.span))))
}

/// A delay that is longer by so many nanoseconds. None: it is too long.
fn put_off_by(delay: u64, more: u128) -> Option<u64>
    requires { more ≤ 2 ^ 127 }
    ensures sum { IfSome result (λ own. own ≡ delay + more) }
    ensures small { IfSome result (λ own. own ≤ 2 ^ 62) }
    ensures none { IfNone result (2 ^ 62 < delay + more) }
{
    let sum = u128::from(delay) + more;
    if u128::from(MAX_DELAY) < sum {
        return None;
    }
    Some(sum as u64)
}

/// The delays by which the times of a clock that is so far ahead are those of the other one: those of A are put off, or those of B
/// where it is behind. None: one would be more than 2^62 nanoseconds.
pub fn delays_by(delays: Delays, ahead: i128) -> Option<Delays>
    ensures some { IfSome result (λ own. ArePutOff delays ahead own) }
    ensures near { IfSome result (λ own. put_off own ahead ≤ 2 ^ 62) }
    ensures none { IfNone result (IsPutOffTooFar delays ahead) }
{
    let more = ahead.unsigned_abs();
    let Delays { a, b, c } = delays;
    if ahead < 0 {
        let b = put_off_by(b, more)?;
        Some(Delays { a, b, c })
    } else {
        let a = put_off_by(a, more)?;
        Some(Delays { a, b, c })
    }
}

/// Prints how far the clock of B is ahead, how fast it drifts and how many frames tell of it. A table has no place for it.
///
/// # Errors
/// `Write` where the writer fails.
pub fn print_clocks<W: Write>(
    writer: &mut W,
    format: Format,
    line: Line,
    ahead: i128,
    pairs: usize,
) -> Result<(), ScriptFault> {
    if format == Format::Csv {
        return Ok(());
    }
    // A thousandth of a ppm is shown as a nanosecond is, of a microsecond.
    let drift = Value::Skew(Some(i128::from(line.drift)));
    print_row(
        writer,
        format,
        "clocks",
        &[
            named("b_ahead_us", "b_ahead_us", Value::Skew(Some(ahead))),
            named("drift_ppm", "drift_ppm", drift),
            count("pairs", pairs as u64),
        ],
    )
}
