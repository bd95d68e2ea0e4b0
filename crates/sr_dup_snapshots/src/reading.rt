//! Reading snapshots: one pass looks at the octets, and one builds the table.
ghost use Rattle.std.specs.Prelude.{◌≡◌, ◌<◌, ◌≤◌, ◌^◌, ◌+◌, ◌*◌, ◌++◌, ◌∷◌, ◌⊎◌, ℕ, List, [], true, false, None, length, take, is_some};
ghost use Rattle.std.specs.Prelude.{IfOk, IfErr, OnOk, IfSome, IfNone, IsNone, IsErrOf, ◌↔◌};
ghost use Rattle.std.specs.Int.{w16, to_be_bytes};
ghost use Rattle.std.specs.Map.{lookup};
ghost use Rattle.sr_frame.specs.Addresses.{mac_eq};
ghost use Rattle.sr_dup_window.specs.LaneSets.{is_empty, none};
ghost use Rattle.sr_dup_window.specs.Windows.{window_of};
ghost use Rattle.sr_dup_table.specs.Limits.{most_sources};
ghost use Rattle.sr_dup_table.specs.Widths.{numbers_in};
ghost use Rattle.sr_dup_table.specs.Sources.{Remembered, Sources};
ghost use Rattle.sr_dup_snapshots.specs.Snapshots.{head, source_len, IsSnapshot};
ghost use Rattle.sr_dup_snapshots.specs.Reading.{time_in, reference_in, lanes_in, source_in, sources_in, is_after, follows, are_in_order, source_cut, recut, IsText, IsReadAs};

use crate::fields::{NARROW_HEAD, WIDE_HEAD, source_len};
use crate::record::{lanes_noted, read_record};
use sr_dup_table::{DupFault, DupTable, MAX_SOURCES, TableOf, Width};
use sr_dup_window::Record;
use sr_frame::{Mac, NoMemory};
use sr_sequence::Seq;
use std::alloc::Global;

// The octets of so many sources that are spelled at a width.
#[derive(Clone, Copy)]
struct Text<'a> {
    width: Width,
    count: usize,
    sources: &'a [u8],
}

// The fields of a source.
#[derive(Clone, Copy)]
struct Fields<'a> {
    src: Mac,
    time: u64,
    reference: Seq,
    lanes: &'a [u8],
}

// The width of the table whose snapshots begin so, and what stands behind the version.
fn width_front(octets: &[u8]) -> Option<(Width, &[u8])>
    ensures head { IfSome result (λ r. octets.now ≡ head (numbers_in r.0) ++ r.1.now) }
    ensures none { IfNone result ((width : Width) (rest : List ℕ)
        → octets.now ≡ head (numbers_in width) ++ rest → ⊥) }
{
    if let Some(rest) = octets.strip_prefix(NARROW_HEAD.as_slice()) {
        return Some((Width::Narrow, rest));
    }
    let rest = octets.strip_prefix(WIDE_HEAD.as_slice())?;
    Some((Width::Wide, rest))
}

// The big-endian number at the front, and what follows it.
fn number_front(octets: &[u8]) -> Option<(u16, &[u8])>
    ensures short { IsNone result ↔ (length octets.now < 2) }
    ensures front { IfSome result (λ r. octets.now ≡ to_be_bytes w16 r.0 ++ r.1.now) }
    ensures fits { IfSome result (λ r. r.0 < 2 ^ 16) }
{
    let (front, rest) = octets.split_first_chunk::<2>()?;
    Some((u16::from_be_bytes(*front), rest))
}

// The number of sources and their octets, where head, version, number and length are right.
fn sources_of(octets: &[u8]) -> Option<Text<'_>>
    ensures text { IfSome result (λ t.
        IsText (numbers_in t.width) octets.now t.count t.sources.now) }
    ensures none { IfNone result ((width : Width) (s : Sources)
        → IsSnapshot (numbers_in width) octets.now s → ⊥) }
{
    let (width, rest) = width_front(octets)?;
    let (count, sources) = number_front(rest)?;
    let count = usize::from(count);
    if count <= MAX_SOURCES && sources.len() == source_len(width) * count {
        Some(Text {
            width,
            count,
            sources,
        })
    } else {
        None
    }
}

// The fields of a source, which are 16 octets before its lanes.
fn fields_of(source: &[u8]) -> Option<Fields<'_>>
    ensures short { IsNone result ↔ (length source.now < 16) }
    ensures src { IfSome result (λ f. f.src ≡ record { 0 = take 6 source.now }) }
    ensures time { IfSome result (λ f. f.time ≡ time_in source.now) }
    ensures reference { IfSome result (λ f. f.reference.0 ≡ reference_in source.now) }
    ensures lanes { IfSome result (λ f. f.lanes.now ≡ lanes_in source.now) }
    ensures rest { IfSome result (λ f. length f.lanes.now + 16 ≡ length source.now) }
{
    let (src, behind) = source.split_first_chunk::<6>()?;
    let (time, behind) = behind.split_first_chunk::<8>()?;
    let (reference, lanes) = behind.split_first_chunk::<2>()?;
    Some(Fields {
        src: Mac(*src),
        time: u64::from_be_bytes(*time),
        reference: Seq(u16::from_be_bytes(*reference)),
        lanes,
    })
}

// Whether an address comes after the last one.
fn is_after(last: Option<Mac>, src: Mac) -> bool
    ensures { result ≡ is_after last src }
{
    match last {
        None => true,
        Some(last) => last.cmp(&src).is_lt(),
    }
}

// The address of a source that can follow the last one: it comes after that, and has its greatest number on some lane.
fn follower(width: Width, last: Option<Mac>, source: &[u8]) -> Option<Mac>
    requires { length source.now ≡ source_len (numbers_in width) }
    ensures some { IfSome result (λ src. src ≡ (source_in (numbers_in width) source.now).0) }
    ensures follows { is_some result ≡ follows last (source_in (numbers_in width) source.now) }
{
    let fields = fields_of(source)?;
    if is_after(last, fields.src) && !lanes_noted(width, fields.lanes, 0).is_empty() {
        Some(fields.src)
    } else {
        None
    }
}

// Whether each of the sources can follow the one before.
fn are_in_order(text: Text<'_>) -> bool
    requires { length text.sources.now ≡ source_len (numbers_in text.width) * text.count }
    ensures { result ≡ are_in_order None
        (sources_in (numbers_in text.entry.width) text.entry.count text.entry.sources.now) }
{
    let len = source_len(text.width);
    let mut last = None;
    let mut rest = text.sources;
    for place in 0..text.count {
        let (source, behind) = rest.split_at(len);
        let Some(src) = follower(text.width, last, source) else {
            return false;
        };
        last = Some(src);
        rest = behind;
    }
    true
}

// The sources that octets spell, if they are the snapshot of a table.
fn text_of(octets: &[u8]) -> Option<Text<'_>>
    ensures text { IfSome result (λ t.
        IsText (numbers_in t.width) octets.now t.count t.sources.now) }
    ensures order { IfSome result (λ t.
        are_in_order None (sources_in (numbers_in t.width) t.count t.sources.now) ≡ true) }
    ensures none { IfNone result ((width : Width) (s : Sources)
        → IsSnapshot (numbers_in width) octets.now s → ⊥) }
{
    let text = sources_of(octets)?;
    if are_in_order(text) { Some(text) } else { None }
}

// Adds a source to those before it, with those of its numbers that the table remembers.
fn add<const N: usize>(table: &mut TableOf<N>, width: Width, source: &[u8]) -> Result<(), NoMemory>
    requires record { (N ≡ 16) ⊎ (N ≡ 32) }
    requires size { length source.now ≡ source_len (numbers_in width) }
    requires some { follows None (source_in (numbers_in width) source.now) ≡ true }
    requires room { length table.old.sources < most_sources }
    requires absent { lookup (mac_eq (source_in (numbers_in width) source.now).0)
        table.old.sources ≡ None }
    ensures added { OnOk result (table.new.sources ≡ table.old.sources
        ++ source_cut (64 * N) (source_in (numbers_in width) source.now) ∷ []) }
{
    let Some(fields) = fields_of(source) else {
        unreachable!()
    };
    let seen = read_record::<N>(width, fields.reference, fields.lanes);
    table.put_last(fields.src, seen, fields.time)
}

// The table of these sources, at a width of its own.
fn built<const N: usize>(alloc: Global, text: Text<'_>) -> Result<TableOf<N>, NoMemory>
    requires record { (N ≡ 16) ⊎ (N ≡ 32) }
    requires size { length text.sources.now ≡ source_len (numbers_in text.width) * text.count }
    requires few { text.count ≤ most_sources }
    requires order { are_in_order None
        (sources_in (numbers_in text.width) text.count text.sources.now) ≡ true }
    ensures sources { IfOk result (λ table. table.sources ≡ recut (64 * N)
        (sources_in (numbers_in text.entry.width) text.entry.count text.entry.sources.now)) }
    ensures held { IfOk result (λ table. table.held ≡ []) }
{
    let len = source_len(text.width);
    let mut table = TableOf::<N>::new(alloc);
    table.make_room(text.count)?;
    let mut rest = text.sources;
    for place in 0..text.count {
        let (source, behind) = rest.split_at(len);
        add::<N>(&mut table, text.width, source)?;
        rest = behind;
    }
    table.release();
    Ok(table)
}

// The table of this width that a snapshot of either width spells. No more memory is asked for than sources stand in the octets: the places
// of all at once, and then for each its record, which has memory of its own, so that what goes moves no record.
pub(crate) fn read_snapshot(
    alloc: Global,
    octets: &[u8],
    width: Width,
) -> Result<DupTable, DupFault>
    ensures found { IfOk result (λ table. IsReadAs (numbers_in width) octets.now table.sources) }
    ensures width { IfOk result (λ table. table.width ≡ numbers_in width) }
    ensures held { IfOk result (λ table. table.held ≡ []) }
    ensures exact { IsErrOf result DupFault.BadSnapshot ↔ ((written : Width) (s : Sources)
        → IsSnapshot (numbers_in written) octets.now s → ⊥) }
    ensures refused { IfErr result (λ e. (e ≡ DupFault.NoMemory) ⊎ (e ≡ DupFault.BadSnapshot)) }
{
    let Some(text) = text_of(octets) else {
        return Err(DupFault::BadSnapshot);
    };
    match width {
        Width::Narrow => Ok(DupTable::from(built::<16>(alloc, text)?)),
        Width::Wide => Ok(DupTable::from(built::<32>(alloc, text)?)),
    }
}
