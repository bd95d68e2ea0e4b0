//! Places of numbers, and what stands in a list at one.

ghost use Rattle.std.specs.Prelude.{◌≡◌, ◌++◌, ◌∷◌, [], slice_set, slice_index_or, OnOk};
ghost use Rattle.sr_audit.specs.Limits.{place_in};
ghost use Rattle.sr_audit.specs.Listings.{steps_before, steps_behind};

use crate::numbers::KEPT_NUMBERS;
use sr_frame::NoMemory;
use sr_sequence::Seq;
use std::alloc::AllocError;

/// The number that lies so many steps before another.
pub(crate) fn steps_before(seq: Seq, steps: u16) -> Seq
    ensures { result.0 ≡ steps_before seq.0 steps }
{
    Seq(seq.0.wrapping_sub(steps))
}

/// The number that lies so many steps behind another.
pub(crate) fn steps_behind(seq: Seq, steps: u16) -> Seq
    ensures { result.0 ≡ steps_behind seq.0 steps }
{
    Seq(seq.0.wrapping_add(steps))
}

/// Appends an item.
pub(crate) fn append<T: Copy>(list: &mut Vec<T>, item: T) -> Result<(), NoMemory>
    ensures { OnOk result (list.new.items ≡ list.old.items ++ item ∷ []) }
{
    match list.push(item) {
        Ok(()) => Ok(()),
        Err(refused) => Err(AllocError::from(refused).into()),
    }
}

/// The item at a place of a list, or another one where it has no such place.
pub(crate) fn item_at<T: Copy>(list: &[T], at: usize, other: T) -> T
    ensures { result ≡ slice_index_or list.now at other }
{
    match list.get(at) {
        Some(item) => *item,
        None => other,
    }
}

/// Writes an item at a place of a list, if it has that place.
pub(crate) fn put_at<T: Copy>(list: &mut Vec<T>, at: usize, item: T)
    ensures { list.new.items ≡ slice_set list.old.items at item }
{
    if let Some(place) = list.get_mut(at) {
        *place = item;
    }
}

/// The place of a number in the lists of a source.
pub(crate) fn place_of(seq: Seq) -> usize
    ensures { result ≡ place_in seq.0 }
{
    usize::from(seq.0 % KEPT_NUMBERS)
}
