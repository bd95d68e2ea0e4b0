//! Going over the entries.
ghost use Rattle.std.specs.Prelude.{◌≡◌};
ghost use Rattle.std.specs.Iterator.{at_most};
ghost use Rattle.std.specs.Map.Iter.{TakesFirst};
ghost use Rattle.std.specs.Prelude.{length};
ghost use Rattle.sr_slots.specs.Calls.{shown_entry};

use crate::places::Slot;
use crate::ranked::Ranked;
use indexmap::map;
use sr_frame::Mac;
use std::marker::Model;

/// The addresses and their values that are left, in order.
#[derive(Drop)]
pub struct Iter<'a, V: Drop + Ranked> {
    pub(crate) places: map::Iter<'a, Mac, Slot<V>>,
}

impl<'a, V: Drop + Ranked> Model for Iter<'a, V> {
    ghost use Rattle.std.specs.Prelude.{List};
    ghost use Rattle.sr_frame.specs.declared.fields.Mac.{Mac};

    ghost Value = { List (Mac × V) };

    ghost use Rattle.sr_slots.specs.Places.{entries_of};

    ghost view = { λ it. entries_of it.places };
}

impl<'a, V: Drop + Ranked> Iterator for Iter<'a, V> {
    type Item = (Mac, &'a V);

    ghost next_gives = { TakesFirst shown_entry };

    ghost remaining = { λ rest. at_most (length rest) };

    fn next(&mut self) -> Option<(Mac, &'a V)> {
        while let Some((key, slot)) = self.places.next() {
            if let Some(value) = slot.value.get() {
                return Some((*key, value));
            }
        }
        None
    }
}
