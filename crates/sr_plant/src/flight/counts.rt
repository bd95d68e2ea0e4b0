//! The counts of copies for each link.

ghost use Rattle.std.specs.Prelude.{◌≡◌, ◌<◌, ◌==◌, ℕ, true, length, slice_index_or};
ghost use Rattle.sr_plant.specs.Flights.{goes_over, IsOneMore};

use crate::hop::Hop;

// Counts one copy more on a link. A link that has no count is passed over.
fn raise(counts: &mut Vec<usize>, link: usize)
    requires { link < length counts.old.items
        → slice_index_or counts.old.items link 0 < 18446744073709551615 }
    ensures { IsOneMore (λ l. link == l) counts.old.items counts.new.items }
{
    if link < counts.len() {
        counts[link] += 1;
    }
}

// Counts one copy less on a link. A link that has no count is passed over.
fn lower(counts: &mut Vec<usize>, link: usize)
    requires { link < length counts.old.items → 0 < slice_index_or counts.old.items link 0 }
    ensures { IsOneMore (λ l. link == l) counts.new.items counts.old.items }
{
    if link < counts.len() {
        counts[link] -= 1;
    }
}

/// Counts one copy more on each link of a hop.
pub(crate) fn add_hop(counts: &mut Vec<usize>, hop: Hop)
    requires { (link : ℕ) → link < length counts.old.items
        → slice_index_or counts.old.items link 0 < 18446744073709551615 }
    ensures { IsOneMore (λ l. goes_over l hop) counts.old.items counts.new.items }
{
    raise(counts, hop.first);
    let Some(second) = hop.second else {
        return;
    };
    if second != hop.first {
        raise(counts, second);
    }
}

/// Counts one copy less on each link of a hop.
pub(crate) fn drop_hop(counts: &mut Vec<usize>, hop: Hop)
    requires { (link : ℕ) → link < length counts.old.items → goes_over link hop ≡ true
        → 0 < slice_index_or counts.old.items link 0 }
    ensures { IsOneMore (λ l. goes_over l hop) counts.new.items counts.old.items }
{
    lower(counts, hop.first);
    let Some(second) = hop.second else {
        return;
    };
    if second != hop.first {
        lower(counts, second);
    }
}
