//! What holds of every table, and of every run of hearings and prunes.
ghost use Rattle.std.specs.Prelude.{◌≡◌, ◌↔◌, true};
ghost use Rattle.sr_node_table.specs.Equality.{same_table};
ghost use Rattle.sr_node_table.specs.Hearings.{StatusIsOfHearings, HasIsOfHearings};
ghost use Rattle.sr_node_table.specs.Nodes.{Table};

/// After any hearings and prunes, in the order of their times, the status of an address is what its hearings since its last
/// silence say: per port the latest time and the last number, and the last announcement. It is there exactly where some hearing is
/// less than 60000 ms old.
pub fn status_is_of_hearings()
    ensures status { StatusIsOfHearings }
    ensures has { HasIsOfHearings }
{}

/// Tables are equal exactly where they have the same entries in the same order, the same alarms, and where the previous prune found
/// the same ports late. This is what `==` tests.
pub fn equal_where_the_tables_are()
    ensures { (s t : Table) → (same_table s t ≡ true) ↔ (s ≡ t) }
{}
