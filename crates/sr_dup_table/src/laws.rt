//! What holds of every table and every run of arrivals.
ghost use Rattle.std.specs.Prelude.{◌≡◌, ◌↔◌, true};
ghost use Rattle.sr_dup_table.specs.Ageing.{AgeingKeepsAnswers};
ghost use Rattle.sr_dup_table.specs.Sources.{Sources, same_sources};

/// Ageing changes no answer to what arrives from that time on, in the order of the times: a table that has aged answers as one
/// that has not.
pub fn ageing_keeps_answers()
    ensures { AgeingKeepsAnswers }
{}

/// Tables are equal exactly where they have the same sources in the same order, each with the same record and time. This is
/// what `==` tests.
pub fn equal_where_the_sources_are()
    ensures { (s t : Sources) → (same_sources s t ≡ true) ↔ (s ≡ t) }
{}
