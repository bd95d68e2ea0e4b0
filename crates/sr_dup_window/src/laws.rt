//! Laws on records, and on every tree of begins, notes and merges.
ghost use Rattle.sr_dup_window.specs.Records.{WindowsAreWhole, WindowsTell, EachStands, StandsByHas, EqualWhereOneServes, MergeCommutes, MergeIsIdempotent, MergeAssociates};
ghost use Rattle.sr_dup_window.specs.Trees.{TreesStand, AnswersByTheUnion, TreesAgree};

/// A record stands for the cut of the union of all that its parts took, along any steady tree of begins, notes and merges.
pub fn trees_stand<const N: usize>()
    ensures { TreesStand N }
{}

/// Along a steady tree a number is new on just the asked lanes on which the union of all that came before, never cut, lacks it.
pub fn answers_by_the_union<const N: usize>()
    ensures { AnswersByTheUnion N }
{}

/// Records that took the same numbers on the same lanes, in any orders and steady trees, are equal values.
pub fn trees_agree<const N: usize>()
    ensures { TreesAgree N }
{}

/// Every record shows `64 * N` numbers, the newest by its 16 bits and noted on some lane.
pub fn windows_are_whole<const N: usize>()
    ensures { WindowsAreWhole N }
{}

/// Records that show the same are equal values.
pub fn windows_tell<const N: usize>()
    ensures { WindowsTell N }
{}

/// Every record stands for some family.
pub fn each_stands<const N: usize>()
    ensures { EachStands N }
{}

/// A record stands for a family exactly where its reference is the family's greatest number modulo 65536 and `has` is true,
/// of the `64 * N` numbers up to that, exactly on the lanes that have the number.
pub fn stands_by_has<const N: usize>()
    ensures { StandsByHas N }
{}

/// A record is equal to another exactly where one family serves both.
pub fn equal_where_one_serves<const N: usize>()
    ensures { EqualWhereOneServes N }
{}

/// Merging in either order gives one record, where it is not refused.
pub fn merge_commutes<const N: usize>()
    ensures { MergeCommutes N }
{}

/// Merging a record with itself leaves it.
pub fn merge_is_idempotent<const N: usize>()
    ensures { MergeIsIdempotent N }
{}

/// Merging in either grouping gives one record, where the three greatest numbers are at most 32767 apart, pair by pair.
pub fn merge_associates<const N: usize>()
    ensures { MergeAssociates N }
{}
