//! Laws over nodes that took over what others had noted.

ghost use Rattle.sr_laws_node.specs.HistoryLaws.{GoesWhereNew, HoldsBackBoth};

use sr_laws_dup_joins::{answers_by_the_union, tables_stand};

/// Along every history of turns and takings-over, of nodes that began new or were resumed with a table, whose numbers are steady, an
/// arrival with a number goes to exactly those outlets that want it on whose lane no copy of it was noted in its source's epoch: by this
/// node, or by one whose notes it took over. What stood in a table with which a node was resumed counts as noted.
///
/// Of numbers it asks what `sr_laws_dup_joins` asks of trees; that no time goes back is the node's own doing.
pub fn a_frame_goes_where_no_copy_was_noted()
    ensures { GoesWhereNew }
{
    answers_by_the_union();
}

/// Where one node took over from another, each copy of a frame that comes in later goes to no outlet on whose lane either of the two had
/// noted one in its source's epoch, until the source is forgotten: whatever else came in between, further takings-over among it, as long as
/// the source was remembered at each of its arrivals and each taking-over since. Both nodes may have begun new, or been resumed with a table.
pub fn what_either_noted_is_held_back()
    ensures { HoldsBackBoth }
{
    answers_by_the_union();
    tables_stand();
}
