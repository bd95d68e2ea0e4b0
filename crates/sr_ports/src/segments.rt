//! What workers wrote down is compared with a history in segments.

ghost use Rattle.std.specs.Prelude.{◌≡◌, ◌↔◌, IsTrue, IfSome, IfNone};
ghost use Rattle.sr_node.specs.NodeImages.{image_state, items_of};
ghost use Rattle.sr_ports.specs.Settling.{Follows, AreWhole, IsTorn, IsSettlementOfAll};

use crate::rests::Rests;
use crate::{Log, Segment, Settlement};
use sr_dup_table::equal_where_the_sources_are;
use sr_forwarding::Parcel;
use sr_frame::Mac;
use sr_node::NodeImage;
use sr_node_table::equal_where_the_tables_are;

/// `Torn` exactly where a segment does not follow the one before, and names the first; else as `settle` of the entries of all
/// segments.
pub fn settle_all(segments: &[Segment], logs: &[Log]) -> Settlement
    ensures { IsSettlementOfAll segments.now logs.now result }
{
    if let Some(at) = torn(segments) {
        return Settlement::Torn(at);
    }
    let mut rests = Rests::of(logs);
    let mut segments_left = segments;
    while let Some((segment, behind)) = segments_left.split_first() {
        segments_left = behind;
        rests.walk(segment.entries.as_slice());
    }
    rests.settlement()
}

// The first segment that does not follow the one before.
fn torn(segments: &[Segment]) -> Option<usize>
    ensures some { IfSome result (λ i. IsTorn segments.now i) }
    ensures none { IfNone result (AreWhole segments.now) }
{
    for i in 1..segments.len() {
        let before = &segments[i - 1];
        let next = &segments[i];
        if !follows(&before.closing, &next.opening) {
            return Some(i);
        }
    }
    None
}

// Whether an opening follows a closing: all is the same but the role, and its address is.
fn follows(closing: &NodeImage, opening: &NodeImage) -> bool
    ensures { IsTrue result ↔ (Follows (image_state closing.now) (image_state opening.now)) }
{
    if !is_mac_same(opening.role.mac, closing.role.mac) {
        return false;
    }
    if !are_numbers_same(opening, closing) {
        return false;
    }
    if !are_sources_same(opening, closing) {
        return false;
    }
    if !are_nodes_same(opening, closing) {
        return false;
    }
    are_outboxes_same(opening, closing)
}

fn is_mac_same(one: Mac, other: Mac) -> bool
    ensures { IsTrue result ↔ (one ≡ other) }
{
    one == other
}

// Whether mode, times, numbers and counts are the same.
fn are_numbers_same(one: &NodeImage, other: &NodeImage) -> bool
    ensures { IsTrue result ↔ ((one.now.mode ≡ other.now.mode)
        × (one.now.time ≡ other.now.time)
        × (one.now.next ≡ other.now.next)
        × (one.now.next_life ≡ other.now.next_life)
        × (one.now.life_at ≡ other.now.life_at)
        × (one.now.wrong_lan ≡ other.now.wrong_lan)) }
{
    one.mode == other.mode
        && one.time == other.time
        && one.next == other.next
        && one.next_life == other.next_life
        && one.life_at == other.life_at
        && one.wrong_lan == other.wrong_lan
}

// Whether the widths are the same, and what is noted of sources.
fn are_sources_same(one: &NodeImage, other: &NodeImage) -> bool
    ensures { IsTrue result ↔ ((one.now.sources.width ≡ other.now.sources.width)
        × (one.now.sources.sources ≡ other.now.sources.sources)) }
{
    equal_where_the_sources_are();
    one.sources == other.sources
}

// Whether the same is known of nodes.
fn are_nodes_same(one: &NodeImage, other: &NodeImage) -> bool
    ensures { IsTrue result ↔ (one.now.nodes.table ≡ other.now.nodes.table) }
{
    equal_where_the_tables_are();
    one.nodes == other.nodes
}

// Whether the same parcels wait.
fn are_outboxes_same(one: &NodeImage, other: &NodeImage) -> bool
    ensures { IsTrue result ↔ (items_of one.now.outboxes ≡ items_of other.now.outboxes) }
{
    is_queue_same(&one.outboxes.h, &other.outboxes.h)
        && is_queue_same(&one.outboxes.a, &other.outboxes.a)
        && is_queue_same(&one.outboxes.b, &other.outboxes.b)
        && is_queue_same(&one.outboxes.c, &other.outboxes.c)
}

fn is_queue_same(one: &Vec<Parcel>, other: &Vec<Parcel>) -> bool
    ensures { IsTrue result ↔ (one.now.items ≡ other.now.items) }
{
    one == other
}
