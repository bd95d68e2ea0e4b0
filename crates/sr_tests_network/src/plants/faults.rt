//! The words of faults, of frames, tables, nodes and plants.

use sr_dup_table::{DupFault, TableFull};
use sr_dup_window::Apart;
use sr_forwarding::ReadFault;
use sr_frame::{FrameFault, Mac, NoMemory, Port};
use sr_hsr_tag::{TagFault, UntagFault};
use sr_node::{MergeFault, StepFault};
use sr_plant::PlantFault;
use sr_prp_trailer::StripFault;
use sr_supervision::SupFault;
use std::alloc::Global;
use std::fmt::Display;
use std::process::Abort;

/// Whether a fault is told so. None where an allocation failed.
fn is_told_once<D: Display>(alloc: Global, fault: &D, words: &str) -> Option<bool> {
    let text = fault.to_string(alloc).ok()?;
    Some(text.as_str() == words)
}

/// Whether a fault is told so, asked again where an allocation failed.
fn is_told<D: Display>(alloc: Global, fault: &D, words: &str) -> bool {
    match is_told_once(alloc, fault, words) {
        Some(is_told) => is_told,
        None => is_told_once(alloc, fault, words) == Some(true),
    }
}

const FRAMES: &[(FrameFault, &str)] = &[
    (FrameFault::TooShort, "the frame is too short"),
    (FrameFault::TooLong, "the frame is too long"),
    (FrameFault::NoMemory, "out of memory"),
];

const UNTAGS: &[(UntagFault, &str)] = &[
    (UntagFault::NotTagged, "the frame has no HSR tag"),
    (UntagFault::Truncated, "the HSR tag is cut short"),
    (
        UntagFault::TooShort,
        "the frame without its HSR tag is too short",
    ),
    (UntagFault::NoMemory, "out of memory"),
];

const TAGS: &[(TagFault, &str)] = &[
    (TagFault::NotTagged, "the frame has no HSR tag"),
    (TagFault::Truncated, "the HSR tag is cut short"),
];

const STRIPS: &[(StripFault, &str)] = &[
    (StripFault::NoTrailer, "the frame has no trailer"),
    (StripFault::NoMemory, "out of memory"),
];

const SUPERVISIONS: &[(SupFault, &str)] = &[
    (SupFault::NotSupervision, "the frame is no supervision"),
    (SupFault::Version, "the supervision has an unknown version"),
    (
        SupFault::FirstTlv,
        "the supervision begins with an unknown TLV",
    ),
    (SupFault::Truncated, "the supervision is cut short"),
];

const READS: &[(ReadFault, &str)] = &[
    (ReadFault::TooShort, "the frame is too short"),
    (ReadFault::TooLong, "the frame is too long"),
    (ReadFault::Truncated, "the tag is cut off"),
    (ReadFault::NotOwn, "the source is not this node"),
    (ReadFault::Untagged, "the frame has no tag"),
    (ReadFault::NoMemory, "out of memory"),
];

const TABLES: &[(DupFault, &str)] = &[
    (DupFault::TableFull, "the duplicate table is full"),
    (DupFault::NoMemory, "out of memory"),
    (
        DupFault::Apart(Mac([2, 0, 0, 0, 0, 1])),
        "two records of a source are 32768 apart",
    ),
    (
        DupFault::OtherWidth,
        "the duplicate tables have different widths",
    ),
    (DupFault::BadSnapshot, "no snapshot of a duplicate table"),
];

const STEPS: &[(StepFault, &str)] = &[
    (
        StepFault::Reading(ReadFault::TooShort),
        "the frame is not read",
    ),
    (StepFault::Untagged, "the frame has no tag"),
    (StepFault::TableFull, "the table of sources is full"),
    (StepFault::OutboxFull(Port::A), "an outbox is full"),
    (StepFault::NoMemory, "out of memory"),
];

const MERGES: &[(MergeFault, &str)] = &[
    (
        MergeFault::OtherWidth,
        "the nodes have duplicate tables of different widths",
    ),
    (MergeFault::TableFull, "the duplicate table is full"),
    (
        MergeFault::Apart(Mac([2, 0, 0, 0, 0, 1])),
        "two records of a source are 32768 apart",
    ),
    (MergeFault::NoMemory, "out of memory"),
];

const PLANTS: &[(PlantFault, &str)] = &[
    (PlantFault::NoSuchNode, "no such node or link"),
    (PlantFault::NoSuchCopy, "no such copy"),
    (PlantFault::ClockBack, "the clock would go back"),
    (PlantFault::Node(StepFault::Untagged), "the node refuses it"),
    (PlantFault::BadPlant, "the nodes make no plant"),
    (PlantFault::NoMemory, "out of memory"),
];

/// The place of the first fault that is told otherwise.
fn first_wrong<D: Display>(alloc: Global, faults: &[(D, &str)]) -> Option<usize> {
    for (place, (fault, words)) in faults.iter().enumerate() {
        if !is_told(alloc, fault, words) {
            return Some(place);
        }
    }
    None
}

/// Fails the test at the place of the first fault of a list, which is named, that is told otherwise.
fn expect_words<D: Display, R: Abort + AllocGlobal>(rt: &R, list: &str, faults: &[(D, &str)]) {
    assert_eq!(rt; first_wrong(rt.alloc(), faults), None, "{list}");
}

#[test]
fn words_of_faults(rt: HostRuntime) {
    expect_words(&rt, "memory", &[(NoMemory, "out of memory")]);
    expect_words(&rt, "frames", FRAMES);
    expect_words(&rt, "tags", TAGS);
    expect_words(&rt, "untags", UNTAGS);
    expect_words(&rt, "strips", STRIPS);
    expect_words(&rt, "supervisions", SUPERVISIONS);
    expect_words(&rt, "reads", READS);
    let apart = "the greatest numbers are 32768 apart";
    expect_words(&rt, "apart", &[(Apart, apart)]);
    let full = "the duplicate table is full";
    expect_words(&rt, "full", &[(TableFull, full)]);
    expect_words(&rt, "tables", TABLES);
    expect_words(&rt, "steps", STEPS);
    expect_words(&rt, "merges", MERGES);
    expect_words(&rt, "plants", PLANTS);
}
