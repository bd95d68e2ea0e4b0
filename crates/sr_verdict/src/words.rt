//! The words of verdicts: how severe one is, what kind it is of, and what to do.

use crate::shared::Cut;
use crate::verdict::Verdict;
use crate::why::Why;
use sr_audit::Side;
use sr_capture_audit::Reason;

/// How severe a verdict is.
pub(crate) fn severity_word(verdict: &Verdict) -> &'static str {
    match *verdict {
        Verdict::Unjudged(_) => "unjudged",
        Verdict::BothLostWithin(_, _)
        | Verdict::LossWithin(_, _, _)
        | Verdict::Restart(_, _)
        | Verdict::RecorderDropped(_, _)
        | Verdict::Babbling(_, _)
        | Verdict::Unseen(_, _)
        | Verdict::San(_, _, _)
        | Verdict::Clock(_) => "notice",
        _ => "fault",
    }
}

/// The word for why nothing can be judged.
fn reason_word(why: Why) -> &'static str {
    match why {
        Why::Figures(Reason::Unnumbered(_)) => "unnumbered",
        Why::Figures(Reason::Swapped) => "swapped",
        Why::Figures(Reason::Unpaired) => "unpaired",
        Why::Figures(Reason::Cut) => "cut_packets",
        Why::Figures(Reason::BothWays) => "both_ways",
        Why::Figures(Reason::TwoOffsets(_, _)) => "two_offsets",
        Why::Figures(Reason::NoOffset) => "no_offset",
        Why::Dropped(_, _) => "dropped_packets",
    }
}

/// The word for the kind of a verdict.
pub(crate) fn kind_word(verdict: &Verdict) -> &'static str {
    match *verdict {
        Verdict::Unjudged(why) => reason_word(why),
        Verdict::BothLost(_, _) | Verdict::BothLostWithin(_, _) => "both_lost",
        Verdict::TwoSenders(_, _) => "two_senders",
        Verdict::CutRing(_, _) => "cut_ring",
        Verdict::DeadPort(_, _) => "dead_port",
        Verdict::Crossed(_, _) => "crossed",
        Verdict::LostRedundancy(_, _, _) => "lost_redundancy",
        Verdict::Loss(_, _, _) | Verdict::LossWithin(_, _, _) => "loss",
        Verdict::WrongLan(_, _, _) => "wrong_lan",
        Verdict::Misfit(_, _) => "misfit",
        Verdict::Repeated(_, _) => "repeated",
        Verdict::Late(_, _) => "late",
        Verdict::Skew(_, _, _) => "skew",
        Verdict::RecorderDropped(_, _) => "recorder_dropped",
        Verdict::Restart(_, _) => "restart",
        Verdict::Babbling(_, _) => "babbling",
        Verdict::Unseen(_, _) => "unseen",
        Verdict::San(_, _, _) => "san",
        Verdict::Clock(_) => "clock",
    }
}

/// The word for a LAN, or for a mirror port, which names none.
pub(crate) fn lan_word(lan: Option<Side>) -> &'static str {
    match lan {
        Some(Side::A) => "A",
        Some(Side::B) => "B",
        None => "none",
    }
}

/// What to do where nothing can be judged.
fn advice_on_reason(why: Why) -> &'static str {
    match why {
        Why::Figures(Reason::Unnumbered(_)) =>
            "give a capture of this LAN whose frames have numbers: --network, --fcs 4",
        Why::Figures(Reason::Swapped) => "give the files the other way round",
        Why::Figures(Reason::Unpaired) =>
            "record both at the same time, in one network: --shift auto",
        Why::Figures(Reason::Cut) => "record whole packets",
        Why::Figures(Reason::BothWays) => "record what comes in alone",
        Why::Figures(Reason::TwoOffsets(_, _)) => "say how far the clock of B is ahead: --shift-b",
        Why::Figures(Reason::NoOffset) => "take the times as they are: --shift none",
        Why::Dropped(_, _) => "record again with a larger buffer, or on a faster disk",
    }
}

/// What to do about a verdict.
pub(crate) fn advice_on(verdict: &Verdict) -> &'static str {
    match *verdict {
        Verdict::Unjudged(why) => advice_on_reason(why),
        Verdict::BothLost(_, _) | Verdict::BothLostWithin(_, _) =>
            "look at what both paths share: the sender, its power, a switch",
        Verdict::TwoSenders(_, _) => "give one of the two nodes an address of its own",
        Verdict::CutRing(Cut { until: Some(_), .. }, _) =>
            "look why the link between the sources of sided A and those of sided B was down",
        Verdict::CutRing(_, _) =>
            "mend the link between the sources of sided A and those of sided B",
        Verdict::DeadPort(_, _) => "look at its port and cable at this LAN",
        Verdict::Crossed(_, _) => "swap the cables of these sources at their two ports",
        Verdict::LostRedundancy(_, _, _) =>
            "ask what changed at it: its mode, or what stands in its place",
        Verdict::Loss(_, _, _) | Verdict::LossWithin(_, _, _) =>
            "look at a switch or link that these sources share",
        Verdict::WrongLan(_, _, _) =>
            "look where the LANs are joined, or cables are crossed at one end",
        Verdict::Misfit(_, _) => "look at what changes frames on their way, and at --fcs 4",
        Verdict::Repeated(_, _) => "look for a loop, or a recorder that sees a frame twice",
        Verdict::Late(_, _) => "look at queues on one path, and at the recorders' clocks",
        Verdict::Skew(_, _, _) => "look at queues on one path, and at --max-skew-us",
        Verdict::RecorderDropped(_, _) => "give the recorder a larger buffer or a faster disk",
        Verdict::Restart(_, _) => "ask whether it was started anew",
        Verdict::Babbling(_, _) => "ask what it sends, and limit it at its switch port",
        Verdict::Unseen(_, _) => "record at mirror ports, or say --complete where both see all",
        Verdict::San(_, _, _) => "put it behind a RedBox if both LANs are to reach it",
        Verdict::Clock(_) => "set both recorders by one clock",
    }
}
