//! The figures of captures, the report of them, and what it says of the network.

ghost use Rattle.std.specs.Prelude.{◌≡◌};
ghost use Rattle.sr_capture_audit.specs.Faults.{shows_lost, have_lost, have_missing};
ghost use Rattle.sr_capture_audit.specs.Judging.{are_repeated};

use crate::counts::Counts;
use crate::edges::{LEAST_EDGE, bounded_edge, widest};
use crate::flows::Sight;
use crate::judgement::{Judgement, Reason};
use crate::network::Subject;
use sr_audit::{Audit, Figures, Side, Span, Spans};
use sr_slots::Keys;
use std::alloc::Global;

/// The figures of the captures.
#[derive(Drop)]
pub struct Report {
    /// What is audited.
    pub subject: Subject,
    /// When the captures run, as it is judged by.
    pub spans: Spans,
    /// When the first and the last packet came, by whichever capture.
    pub(crate) whole: Option<Span>,
    /// How many packets of each kind the captures have.
    pub counts: Counts,
    /// The figures of all frames, by their sources.
    pub audit: Audit,
    /// The figures of the frames that tell what was lost, where not all do.
    pub judged: Option<Audit>,
    /// The figures of the counters by which frames are numbered, where sources stand behind RedBoxes.
    pub counters: Option<Audit>,
    /// Whether those tell of numbers that were lost, or went past no recorder.
    pub sight: Sight,
}

/// Whether a frame came by one side alone, while the capture of the other side ran.
pub(crate) fn shows_lost(figures: &Figures) -> bool
    ensures { result ≡ shows_lost figures.now }
{
    let only = figures.only();
    only.a > 0 || only.b > 0
}

/// Whether such a frame is one of an audit.
fn have_lost(audit: &Audit) -> bool
    ensures { result ≡ have_lost audit.now }
{
    for (_, source) in audit.sources() {
        if shows_lost(&source.figures()) {
            return true;
        }
    }
    false
}

/// Whether no frame had a number of a source.
fn have_missing(audit: &Audit) -> bool
    ensures { result ≡ have_missing audit.now }
{
    for (_, source) in audit.sources() {
        if source.figures().neither > 0 {
            return true;
        }
    }
    false
}

/// Whether more than one in ten copies came before, at each side.
fn are_repeated(figures: &Figures) -> bool
    ensures { result ≡ are_repeated figures.now }
{
    let (rx, repeats) = (figures.tally.rx, figures.tally.repeats);
    rx.a / 10 < repeats.a && rx.b / 10 < repeats.b
}

/// What is known of the captures as a whole, once the figures of the sources are let go.
#[derive(Clone, Copy, Debug, PartialEq, Eq)]
pub struct Summary {
    /// How many packets of each kind the captures have.
    pub counts: Counts,
    /// How many sources have lines.
    pub sources: usize,
    /// How many packets were of sources that have no lines.
    pub left_out: u64,
    /// What they say of the network.
    pub judgement: Judgement,
}

impl Report {
    ghost use Rattle.std.specs.Prelude.{◌≡◌, ◌||◌, [], length, Some};
    ghost use Rattle.sr_audit.specs.declared.audit.Audit.{Audit};
    ghost use Rattle.sr_capture_audit.specs.Auditing.{IsReportOf};
    ghost use Rattle.sr_capture_audit.specs.Edging.{edge_width, tells_of_lost, tells_of_missing};
    ghost use Rattle.sr_capture_audit.specs.Faults.{has_faults, own_figures, judged_have_lost, counters_have_missing};
    ghost use Rattle.sr_capture_audit.specs.Judging.{has_pairs, has_repeated, reason_of, network_judgement};

    /// The report of no packet.
    pub(crate) fn new(alloc: Global, keys: Keys, subject: Subject, spans: Spans) -> Report
        ensures { IsReportOf subject spans [] result }
    {
        Report {
            subject,
            spans,
            whole: None,
            counts: Counts::NONE,
            audit: Audit::new(alloc, keys, spans),
            judged: None,
            counters: None,
            sight: Sight::All,
        }
    }

    /// This report with an audit of the frames that tell what was lost, which alone does.
    pub fn with_judged(self, judged: Audit) -> Report
        ensures { result ≡ record self { judged = Some judged } }
    {
        let judged = Some(judged);
        Report { judged, ..self }
    }

    /// This report with an audit of the counters by which frames are numbered, which alone tells of numbers that no frame had: these were
    /// lost where the captures have all that was sent, and may have gone past no recorder where they have a part.
    pub fn with_counters(self, counters: Audit, sight: Sight) -> Report
        ensures { result ≡ record self { counters = Some counters; sight = sight } }
    {
        let counters = Some(counters);
        Report {
            counters,
            sight,
            ..self
        }
    }

    /// How many packets were of sources that have no lines.
    fn left_out(&self) -> u64
        ensures { result ≡ self.now.audit.left_out }
    {
        self.audit.left_out()
    }

    /// How many sources have lines.
    fn sources(&self) -> usize
        ensures { result ≡ length self.now.audit.sources.entries }
    {
        self.audit.len()
    }

    /// How many packets of each kind the captures have.
    fn counts(&self) -> Counts
        ensures { result ≡ self.now.counts }
    {
        let Report { counts, .. } = self;
        *counts
    }

    /// Whether the audit of the frames that tell what was lost does, or that of the counters tells of numbers that were lost.
    fn others_have_faults(&self) -> bool
        ensures { result ≡ judged_have_lost self.now.judged
            || counters_have_missing self.now.sight self.now.counters }
    {
        let Report {
            judged,
            counters,
            ..
        } = self;
        let has_lost = match judged {
            Some(judged) => have_lost(judged),
            None => false,
        };
        let has_missing = match counters {
            Some(counters) => self.sight == Sight::All && have_missing(counters),
            None => false,
        };
        has_lost || has_missing
    }

    /// The figures of a source without those of which another audit tells.
    fn own_figures(&self, figures: Figures) -> Figures
        ensures { result ≡ own_figures self.now figures }
    {
        let mut own = figures;
        if self.judged.is_some() {
            own.tally.alone = own.edges;
        }
        if self.counters.is_some() {
            own.neither = 0;
        }
        own
    }

    /// Whether a figure of a fault is not 0: frames that came by one side alone, or by none, copies that came more than once, trailers of
    /// the other LAN or that are none, or a skew of 400 ms or more.
    fn has_faults(&self) -> bool
        ensures { result ≡ has_faults self.now }
    {
        if self.counts.have_faults() || self.others_have_faults() {
            return true;
        }
        for (_, source) in self.audit.sources() {
            if self.own_figures(source.figures()).has_faults() {
                return true;
            }
        }
        false
    }

    /// Whether a frame came by one side alone, while the capture of the other side ran.
    pub fn has_lost(&self) -> bool
        ensures { result ≡ tells_of_lost self.now }
    {
        have_lost(&self.audit)
    }

    /// Whether no frame had a number of a source.
    pub fn has_missing(&self) -> bool
        ensures { result ≡ tells_of_missing self.now }
    {
        have_missing(&self.audit)
    }

    /// Whether more than one in ten copies of a source came before, at each side: so it is where each capture has both ways of a ring.
    pub fn has_repeated(&self) -> bool
        ensures { result ≡ has_repeated self.now }
    {
        for (_, source) in self.audit.sources() {
            if are_repeated(&source.figures()) {
                return true;
            }
        }
        false
    }

    /// How wide the edges of the captures are, in nanoseconds: as far as the copies of a frame came apart, 1 ms at least and 400 ms at most.
    pub fn edge_width(&self) -> u64
        ensures { result ≡ edge_width self.now }
    {
        let mut width = LEAST_EDGE;
        for (_, source) in self.audit.sources() {
            width = width.max(widest(&source.figures().skews));
        }
        bounded_edge(width)
    }

    /// Whether a frame came by both sides.
    fn has_pairs(&self) -> bool
        ensures { result ≡ has_pairs self.now }
    {
        for (_, source) in self.audit.sources() {
            if source.figures().tally.pairs > 0 {
                return true;
            }
        }
        false
    }

    /// Why nothing can be judged. None: the figures judge.
    fn reason(&self) -> Option<Reason>
        ensures { result ≡ reason_of self.now }
    {
        let counts = self.counts();
        if counts.are_cut() {
            Some(Reason::Cut)
        } else if counts.a.numbered == 0 {
            Some(Reason::Unnumbered(Side::A))
        } else if counts.b.numbered == 0 {
            Some(Reason::Unnumbered(Side::B))
        } else if counts.are_swapped() {
            Some(Reason::Swapped)
        } else if self.has_pairs() {
            None
        } else {
            Some(Reason::Unpaired)
        }
    }

    /// What the captures say of the network. Where nothing can be judged, no figure of a fault counts.
    fn judgement(&self) -> Judgement
        ensures { result ≡ network_judgement self.now }
    {
        if let Some(reason) = self.reason() {
            Judgement::Unjudged(reason)
        } else if self.has_faults() {
            Judgement::Faulty
        } else {
            Judgement::Sound
        }
    }

    /// What is known of the captures as a whole.
    pub fn summary(&self) -> Summary
        ensures counts { result.counts ≡ self.now.counts }
        ensures sources { result.sources ≡ length self.now.audit.sources.entries }
        ensures left_out { result.left_out ≡ self.now.audit.left_out }
        ensures judgement { result.judgement ≡ network_judgement self.now }
    {
        Summary {
            counts: self.counts(),
            sources: self.sources(),
            left_out: self.left_out(),
            judgement: self.judgement(),
        }
    }
}
