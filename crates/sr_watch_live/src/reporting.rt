//! When reports and alarms are made, and what they say.

use crate::clock::{between, earlier, later, time_of_day};
use crate::files::put;
use crate::live::Live;
use crate::plan::Plan;
use crate::running::WatchFault;
use sr_audit::Side;
use sr_dates::Moment;
use sr_frame::Mac;
use sr_intake::PacketCounts;
use sr_watch::{Alarm, Forgotten, Header, LanAlarm, Note, SourceAlarm, SourceLine, Watch};
use sr_watch_lines::{
    Format, Metrics, Packets, Raised, Told, print_alarm, print_metrics, print_report,
};
use std::alloc::Global;
use std::io::Write;
use std::rt::Files;
use std::time::{Clock, Instant};

/// How far checks of alarms are apart, in nanoseconds, where reports are not nearer.
const CHECK_EVERY: u64 = 1_000_000_000;

/// No packet came by either LAN.
const NO_PACKETS: Packets = Packets {
    a: PacketCounts::NONE,
    b: PacketCounts::NONE,
};

/// What makes reports and alarms.
#[derive(Drop)]
pub(crate) struct Reporter<'a> {
    alloc: Global,
    format: Format,
    every: u64,
    metrics: Option<&'a str>,
    /// When the last report was made, or the watch began.
    made: Instant,
    /// Up to when the last report told all, in capture time. None: no packet had come.
    mark: Option<u64>,
    due: Instant,
    check_due: Instant,
    told: Packets,
    raised: Vec<Raised>,
    has_alarms: bool,
}

/// The moment that is the next due: so much behind the last one, but not before now.
fn next_due(due: Instant, by: u64, now: Instant) -> Instant {
    let next = later(due, by);
    if next < now { later(now, by) } else { next }
}

/// When a report or an alarm is made: in capture time, or by the clock before a packet came.
fn moment_of<R: Clock>(rt: &R, mark: u64) -> Result<Moment, WatchFault> {
    if mark > 0 {
        Ok(Moment(mark))
    } else {
        Ok(Moment(time_of_day(rt)?))
    }
}

/// What is told of the sources now.
fn lines_of(alloc: Global, watch: &mut Watch) -> Result<Vec<SourceLine>, WatchFault> {
    let mut lines = Vec::new(alloc);
    let sources = watch.sources()?;
    for mac in sources.iter() {
        if let Some(line) = watch.tell(*mac) {
            match lines.push(line) {
                Ok(()) => {}
                Err(_) => return Err(WatchFault::NoMemory),
            }
        }
    }
    Ok(lines)
}

/// The alarms of captures and of sources that are known.
fn known_of(alloc: Global, raised: &[Raised], sources: &[Mac]) -> Result<Vec<Raised>, WatchFault> {
    let mut known = Vec::new(alloc);
    for own in raised {
        if own.source().is_none_or(|mac| sources.contains(&mac)) {
            match known.push(*own) {
                Ok(()) => {}
                Err(_) => return Err(WatchFault::NoMemory),
            }
        }
    }
    Ok(known)
}

/// Writes what was buffered.
fn flush<W: Write>(writer: &mut W) -> Result<(), WatchFault> {
    match writer.flush() {
        Ok(()) => Ok(()),
        Err(_) => Err(WatchFault::Write),
    }
}

impl<'a> Reporter<'a> {
    /// Nothing was reported.
    pub(crate) fn new(
        alloc: Global,
        plan: &Plan,
        metrics: Option<&'a str>,
        start: Instant,
    ) -> Reporter<'a> {
        let every = plan.every;
        Reporter {
            alloc,
            format: plan.format,
            every,
            metrics,
            made: start,
            mark: None,
            due: later(start, every),
            check_due: later(start, every.min(CHECK_EVERY)),
            told: NO_PACKETS,
            raised: Vec::new(alloc),
            has_alarms: false,
        }
    }

    /// When there is something to do next.
    pub(crate) fn due(&self) -> Instant {
        earlier(self.due, self.check_due)
    }

    /// Whether an alarm was raised.
    pub(crate) fn has_alarms(&self) -> bool {
        self.has_alarms
    }

    /// Writes the metrics, if they are wanted.
    fn put_metrics<R: AllocGlobal + Files + Clock>(
        &self,
        rt: &R,
        header: Header,
        packets: Packets,
        sources: &[SourceLine],
        forgotten: Forgotten,
    ) -> Result<(), WatchFault> {
        let Some(path) = self.metrics else {
            return Ok(());
        };
        let metrics = Metrics {
            made: time_of_day(rt)?,
            header,
            packets,
            sources,
            forgotten,
            raised: self.raised.as_slice(),
        };
        let mut octets = Vec::new(rt.alloc());
        match print_metrics(&mut octets, &metrics) {
            Ok(()) => {}
            Err(_) => return Err(WatchFault::NoMemory),
        }
        match put(rt, path, octets.as_slice()) {
            Ok(()) => Ok(()),
            Err(_) => Err(WatchFault::Metrics),
        }
    }

    /// How long ago the last report was, in capture time: in the first one the first packet. Before a packet came it is told by the clock.
    fn elapsed(&self, first: Option<u64>, mark: u64, now: Instant) -> u64 {
        match self.mark.or(first) {
            Some(from) if mark > 0 => mark.saturating_sub(from),
            _ => between(self.made, now),
        }
    }

    /// Makes a report.
    fn report<R: AllocGlobal + Files + Clock, W: Write>(
        &mut self,
        rt: &R,
        live: &mut Live,
        now: Instant,
        writer: &mut W,
    ) -> Result<(), WatchFault> {
        let header = live.watch.header();
        let lines = lines_of(self.alloc, &mut live.watch)?;
        let all = Packets {
            a: live.a.counts,
            b: live.b.counts,
        };
        let told = Told {
            at: moment_of(rt, header.mark)?,
            elapsed: self.elapsed(live.first(), header.mark, now),
            header,
            packets: Packets {
                a: all.a.since(&self.told.a),
                b: all.b.since(&self.told.b),
            },
            sources: lines.as_slice(),
        };
        if print_report(writer, self.format, &told).is_err() {
            return Err(WatchFault::Write);
        }
        flush(writer)?;
        self.told = all;
        self.made = now;
        if header.mark > 0 {
            self.mark = Some(header.mark);
        }
        let forgotten = live.watch.forgotten();
        self.put_metrics(rt, header, all, lines.as_slice(), forgotten)?;
        self.forget(&mut live.watch)
    }

    /// Forgets the sources that have been silent for long, and their alarms.
    fn forget(&mut self, watch: &mut Watch) -> Result<(), WatchFault> {
        let before = watch.forgotten().sources;
        watch.forget();
        if watch.forgotten().sources != before {
            let sources = watch.sources()?;
            self.raised = known_of(self.alloc, self.raised.as_slice(), sources.as_slice())?;
        }
        Ok(())
    }

    /// Keeps whether an alarm is raised.
    fn keep(&mut self, of: Raised, note: Note) -> Result<(), WatchFault> {
        match note {
            Note::Raised => {
                self.has_alarms = true;
                match self.raised.push(of) {
                    Ok(()) => Ok(()),
                    Err(_) => Err(WatchFault::NoMemory),
                }
            }
            Note::Cleared => {
                self.raised.retain(|own| *own != of);
                Ok(())
            }
        }
    }

    /// Tells of an alarm that begins or is over.
    fn tell<W: Write>(
        &mut self,
        at: Moment,
        of: Raised,
        found: Option<Alarm>,
        writer: &mut W,
    ) -> Result<(), WatchFault> {
        let Some(alarm) = found else {
            return Ok(());
        };
        self.keep(of, alarm.note)?;
        // Where both captures have ended all is told that may ever come.
        let alarm = Alarm {
            since: alarm.since.min(at.0),
            ..alarm
        };
        if print_alarm(writer, self.format, at, of, &alarm).is_err() {
            return Err(WatchFault::Write);
        }
        flush(writer)
    }

    /// Checks the alarms of a capture.
    fn check_lan<W: Write>(
        &mut self,
        watch: &mut Watch,
        at: Moment,
        side: Side,
        writer: &mut W,
    ) -> Result<(), WatchFault> {
        for alarm in LanAlarm::ALL {
            let found = watch.check_lan(side, alarm);
            self.tell(at, Raised::Lan(side, alarm), found, writer)?;
        }
        Ok(())
    }

    /// Checks the alarms of the sources.
    fn check_sources<W: Write>(
        &mut self,
        watch: &mut Watch,
        at: Moment,
        writer: &mut W,
    ) -> Result<(), WatchFault> {
        let sources = watch.sources()?;
        for mac in sources.iter() {
            for alarm in SourceAlarm::ALL {
                let found = watch.check_source(*mac, alarm);
                self.tell(at, Raised::Source(*mac, alarm), found, writer)?;
            }
        }
        Ok(())
    }

    /// Checks all alarms.
    fn check<R: Clock, W: Write>(
        &mut self,
        rt: &R,
        watch: &mut Watch,
        writer: &mut W,
    ) -> Result<(), WatchFault> {
        let at = moment_of(rt, watch.header().mark)?;
        self.check_lan(watch, at, Side::A, writer)?;
        self.check_lan(watch, at, Side::B, writer)?;
        self.check_sources(watch, at, writer)
    }

    /// Makes a report and checks alarms, where these are due. At the end of a watch both are, if a capture has begun.
    pub(crate) fn turn<R: AllocGlobal + Files + Clock, W: Write>(
        &mut self,
        rt: &R,
        live: &mut Live,
        now: Instant,
        is_last: bool,
        writer: &mut W,
    ) -> Result<(), WatchFault> {
        if is_last && !live.has_begun() {
            return Ok(());
        }
        if is_last || now >= self.due {
            self.report(rt, live, now, writer)?;
            self.due = next_due(self.due, self.every, now);
        }
        if is_last || now >= self.check_due {
            self.check(rt, &mut live.watch, writer)?;
            self.check_due = next_due(self.check_due, self.every.min(CHECK_EVERY), now);
        }
        Ok(())
    }
}
