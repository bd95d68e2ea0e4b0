//! The clocks of the recorders of two captures: read ahead of all else, by passes of their own.

use crate::meanings::network_of;
use crate::script::tell_other;
use sr_advice::letter_of;
use sr_capture_audit::{Format, Judgement, Reason, clocks_between, delays_by, print_clocks};
use sr_capture_script::{Captures, Inlet, Options, ScriptFault};
use sr_clocks::{Clocks, Line};
use sr_command_io::{Ended, Opened, Progress, beside, both, open_captures};
use sr_options::{AuditTask, LineFormat, MergeTask, Network, Paths, Ports, ScriptTask, Shift};
use std::alloc::Global;
use std::fmt;
use std::io::BufRead;
use std::rt::Files;

/// How many frames tell of clocks where nobody asked for them.
const LEAST_PAIRS: usize = 20;

/// How far copies of a frame are apart in a sound network, in nanoseconds: what is more is told to be the clock where nobody asked.
const LEAST_APART: u128 = 20_000_000;

/// What is known of the clocks.
#[derive(Clone, Copy)]
pub(crate) enum Known {
    /// Nothing: the times are taken as they are.
    Nothing,
    /// That of B is so far ahead in the middle of its recording, and its times are taken back by that.
    Ahead(Line, i128, usize),
    /// They can't be told, and nothing can be judged.
    Unjudged(Judgement),
}

/// Why times are taken as they are.
#[derive(Clone, Copy)]
pub(crate) enum Untold<'a> {
    /// The frames that both recorders saw don't tell of one offset.
    By(Judgement),
    /// A capture is none of a file, and is gone once it was read.
    Once(&'a str),
    /// A capture can't be read to its end.
    Broken(Inlet),
    /// The recordings are more than 146 years apart.
    Far,
}

impl fmt::Display for Untold<'_> {
    fn fmt<W: fmt::Write>(&self, f: &mut fmt::Formatter<W>) -> fmt::Result {
        match *self {
            Untold::By(Judgement::Unjudged(reason)) => write!(f, "{reason}"),
            Untold::By(_) => f.write_str("nothing tells of them"),
            Untold::Once(path) => write!(f, "{path} is no file, and can be read once alone"),
            Untold::Broken(inlet) => {
                let letter = letter_of(inlet);
                write!(f, "{letter} can't be read to its end")
            }
            Untold::Far => f.write_str("the recordings are more than 146 years apart"),
        }
    }
}

/// The captures whose clocks are asked for.
#[derive(Clone, Copy)]
pub(crate) struct Recorders<'a> {
    a: Option<Paths<'a>>,
    b: Option<Paths<'a>>,
    options: Options,
    network: Network,
    shift: Shift,
}

/// The captures of an audit.
pub(crate) fn recorders_of_audit<'a>(task: &AuditTask<'a>) -> Recorders<'a> {
    let b = match task.ports {
        Ports::Two => task.b,
        Ports::Mirror => None,
    };
    Recorders {
        a: task.a,
        b,
        options: task.options,
        network: task.network,
        shift: task.shift,
    }
}

/// The captures of a merge.
pub(crate) fn recorders_of_merge<'a>(task: &MergeTask<'a>) -> Recorders<'a> {
    Recorders {
        a: task.a,
        b: task.b,
        options: task.options,
        network: task.network,
        shift: task.shift,
    }
}

/// The captures of a script. Nothing tells of the clock of C.
pub(crate) fn recorders_of_script<'a>(task: &ScriptTask<'a>) -> Recorders<'a> {
    Recorders {
        a: task.a,
        b: task.b,
        options: task.options,
        network: task.network,
        shift: task.shift,
    }
}

/// What so many frames tell, where nobody asked.
fn known_unasked(clocks: Clocks, ahead: i128) -> Known {
    match clocks {
        Clocks::One(line, pairs) if LEAST_PAIRS <= pairs && LEAST_APART < ahead.unsigned_abs() => {
            Known::Ahead(line, ahead, pairs)
        }
        Clocks::Two(most, others) if LEAST_PAIRS <= most => {
            Known::Unjudged(Judgement::Unjudged(Reason::TwoOffsets(most, others)))
        }
        _ => Known::Nothing,
    }
}

/// What they tell, where somebody asked.
fn known_asked(clocks: Clocks, ahead: i128) -> Known {
    match clocks {
        Clocks::One(line, pairs) => Known::Ahead(line, ahead, pairs),
        Clocks::Two(most, others) => {
            Known::Unjudged(Judgement::Unjudged(Reason::TwoOffsets(most, others)))
        }
        Clocks::Unknown => Known::Unjudged(Judgement::Unjudged(Reason::NoOffset)),
    }
}

/// Opens one capture alone.
fn open_alone<'a, R: AllocGlobal + Eprint + Files>(
    rt: &'a R,
    recorders: &Recorders<'_>,
    inlet: Inlet,
    progress: Progress,
) -> Result<Captures<Opened<'a, R>>, Ended> {
    let (a, b) = match inlet {
        Inlet::A => (recorders.a, None),
        Inlet::B | Inlet::C => (None, recorders.b),
    };
    open_captures(rt, a, b, &recorders.options, progress)
}

impl Recorders<'_> {
    /// Whether clocks are to be put right by frames, and there are two of them.
    fn are_wanted(&self) -> bool {
        self.shift != Shift::Given && self.a.is_some() && self.b.is_some()
    }

    /// What the frames of both captures, each opened alone, tell of their clocks.
    fn told_by<C: BufRead + Drop>(
        &self,
        alloc: Global,
        a: &mut Captures<C>,
        b: &mut Captures<C>,
    ) -> Result<Known, ScriptFault> {
        let (clocks, ahead) = clocks_between(alloc, network_of(self.network), a, b)?;
        match self.shift {
            Shift::Auto => Ok(known_asked(clocks, ahead)),
            Shift::Unasked | Shift::Given => Ok(known_unasked(clocks, ahead)),
        }
    }
}

/// What the frames that both recorders saw tell of their clocks, by a pass over each capture.
pub(crate) fn read_clocks<R: AllocGlobal + Eprint + Files>(
    rt: &R,
    recorders: &Recorders<'_>,
    progress: Progress,
) -> Result<Known, Ended> {
    if !recorders.are_wanted() {
        return Ok(Known::Nothing);
    }
    let a = open_alone(rt, recorders, Inlet::A, progress)?;
    let b = open_alone(rt, recorders, Inlet::B, progress);
    let (mut b, mut a) = beside(b, a)?;
    let known = recorders.told_by(rt.alloc(), &mut a, &mut b);
    drop((a, b));
    Ok(known?)
}

/// A task on the clocks that are known. Where the recordings are more than 146 years apart, it stays as it is.
pub(crate) fn on_clocks<'a>(task: &AuditTask<'a>, known: Known) -> AuditTask<'a> {
    let (mut own, mut options) = (*task, task.options);
    if let Known::Ahead(_, ahead, _) = known {
        if let Some(delays) = delays_by(options.delays, ahead) {
            let longer = delays.a.saturating_sub(options.delays.a);
            own.early = own.early.saturating_add(longer);
            options.delays = delays;
            own.options = options;
        }
    }
    own
}

/// Whether what a path names can be read once alone, as a pipe.
fn is_read_once<R: Files>(rt: &R, path: &str) -> bool {
    match std::fs::metadata(rt, path) {
        Ok(metadata) => !(metadata.is_file() || metadata.is_dir()),
        Err(_) => false,
    }
}

/// The path of a file of a capture that can be read once alone, if there is one.
pub(crate) fn read_once<'a, R: Files>(rt: &R, paths: Option<Paths<'a>>) -> Option<&'a str> {
    let paths = paths?;
    for place in 0..paths.count {
        let path = paths.path(place)?;
        if is_read_once(rt, path) {
            return Some(path);
        }
    }
    None
}

/// Why clocks that were asked for are not known.
#[derive(Clone, Copy, PartialEq, Eq)]
pub(crate) enum Unknown {
    /// They can't be told, which standard error is told of.
    Untold,
    /// For another fault, which it is told of too.
    Fault,
}

/// Says that times are taken as they are, and why. Where somebody asked for more, that is a fault.
pub(crate) fn tell_untold<R: Eprint>(
    rt: &R,
    shift: Shift,
    untold: Untold<'_>,
) -> Result<(), Unknown> {
    if shift == Shift::Auto {
        let _ = eprintln!(rt; "fault clocks\n{untold}; --shift none takes the times as they are");
        return Err(Unknown::Untold);
    }
    let _ = eprintln!(rt; "the times of B are taken as they are: {untold}");
    Ok(())
}

/// Says how far the clock of B is ahead, as an audit of this format does.
pub(crate) fn tell_ahead<R: AllocGlobal + Eprint>(
    rt: &R,
    format: LineFormat,
    line: Line,
    ahead: i128,
    pairs: usize,
) -> Result<(), Unknown> {
    let format = match format {
        LineFormat::Text => Format::Text,
        LineFormat::Json => Format::Json,
    };
    let mut text = Vec::new(rt.alloc());
    if print_clocks(&mut text, format, line, ahead, pairs).is_err() {
        tell_other(rt, ScriptFault::NoMemory, false);
        return Err(Unknown::Fault);
    }
    if let Ok(told) = str::from_utf8(text.as_slice()) {
        let _ = eprint!(rt; "{told}");
    }
    Ok(())
}

/// Opens one capture alone. None: its front has a fault, which is told where it is opened again.
fn open_front<'a, R: AllocGlobal + Eprint + Files>(
    rt: &'a R,
    recorders: &Recorders<'_>,
    inlet: Inlet,
    progress: Progress,
) -> Result<Option<Captures<Opened<'a, R>>>, Unknown> {
    match open_alone(rt, recorders, inlet, progress) {
        Ok(captures) => Ok(Some(captures)),
        Err(Ended::By(ScriptFault::File(_, _))) => Ok(None),
        Err(Ended::By(fault)) => {
            tell_other(rt, fault, false);
            Err(Unknown::Fault)
        }
        Err(Ended::Unopened) => Err(Unknown::Fault),
    }
}

/// What is known of the clocks of two captures that are open. Where one of them ends early nothing is, which is told.
fn read_opened<R: AllocGlobal + Eprint, C: BufRead + Drop>(
    rt: &R,
    recorders: &Recorders<'_>,
    a: &mut Captures<C>,
    b: &mut Captures<C>,
) -> Result<Known, Unknown> {
    match recorders.told_by(rt.alloc(), a, b) {
        Ok(known) => Ok(known),
        Err(ScriptFault::File(inlet, _)) => {
            tell_untold(rt, recorders.shift, Untold::Broken(inlet))?;
            Ok(Known::Nothing)
        }
        Err(fault) => {
            tell_other(rt, fault, false);
            Err(Unknown::Fault)
        }
    }
}

/// What is known of the clocks of captures that may be pipes: of those nothing is, which is told.
fn read_open_clocks<R: AllocGlobal + Eprint + Files>(
    rt: &R,
    recorders: &Recorders<'_>,
    progress: Progress,
) -> Result<Known, Unknown> {
    if let Some(path) = read_once(rt, recorders.a).or(read_once(rt, recorders.b)) {
        tell_untold(rt, recorders.shift, Untold::Once(path))?;
        return Ok(Known::Nothing);
    }
    let Some(a) = open_front(rt, recorders, Inlet::A, progress)? else {
        return Ok(Known::Nothing);
    };
    let (b, a) = beside(open_front(rt, recorders, Inlet::B, progress), a)?;
    let Some((mut b, mut a)) = both(b, a) else {
        return Ok(Known::Nothing);
    };
    let known = read_opened(rt, recorders, &mut a, &mut b);
    drop((a, b));
    known
}

/// What is known of the clocks of captures that are read again behind it. Where two offsets fit, or nothing is known though somebody asked,
/// that is told.
pub(crate) fn seek_clocks<R: AllocGlobal + Eprint + Files>(
    rt: &R,
    recorders: &Recorders<'_>,
    progress: Progress,
) -> Result<Known, Unknown> {
    if !recorders.are_wanted() {
        return Ok(Known::Nothing);
    }
    let known = read_open_clocks(rt, recorders, progress)?;
    if let Known::Unjudged(judgement) = known {
        tell_untold(rt, recorders.shift, Untold::By(judgement))?;
    }
    Ok(known)
}
