//! What is told of captures that look wrong, though a script can be made of them.

use crate::files::letter_of;
use crate::survey::Seen;
use sr_capture_script::{Choice, Inlet};
use sr_options::{Paths, ScriptTask};
use sr_pcapng::Wanted;
use std::fmt;

/// What looks wrong in captures of which a script was made. It is shown in lines, none where nothing looks wrong.
#[derive(Clone, Copy)]
pub struct ScriptAdvice<'a> {
    pub(crate) task: &'a ScriptTask<'a>,
    pub(crate) a: Seen,
    pub(crate) b: Seen,
    pub(crate) c: Seen,
}

/// Says what looks wrong in the times that are wanted.
fn write_choice<W: fmt::Write>(choice: Choice, f: &mut fmt::Formatter<W>) -> fmt::Result {
    if choice.to.is_some_and(|to| to < choice.from) {
        f.write_str("no time is wanted: --from is behind --to\n")?;
    }
    Ok(())
}

/// Says what looks wrong in how a capture was recorded.
fn write_recording<W: fmt::Write>(
    inlet: Inlet,
    wanted: Wanted,
    seen: &Seen,
    f: &mut fmt::Formatter<W>,
) -> fmt::Result {
    let letter = letter_of(inlet);
    let Seen {
        packets,
        cut,
        back,
        ..
    } = *seen;
    if let (Wanted::Number(number), 0) = (wanted, packets) {
        writeln!(f, "{letter}: interface {number} has no packets")?;
    }
    if packets > 0 && cut == packets {
        writeln!(
            f,
            "{letter}: {cut} packets were cut by the recorder: trailers stand at the end"
        )?;
    }
    if back > 0 {
        writeln!(
            f,
            "{letter}: {back} packets are before one ahead of them: sort it by reordercap"
        )?;
    }
    Ok(())
}

/// Says what looks wrong in the frames of a capture: trailers that are not where they ought to be, or tags in their place. An
/// interlink may be that of a ring.
fn write_frames<W: fmt::Write>(
    inlet: Inlet,
    seen: &Seen,
    f: &mut fmt::Formatter<W>,
) -> fmt::Result {
    let letter = letter_of(inlet);
    let Seen {
        used,
        ahead,
        tagged,
        elsewhere,
        ..
    } = *seen;
    if seen.trailed() == 0 && ahead > 0 {
        writeln!(
            f,
            "{letter}: no PRP trailer in {used} packets; in {ahead} one stands four octets before the end: --fcs 4?"
        )?;
    } else if seen.trailed() == 0 && tagged > 0 && inlet != Inlet::C {
        writeln!(f, "{letter}: HSR tags in {tagged} packets: --role danh?")?;
    }
    if elsewhere > 0 {
        writeln!(
            f,
            "{letter}: supervision frames to 01:15:4e:00:01:01..ff in {elsewhere} packets: a node here takes those to 01:15:4e:00:01:00"
        )?;
    }
    Ok(())
}

/// Says what looks wrong in the capture of an inlet, if there is one.
fn write_capture<W: fmt::Write>(
    inlet: Inlet,
    paths: Option<Paths<'_>>,
    wanted: Wanted,
    seen: &Seen,
    f: &mut fmt::Formatter<W>,
) -> fmt::Result {
    if paths.is_none() {
        return Ok(());
    }
    write_recording(inlet, wanted, seen, f)?;
    write_frames(inlet, seen, f)
}

/// What is told where captures have the trailers of the other LAN.
fn wrong_lans(a: &Seen, b: &Seen) -> &'static str {
    match (a.is_most(a.lan_b), b.is_most(b.lan_a)) {
        (true, true) => {
            "more than half of A and of B have the other LAN's id: are the files swapped?\n"
        }
        (true, false) => "more than half of A have the other LAN's id\n",
        (false, true) => "more than half of B have the other LAN's id\n",
        (false, false) => "",
    }
}

/// Says where the packets of one capture are all behind those of another.
fn write_apart<W: fmt::Write>(
    first: (&str, &Seen),
    second: (&str, &Seen),
    f: &mut fmt::Formatter<W>,
) -> fmt::Result {
    let (Some((_, end)), Some((begin, _))) = (first.1.times, second.1.times) else {
        return Ok(());
    };
    if begin > end {
        let seconds = (begin - end) / 1000;
        let tenth = (begin - end) % 1000 / 100;
        let (name, other) = (second.0, first.0);
        let option = if name == "A" { "a" } else { "b" };
        writeln!(
            f,
            "{name} begins {seconds}.{tenth} s behind the end of {other}: --shift-{option}?"
        )?;
    }
    Ok(())
}

impl ScriptAdvice<'_> {
    /// Says what looks wrong in each capture.
    fn write_captures<W: fmt::Write>(&self, f: &mut fmt::Formatter<W>) -> fmt::Result {
        let task = self.task;
        let wanted = task.options.interfaces;
        write_capture(Inlet::A, task.a, wanted.a, &self.a, f)?;
        write_capture(Inlet::B, task.b, wanted.b, &self.b, f)?;
        write_capture(Inlet::C, task.c, wanted.c, &self.c, f)
    }

    /// Says what looks wrong in the captures of A and B beside one another.
    fn write_lans<W: fmt::Write>(&self, f: &mut fmt::Formatter<W>) -> fmt::Result {
        if self.task.is_same {
            f.write_str("A and B are the same capture\n")?;
        } else {
            f.write_str(wrong_lans(&self.a, &self.b))?;
        }
        write_apart(("A", &self.a), ("B", &self.b), f)?;
        write_apart(("B", &self.b), ("A", &self.a), f)
    }

    /// Whether no packet has a line.
    fn is_empty(&self) -> bool {
        self.a.used == 0 && self.b.used == 0 && self.c.used == 0
    }
}

impl fmt::Display for ScriptAdvice<'_> {
    fn fmt<W: fmt::Write>(&self, f: &mut fmt::Formatter<W>) -> fmt::Result {
        write_choice(self.task.options.choice, f)?;
        self.write_captures(f)?;
        self.write_lans(f)?;
        if self.is_empty() {
            f.write_str(
                "no packet is in the script: its last comments count those that were cut, long or empty\n",
            )?;
        }
        Ok(())
    }
}
