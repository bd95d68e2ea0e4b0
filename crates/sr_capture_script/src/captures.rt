//! The packets of captures, taken one by one in the order of their times.

ghost use Rattle.std.specs.Prelude.{◌≡◌, IfErr, OnOk};
ghost use Rattle.sr_capture_script.specs.Captures.{Advances, StopsAt};

use crate::choice::{Inlet, Options};
use crate::fault::ScriptFault;
use crate::merge::earliest;
use crate::packets::{advance, open};
use crate::scripting::reading_of;
use crate::source::Source;
use sr_capture::Packet;
use sr_capture_file::dropped_of;
use std::alloc::Global;
use std::io::BufRead;

/// Where and when a packet came in.
#[derive(Clone, Copy, Debug)]
pub struct Front {
    /// The inlet of its file.
    pub inlet: Inlet,
    /// Its number in the file, from 1 on.
    pub number: u64,
    /// Its moment, in nanoseconds: its time put off, but not before the packet ahead of it in its file.
    pub moment: u64,
}

/// Up to three captures, pcap or pcapng, of which the packets are taken in the order of their moments; of equal ones A goes before B,
/// and B before C.
#[derive(Drop)]
pub struct Captures<R> {
    a: Source<R>,
    b: Source<R>,
    c: Source<R>,
}

/// Takes the next packet of a file.
fn advance_at<R: BufRead>(source: &mut Source<R>, inlet: Inlet) -> Result<(), ScriptFault>
    ensures goes { OnOk result (Advances R.remaining source.old source.new) }
    ensures stops { IfErr result (λ fault. StopsAt R.remaining inlet source.old source.new fault) }
{
    match advance(source) {
        Ok(()) => Ok(()),
        Err(fault) => Err(ScriptFault::File(inlet, fault)),
    }
}

impl<R: BufRead + Drop> Captures<R> {
    ghost use Rattle.std.specs.Prelude.{◌≡◌, IfOk, IfErr, OnOk, IfSome, IfNone};
    ghost use Rattle.sr_capture_script.specs.declared.choice.Inlet.TheVariants.{A as AtA, B as AtB, C as AtC};
    ghost use Rattle.sr_capture_script.specs.Opening.{reading_of, IsOpened, FailsToOpen};
    ghost use Rattle.sr_capture_file.specs.Formats.{dropped_of};
    ghost use Rattle.sr_capture_script.specs.Captures.{file_at, IsDueFirst, HasNoFront, Advances, StopsAt, KeepsOthers};

    /// Opens the captures, and reads the first packet of each.
    ///
    /// # Errors
    /// The fault of a file, or `NoMemory`.
    pub fn open(
        alloc: Global,
        file_a: Option<R>,
        file_b: Option<R>,
        file_c: Option<R>,
        options: &Options,
    ) -> Result<Captures<R>, ScriptFault>
        ensures a { IfOk result (λ all. IsOpened R.remaining AtA (reading_of options.now AtA)
            options.now.delays.a file_a all.a) }
        ensures b { IfOk result (λ all. IsOpened R.remaining AtB (reading_of options.now AtB)
            options.now.delays.b file_b all.b) }
        ensures c { IfOk result (λ all. IsOpened R.remaining AtC (reading_of options.now AtC)
            options.now.delays.c file_c all.c) }
        ensures fault { IfErr result (λ fault. FailsToOpen R.remaining (reading_of options.now)
            file_a file_b file_c fault) }
    {
        let delays = options.delays;
        let a = open(
            alloc,
            Inlet::A,
            file_a,
            delays.a,
            reading_of(options, Inlet::A),
        )?;
        let b = open(
            alloc,
            Inlet::B,
            file_b,
            delays.b,
            reading_of(options, Inlet::B),
        )?;
        let c = open(
            alloc,
            Inlet::C,
            file_c,
            delays.c,
            reading_of(options, Inlet::C),
        )?;
        Ok(Captures { a, b, c })
    }

    /// Where and when the packet that is due came in. None: all files are at their ends.
    pub fn front(&self) -> Option<Front>
        ensures some { IfSome result (λ front. IsDueFirst self.now front) }
        ensures none { IfNone result (HasNoFront self.now) }
    {
        let (inlet, moment) = earliest(self.a.due, self.b.due, self.c.due)?;
        let number = match inlet {
            Inlet::A => self.a.number,
            Inlet::B => self.b.number,
            Inlet::C => self.c.number,
        };
        Some(Front {
            inlet,
            number,
            moment,
        })
    }

    /// The packet of a file that is due, or was the last one.
    pub fn packet(&self, inlet: Inlet) -> &Packet
        ensures { result.now ≡ (file_at inlet self.now).packet }
    {
        match inlet {
            Inlet::A => &self.a.packet,
            Inlet::B => &self.b.packet,
            Inlet::C => &self.c.packet,
        }
    }

    /// How many packets the recorder of a file dropped, as far as it was read and tells.
    pub fn dropped(&self, inlet: Inlet) -> Option<u64>
        ensures { result ≡ dropped_of (file_at inlet self.now).state }
    {
        match inlet {
            Inlet::A => dropped_of(self.a.state),
            Inlet::B => dropped_of(self.b.state),
            Inlet::C => dropped_of(self.c.state),
        }
    }

    /// Takes the packet of a file that is due, and reads its next one.
    ///
    /// # Errors
    /// The fault of the file.
    pub fn advance(&mut self, inlet: Inlet) -> Result<(), ScriptFault>
        ensures goes { OnOk result (Advances R.remaining (file_at inlet self.old)
            (file_at inlet self.new)) }
        ensures stops { IfErr result (λ fault. StopsAt R.remaining inlet
            (file_at inlet self.old) (file_at inlet self.new) fault) }
        ensures others { KeepsOthers inlet self.old self.new }
    {
        match inlet {
            Inlet::A => advance_at(&mut self.a, Inlet::A),
            Inlet::B => advance_at(&mut self.b, Inlet::B),
            Inlet::C => advance_at(&mut self.c, Inlet::C),
        }
    }
}
