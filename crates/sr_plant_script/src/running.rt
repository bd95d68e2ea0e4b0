//! A plant at work on a script, and the run of a script on a new plant: what hosts are handed is printed.

ghost use Rattle.sr_session.specs.Runs.{Runs};
ghost use Rattle.sr_plant_script.specs.Members.{start_of};
ghost use Rattle.sr_plant_script.specs.Replies.{plant_dialogue};

use crate::answering::answer;
use crate::printing::append_flight;
use crate::served::Served;
use crate::setup::PlantSetup;
use sr_session::{Fault, FaultKind, NOT_BEGUN, Session, run_session};
use sr_text::Text;
use std::alloc::Global;
use std::io::{BufRead, Write};

/// A plant at work on a script.
#[derive(Drop)]
struct PlantSession {
    alloc: Global,
    network: Served,
    // The octets of a line, in a list that is used again.
    octets: Vec<u8>,
    // What is printed for a line, in a list that is used again.
    printed: Text,
}

impl Session for PlantSession {
    ghost use Rattle.sr_plant.specs.Plants.{Plant};
    ghost use Rattle.sr_plant_script.specs.Replies.{plant_dialogue};

    ghost State = { Plant };

    ghost state = { λ s. s.network };

    ghost dialogue = { plant_dialogue };

    fn answer(&mut self, number: u64, line: &[u8], text: &mut Text) -> Result<(), FaultKind> {
        self.printed.truncate(0);
        answer(
            self.alloc,
            &mut self.network,
            number,
            line,
            &mut self.octets,
            &mut self.printed,
        )?;
        text.extend_from_slice(self.printed.as_slice())?;
        Ok(())
    }

    fn finish(&self, text: &mut Vec<u8>) -> Result<(), FaultKind> {
        append_flight(text, self.network.in_flight())
    }
}

/// Runs the script that the reader has left on a new plant, and writes what comes of it.
///
/// Lines are counted from 1. For each line is printed a line `up I HEX` for each frame that node I hands up to its host, in
/// plain form; a line `flow C` behind a flow of C carries; a line `refused N Name` where the event of line N is refused. At
/// the end a line `flight K` tells how many copies are in flight. What is printed for the lines that the reader has at hand
/// is written together, and flushed, before more is read, and before a fault.
///
/// # Errors
/// `Memory` comes at line 1, whatever that line is, where an allocation before the first line is read fails. Then `Line` and `Long`
/// come at the first line that is not a line of a script, whatever memory there is. `Read`, `Write` and `Memory` come where the
/// reader, the writer or an allocation fails, and at no such line. The lines before that of the fault are answered, and nothing else
/// is written, but for text of that line where the writer failed: a part of it, or all where it could not be passed on.
pub fn run_plant<R: BufRead, W: Write>(
    alloc: Global,
    setup: &PlantSetup,
    reader: &mut R,
    writer: &mut W,
) -> Result<(), Fault>
    // What is written is what comes of the lines, and how many copies are then in flight.
    ensures { Runs plant_dialogue (start_of setup.now) (R.remaining reader.old)
        (R.remaining reader.new) (W.contents writer.old) (W.contents writer.new) result }
{
    let Ok(network) = Served::new(alloc, setup) else {
        return Err(NOT_BEGUN);
    };
    let mut session = PlantSession {
        alloc,
        network,
        octets: Vec::new(alloc),
        printed: Text::new(alloc),
    };
    run_session(alloc, &mut session, reader, writer)
}
