//! The run of a script on a new plant, drawn as a sequence chart.

ghost use Rattle.std.specs.Prelude.{◌≡◌, IfErr};
ghost use Rattle.sr_session.specs.Runs.{Runs};
ghost use Rattle.sr_plant_picture.specs.Pictures.{picture_dialogue};

use crate::picturing::answer;
use crate::watching::Watch;
use sr_plant_script::PlantSetup;
use sr_session::{Fault, FaultKind, NOT_BEGUN, Session, run_session};
use sr_text::Text;
use std::alloc::Global;
use std::io::{BufRead, Write};

/// A plant at work on a script, and the chart of its run.
#[derive(Drop)]
struct PictureSession {
    alloc: Global,
    watch: Watch,
    // The octets of a line, in a list that is used again.
    octets: Vec<u8>,
}

// Writes the chart of a plant into a list.
fn draw(alloc: Global, watch: &Watch, text: &mut Vec<u8>) -> Result<(), FaultKind>
    ensures { IfErr result (λ kind. kind ≡ FaultKind.Memory) }
{
    let chart = watch.chart();
    let flying = watch.flights().arrows(alloc, chart.row())?;
    match chart.draw(text, flying.as_slice()) {
        Ok(()) => Ok(()),
        Err(_) => Err(FaultKind::Memory),
    }
}

impl Session for PictureSession {
    ghost use Rattle.sr_plant_picture.specs.Pictures.{picture_dialogue};

    ghost State = { Unit {0} };

    ghost state = { λ s. tt };

    ghost dialogue = { picture_dialogue };

    fn answer(&mut self, number: u64, line: &[u8], _text: &mut Text) -> Result<(), FaultKind> {
        answer(self.alloc, &mut self.watch, number, line, &mut self.octets)
    }

    fn finish(&self, text: &mut Vec<u8>) -> Result<(), FaultKind> {
        draw(self.alloc, &self.watch, text)
    }
}

/// Runs the script that the reader has left on a new plant, and writes a picture of the run: a sequence chart (SVG 1.1).
///
/// The picture comes at the end. It shows the first 500 events, refused ones too, and says how many others there were.
///
/// # Errors
/// Those of `run_plant`, for the same lines; nothing is written then, but for a part of the picture where the writer failed.
pub fn run_picture<R: BufRead, W: Write>(
    alloc: Global,
    setup: &PlantSetup,
    reader: &mut R,
    writer: &mut W,
) -> Result<(), Fault>
    // The lines are those of scripts of plants, and nothing is written before the picture.
    ensures { Runs picture_dialogue tt (R.remaining reader.old) (R.remaining reader.new)
        (W.contents writer.old) (W.contents writer.new) result }
{
    let Ok(watch) = Watch::new(alloc, setup) else {
        return Err(NOT_BEGUN);
    };
    let mut session = PictureSession {
        alloc,
        watch,
        octets: Vec::new(alloc),
    };
    run_session(alloc, &mut session, reader, writer)
}
