//! What is printed for a packet: the ticks ahead of it, and its line.

ghost use Rattle.std.specs.Prelude.{◌≡◌, ◌-◌, ◌^◌, min, OnOk, IfErr};
ghost use Rattle.std.specs.Io.KnownBytes.{Appends};
ghost use Rattle.sr_capture.specs.Records.{Shows};
ghost use Rattle.sr_capture_script.specs.Items.{Item};
ghost use Rattle.sr_capture_script.specs.SourceViews.{StopsPrinting};
ghost use Rattle.sr_capture_script.specs.Texts.{time_since, piece_of, last_after};

use crate::choice::{Choice, Inlet, MILLISECOND};
use crate::fault::ScriptFault;
use crate::lines::append_line;
use crate::ticks::write_ticks;
use sr_capture::Packet;
use std::io::Write;

/// Writes a text.
pub(crate) fn write_text<W: Write>(writer: &mut W, text: &[u8]) -> Result<(), ScriptFault>
    ensures ok { OnOk result (Appends (W.contents writer.old) (W.contents writer.new) text.now) }
    ensures err { IfErr result (λ fault. fault ≡ ScriptFault.Write) }
{
    if writer.write_all(text).is_err() {
        return Err(ScriptFault::Write);
    }
    Ok(())
}

/// Milliseconds since a moment.
fn time_since(base: u64, moment: u64) -> u64
    ensures { result ≡ time_since base moment }
{
    moment.saturating_sub(base) / MILLISECOND
}

/// Where a packet stands: its inlet, its number there, its moment.
#[derive(Clone, Copy)]
pub(crate) struct Place {
    pub inlet: Inlet,
    pub number: u64,
    pub moment: u64,
}

/// Writes what is printed for a packet, where times are counted from a base and `last` is the time of the line before it. `text`
/// is used for it.
pub(crate) fn print_piece<W: Write>(
    text: &mut Vec<u8>,
    choice: &Choice,
    base: u64,
    last: &mut Option<u64>,
    place: Place,
    packet: &Packet,
    writer: &mut W,
) -> Result<(), ScriptFault>
    ensures ok { OnOk result ((item : Item) → item.inlet ≡ place.inlet → item.moment ≡ place.moment
        → place.number ≡ min item.number (2 ^ 64 - 1) → Shows packet.now item.packet
        → Appends (W.contents writer.old) (W.contents writer.new)
        (piece_of choice.now base last.old item)) }
    ensures last { OnOk result (last.new ≡ last_after choice.now base last.old place.moment) }
    ensures err { IfErr result (λ fault.
        StopsPrinting fault (W.contents writer.old) (W.contents writer.new)) }
{
    let time = time_since(base, place.moment);
    if !choice.is_wanted(time) {
        return Ok(());
    }
    text.clear();
    append_line(text, place.inlet, place.number, time, packet)?;
    write_ticks(writer, choice, *last, time)?;
    write_text(writer, text.as_slice())?;
    *last = Some(time);
    Ok(())
}
