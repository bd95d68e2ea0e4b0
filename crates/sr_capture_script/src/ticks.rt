//! Ticks on a grid, written one by one: there may be more of them than memory holds.

ghost use Rattle.std.specs.Prelude.{◌≡◌, OnOk, IfErr};
ghost use Rattle.std.specs.Io.KnownBytes.{Appends};
ghost use Rattle.std.specs.List.{flat_map};
ghost use Rattle.sr_capture_script.specs.Texts.{tick_line, steps_to, is_on_grid, grid_at, grid_between, ticks_to, last_ticks};

use crate::choice::Choice;
use crate::fault::ScriptFault;
use std::io::Write;

/// Writes a tick line.
fn write_tick<W: Write>(writer: &mut W, time: u64) -> Result<(), ScriptFault>
    ensures ok { OnOk result (Appends (W.contents writer.old) (W.contents writer.new)
        (tick_line time)) }
    ensures err { IfErr result (λ fault. fault ≡ ScriptFault.Write) }
{
    match writeln!(writer, "tick {time}") {
        Ok(()) => Ok(()),
        Err(_) => Err(ScriptFault::Write),
    }
}

/// Whole steps of a grid from its beginning to a time.
fn steps_to(from: u64, step: u64, time: u64) -> u64
    ensures { result ≡ steps_to from step time }
{
    if step == 0 {
        return 0;
    }
    time.saturating_sub(from) / step
}

/// Whether a time is on the grid.
fn is_on_grid(from: u64, step: u64, time: u64) -> bool
    ensures { result ≡ is_on_grid from step time }
{
    let steps = steps_to(from, step, time);
    from + steps * step == time
}

/// Writes a tick at this time, where it is on the grid.
fn write_at<W: Write>(writer: &mut W, from: u64, step: u64, time: u64) -> Result<(), ScriptFault>
    ensures ok { OnOk result (Appends (W.contents writer.old) (W.contents writer.new)
        (flat_map tick_line (grid_at from step time))) }
    ensures err { IfErr result (λ fault. fault ≡ ScriptFault.Write) }
{
    if !is_on_grid(from, step, time) {
        return Ok(());
    }
    write_tick(writer, time)
}

/// Writes the ticks of the grid that are behind a time and not behind another.
fn write_between<W: Write>(
    writer: &mut W,
    from: u64,
    step: u64,
    last: u64,
    time: u64,
) -> Result<(), ScriptFault>
    ensures ok { OnOk result (Appends (W.contents writer.old) (W.contents writer.new)
        (flat_map tick_line (grid_between from step last time))) }
    ensures err { IfErr result (λ fault. fault ≡ ScriptFault.Write) }
{
    let gone = steps_to(from, step, last);
    let all = steps_to(from, step, time);
    for before in 0..all.saturating_sub(gone) {
        let steps = gone + before + 1;
        write_tick(writer, from + steps * step)?;
    }
    Ok(())
}

/// Writes the ticks up to a time and at it, if ticks are wanted: those behind the last line, or the one at the time alone.
pub(crate) fn write_ticks<W: Write>(
    writer: &mut W,
    choice: &Choice,
    last: Option<u64>,
    time: u64,
) -> Result<(), ScriptFault>
    ensures ok { OnOk result (Appends (W.contents writer.old) (W.contents writer.new)
        (ticks_to choice.now.from choice.now.tick last time)) }
    ensures err { IfErr result (λ fault. fault ≡ ScriptFault.Write) }
{
    match (choice.tick, last) {
        (Some(step), Some(last)) => write_between(writer, choice.from, step, last, time),
        (Some(step), None) => write_at(writer, choice.from, step, time),
        (None, _) => Ok(()),
    }
}

/// Writes the ticks behind the last line, up to the last time that is wanted, if one is named.
pub(crate) fn write_last_ticks<W: Write>(
    writer: &mut W,
    choice: &Choice,
    last: Option<u64>,
) -> Result<(), ScriptFault>
    ensures ok { OnOk result (Appends (W.contents writer.old) (W.contents writer.new)
        (last_ticks choice.now last)) }
    ensures err { IfErr result (λ fault. fault ≡ ScriptFault.Write) }
{
    match last {
        Some(time) => write_ticks(writer, choice, Some(time), choice.to.unwrap_or(time)),
        None => Ok(()),
    }
}
