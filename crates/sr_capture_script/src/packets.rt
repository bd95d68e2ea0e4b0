//! The packets of a file: the first one, and the next one.

ghost use Rattle.std.specs.Prelude.{◌≤◌, ◌^◌, None, ◌≡◌, IfOk, IfErr, OnOk};
ghost use Rattle.sr_capture_script.specs.Sources.{IsUntaken, left_of, GoesOn, IsStuck};
ghost use Rattle.sr_capture_script.specs.SourceViews.{progress_of, IsSame};
ghost use Rattle.sr_capture_script.specs.Opening.{IsOpened, FailsAtFront};

use crate::choice::Inlet;
use crate::fault::ScriptFault;
use crate::flaws::{FlawCounts, counted, flaw_of, goes_back, with_back};
use crate::source::Source;
use sr_capture::{ByteOrder, CaptureFault, Form, Packet, TimeUnit};
use sr_capture_file::{Format, Reading, front_len, take_front, take_next};
use std::alloc::Global;
use std::io::BufRead;

/// What is said of a file that is not there.
const NO_FORM: Format = Format::Pcap(Form {
    order: ByteOrder::Little,
    unit: TimeUnit::Micro,
    check_len: 0,
});

/// The counts of no packets.
const NO_FLAWS: FlawCounts = FlawCounts {
    cut: 0,
    long: 0,
    empty: 0,
    back: 0,
};

/// A file behind its front, of which no packet was taken.
fn untaken<R>(alloc: Global, reader: Option<R>, form: Format, delay: u64) -> Source<R>
    requires { delay ≤ 2 ^ 62 }
    ensures reader { result.reader ≡ reader }
    ensures form { result.form ≡ form }
    ensures delay { result.delay ≡ delay }
    ensures none { IsUntaken form (progress_of result) }
{
    Source {
        reader,
        form,
        state: form,
        delay,
        place: front_len(form),
        number: 0,
        flaws: NO_FLAWS,
        moment: 0,
        due: None,
        packet: Packet::new(alloc),
        block: Vec::new(alloc),
    }
}

/// Reads a file's front and its first packet.
///
/// # Errors
/// The fault of the file, or `NoMemory`.
pub(crate) fn open<R: BufRead + Drop>(
    alloc: Global,
    inlet: Inlet,
    file: Option<R>,
    delay: u64,
    how: Reading,
) -> Result<Source<R>, ScriptFault>
    requires { delay ≤ 2 ^ 62 }
    ensures opened { IfOk result (λ source.
        IsOpened R.remaining inlet how delay file source) }
    ensures fault { IfErr result (λ fault. FailsAtFront R.remaining inlet how file fault) }
{
    let mut reader = match file {
        Some(reader) => reader,
        None => return Ok(untaken(alloc, None, NO_FORM, delay)),
    };
    let mut octets = Vec::new(alloc);
    let form = match take_front(&mut reader, how, &mut octets) {
        Ok(form) => form,
        Err(fault) => return Err(ScriptFault::File(inlet, fault)),
    };
    let mut source = untaken(alloc, Some(reader), form, delay);
    match advance(&mut source) {
        Ok(()) => Ok(source),
        Err(fault) => Err(ScriptFault::File(inlet, fault)),
    }
}

/// Takes the next packet.
///
/// # Errors
/// Those of `take_next`, at the octet of the file.
pub(crate) fn advance<R: BufRead>(source: &mut Source<R>) -> Result<(), CaptureFault>
    ensures goes { OnOk result (GoesOn source.old.state source.old.delay source.new.due
        (left_of R.remaining source.old.reader)
        (left_of R.remaining source.new.reader) (progress_of source.old) (progress_of source.new)) }
    ensures same { IsSame source.old source.new }
    ensures fault { IfErr result (λ fault. IsStuck source.old.state source.old.place fault
        (left_of R.remaining source.old.reader) (left_of R.remaining source.new.reader)) }
{
    let Some(reader) = source.reader.as_mut() else {
        source.due = None;
        return Ok(());
    };
    match take_next(
        reader,
        &mut source.state,
        &mut source.block,
        &mut source.packet,
    ) {
        Ok(true) => {
            source.place = source.place.saturating_add(source.packet.size);
            source.number = source.number.saturating_add(1);
            let own = source.packet.time + source.delay;
            let is_back = goes_back(source.packet.time, own, source.moment);
            let flaws = with_back(source.flaws, is_back);
            source.flaws = counted(flaws, flaw_of(&source.packet));
            source.moment = source.moment.max(own);
            source.due = Some(source.moment);
            Ok(())
        }
        Ok(false) => {
            source.place = source.place.saturating_add(source.packet.size);
            source.due = None;
            Ok(())
        }
        Err(fault) => Err(CaptureFault {
            at: source.place.saturating_add(fault.at),
            reason: fault.reason,
        }),
    }
}
