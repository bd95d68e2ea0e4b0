//! The front of a file, which tells its kind.

ghost use Rattle.std.specs.Prelude.{◌≡◌, ◌↔◌, [], IfOk, IfErr, IfSome, IsTrue};
ghost use Rattle.sr_capture.specs.declared.fault.Reason.TheVariants.{Read as ReadFails};
ghost use Rattle.sr_capture.specs.Taking.{Loses};
ghost use Rattle.sr_capture_file.specs.Fronts.{given, BeginsPcapng, TakesFront, HasNoFront};

use crate::format::Format;
use sr_capture::{CaptureFault, Form, Reason, read_header};
use sr_pcapng::{Track, Wanted};
use std::io::BufRead;

/// The first octet of a pcapng file.
const PCAPNG: u8 = 0x0A;

/// How a file is read.
#[derive(Clone, Copy, Debug)]
pub struct Reading {
    /// Which interface is wanted.
    pub wanted: Wanted,
    /// How many octets of check sequence stand behind each packet where the file tells none.
    pub check_len: u8,
}

/// A form with a check sequence of this length where it has none.
fn given(check: u8, form: Form) -> Form
    ensures { result ≡ given check form }
{
    Form {
        check_len: if form.check_len == 0 {
            check
        } else {
            form.check_len
        },
        ..form
    }
}

/// Whether a file begins as a pcapng file. Nothing is taken.
///
/// # Errors
/// `Read` where the reader fails.
fn begins_pcapng<R: BufRead>(reader: &mut R) -> Result<bool, Reason>
    ensures kept { Loses [] (R.remaining reader.old) (R.remaining reader.new) }
    ensures told { IfOk result (λ begins.
        IfSome (R.remaining reader.old) (λ octets. IsTrue begins ↔ BeginsPcapng octets)) }
    ensures fault { IfErr result (λ reason. reason ≡ ReadFails) }
{
    let Ok(available) = reader.fill_buf() else {
        return Err(Reason::Read);
    };
    Ok(!available.is_empty() && available[0] == PCAPNG)
}

/// Takes the front of a file. `octets` is used for it.
///
/// # Errors
/// Those of the header of a pcap file, where it does not begin as a pcapng file.
pub fn take_front<R: BufRead>(
    reader: &mut R,
    how: Reading,
    octets: &mut Vec<u8>,
) -> Result<Format, CaptureFault>
    ensures taken { IfOk result (λ form.
        TakesFront how form (R.remaining reader.old) (R.remaining reader.new)) }
    ensures refused { IfErr result (λ fault.
        HasNoFront fault (R.remaining reader.old) (R.remaining reader.new)) }
{
    match begins_pcapng(reader) {
        Ok(true) => return Ok(Format::Pcapng(Track::new(how.wanted, how.check_len))),
        Ok(false) => {}
        Err(reason) => return Err(CaptureFault { at: 0, reason }),
    }
    match read_header(reader, octets) {
        Ok(form) => Ok(Format::Pcap(given(how.check_len, form))),
        Err(fault) => Err(fault),
    }
}
