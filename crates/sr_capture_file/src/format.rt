//! The kinds of files: pcap, and pcapng.

ghost use Rattle.std.specs.Prelude.{◌≡◌, ◌≤◌, IfOk, IfErr};
ghost use Rattle.sr_capture_file.specs.Formats.{front_len, dropped_of, Takes, IsNoNext};

use sr_capture::{CaptureFault, Form, HEADER_LEN, Packet};
use sr_pcapng::Track;
use std::io::BufRead;

/// A kind of file, and what is known of it.
#[derive(Clone, Copy)]
pub enum Format {
    /// A pcap file, and what its header says.
    Pcap(Form),
    /// A pcapng file, and how far it was read.
    Pcapng(Track),
}

/// How many octets stand before the packets.
pub fn front_len(format: Format) -> u64
    ensures { result ≡ front_len format }
{
    match format {
        Format::Pcap(_) => HEADER_LEN as u64,
        Format::Pcapng(_) => 0,
    }
}

/// How many packets a recorder dropped, as far as the file tells.
pub fn dropped_of(format: Format) -> Option<u64>
    ensures { result ≡ dropped_of format }
{
    match format {
        Format::Pcap(_) => None,
        Format::Pcapng(track) => track.dropped,
    }
}

/// Takes the next packet. False where nothing is left; `packet` then tells how many octets were passed over. `block` is used
/// for it.
///
/// # Errors
/// Those of the kind of file, counted from the first octet that was left.
pub fn take_next<R: BufRead>(
    reader: &mut R,
    format: &mut Format,
    block: &mut Vec<u8>,
    packet: &mut Packet,
) -> Result<bool, CaptureFault>
    ensures taken { IfOk result (λ more. Takes more format.old format.new packet.new
        (R.remaining reader.old) (R.remaining reader.new)) }
    ensures fault { IfErr result (λ fault.
        IsNoNext format.old fault (R.remaining reader.old) (R.remaining reader.new)) }
{
    match *format {
        Format::Pcap(form) => match sr_capture::next_packet(reader, form, packet) {
            Ok(true) => {
                // Read, so that it is known to fit 64 bits.
                let _size = packet.size;
                Ok(true)
            }
            Ok(false) => {
                packet.size = 0;
                Ok(false)
            }
            Err(fault) => Err(fault),
        },
        Format::Pcapng(mut track) => {
            match sr_pcapng::next_packet(reader, &mut track, block, packet) {
                Ok(more) => {
                    *format = Format::Pcapng(track);
                    Ok(more)
                }
                Err(fault) => Err(fault),
            }
        }
    }
}
