//! A capture whose packets are taken one by one, as they come.

ghost use Rattle.std.specs.Prelude.{◌≡◌, IfOk, IfErr};
ghost use Rattle.sr_intake.specs.Intakes.{HasNoFrontOf};
ghost use Rattle.sr_intake.specs.Intakes.{IsBegun, GoesOnBy, HasNoPacket};

use sr_capture::{CaptureFault, Packet};
use sr_capture_file::{Format, Reading, front_len, take_front, take_next};
use std::alloc::Global;
use std::io::BufRead;

/// A capture behind its front, pcap or pcapng, and its last packet.
#[derive(Drop)]
pub struct Intake<R> {
    reader: R,
    format: Format,
    /// How many octets were taken.
    place: u64,
    packet: Packet,
    block: Vec<u8>,
}

impl<R: BufRead + Drop> Intake<R> {
    ghost use Rattle.std.specs.Prelude.{◌≡◌, IfOk, IfErr};
    ghost use Rattle.sr_intake.specs.Intakes.{HasNoFrontOf};
    ghost use Rattle.sr_intake.specs.Intakes.{IsBegun, GoesOnBy, HasNoPacket};

    /// Reads the front of a capture.
    ///
    /// # Errors
    /// That of the front: it is none, or that of another format or link type, or it can't be read.
    pub fn open(alloc: Global, reader: R, how: Reading) -> Result<Intake<R>, CaptureFault>
        ensures begun { IfOk result (λ own. IsBegun R.remaining how reader own) }
        ensures refused { IfErr result (λ fault. HasNoFrontOf R.remaining reader fault) }
    {
        let mut reader = reader;
        let mut block = Vec::new(alloc);
        let format = take_front(&mut reader, how, &mut block)?;
        Ok(Intake {
            reader,
            format,
            place: front_len(format),
            packet: Packet::new(alloc),
            block,
        })
    }

    /// Takes the next packet, which may be waited for. False: the capture is at its end.
    ///
    /// # Errors
    /// Why there is none, at the octet of the capture.
    pub fn advance(&mut self) -> Result<bool, CaptureFault>
        ensures taken { IfOk result (λ more. GoesOnBy R.remaining more self.old self.new) }
        ensures fault { IfErr result (λ fault. HasNoPacket R.remaining fault self.old self.new) }
    {
        match take_next(
            &mut self.reader,
            &mut self.format,
            &mut self.block,
            &mut self.packet,
        ) {
            Ok(more) => {
                self.place = self.place.saturating_add(self.packet.size);
                Ok(more)
            }
            Err(fault) => Err(CaptureFault {
                at: self.place.saturating_add(fault.at),
                reason: fault.reason,
            }),
        }
    }

    /// The packet that was taken last.
    pub fn packet(&self) -> &Packet
        ensures { result.now ≡ self.now.packet }
    {
        &self.packet
    }

    /// What the capture is read from.
    pub fn reader(&mut self) -> &mut R
        ensures { result.now ≡ self.old.reader }
    {
        &mut self.reader
    }
}
