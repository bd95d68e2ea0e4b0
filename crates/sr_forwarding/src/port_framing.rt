//! The framings as plain values.

use crate::{Framing, HsrFraming, ParcelView, PlainFraming, PrpFraming, ReadFault};

/// A framing as a plain value: one of the three.
#[derive(Clone, Copy, Debug)]
pub enum PortFraming {
    /// Ordinary frames.
    Plain(PlainFraming),
    /// Frames with an HSR tag.
    Hsr(HsrFraming),
    /// Frames with a PRP trailer.
    Prp(PrpFraming),
}

impl Framing for PortFraming {
    ghost use Rattle.sr_forwarding.specs.PortFramings.{carried_as};

    ghost meaning = { carried_as };

    // speed: D-node-inlined
    #[inline(always)]
    fn read<'a>(&self, octets: &'a [u8]) -> Result<ParcelView<'a>, ReadFault> {
        match self {
            PortFraming::Plain(framing) => framing.read(octets),
            PortFraming::Hsr(framing) => framing.read(octets),
            PortFraming::Prp(framing) => framing.read(octets),
        }
    }

    // speed: D-node-inlined
    #[inline(always)]
    fn write(&self, out: &mut Vec<u8>, parcel: &ParcelView<'_>) -> Result<(), ReadFault> {
        match self {
            PortFraming::Plain(framing) => framing.write(out, parcel),
            PortFraming::Hsr(framing) => framing.write(out, parcel),
            PortFraming::Prp(framing) => framing.write(out, parcel),
        }
    }
}
