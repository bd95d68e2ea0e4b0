//! Ports of ordinary frames.

ghost use Rattle.std.specs.Prelude.{◌≡◌, ◌+◌, ◌≤◌, vec_len, vec_capacity, OnOk, IfErr, OnErr, IsOk};
ghost use Rattle.sr_forwarding.specs.Encoding.{Grows};
ghost use Rattle.sr_forwarding.specs.Parcels.{plain_of};

use crate::framing::{append_as_it_is, unnumbered, whole_frame};
use crate::{Form, Framing, ParcelView, ReadFault};
use sr_frame::{MAX_FRAME_LEN, append};

/// The most octets of a plain frame: 1518, which leaves room for a tag or a trailer.
pub const MAX_PLAIN_LEN: usize = 1518;

/// A port of ordinary frames.
#[derive(Clone, Copy, Debug)]
pub struct PlainFraming;

// Appends the plain form of a parcel.
fn write_plain(out: &mut Vec<u8>, parcel: &ParcelView<'_>) -> Result<(), ReadFault>
    ensures written { OnOk result
        (Grows (λ octets. octets ≡ plain_of parcel.now) out.old.items out.new.items) }
    ensures err { IfErr result (λ e. e ≡ ReadFault.NoMemory) }
    ensures same { OnErr result (out.new.items ≡ out.old.items) }
    ensures room { vec_len out.old + MAX_FRAME_LEN ≤ vec_capacity out.old → IsOk result }
    ensures capacity { vec_capacity out.old ≤ vec_capacity out.new }
{
    append(out, &parcel.plain())?;
    Ok(())
}

impl Framing for PlainFraming {
    ghost use Rattle.sr_forwarding.specs.Framings.{Ordinary};

    ghost meaning = { λ _. Ordinary };

    // speed: D-node-inlined
    #[inline(always)]
    fn read<'a>(&self, octets: &'a [u8]) -> Result<ParcelView<'a>, ReadFault> {
        let _ = whole_frame(octets, MAX_PLAIN_LEN)?;
        Ok(unnumbered(octets))
    }

    fn write(&self, out: &mut Vec<u8>, parcel: &ParcelView<'_>) -> Result<(), ReadFault> {
        match parcel.form() {
            Form::Plain => append_as_it_is(out, parcel),
            Form::Hsr | Form::Prp => write_plain(out, parcel),
        }
    }
}
