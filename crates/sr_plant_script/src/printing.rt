//! What is printed of a plant.

ghost use Rattle.std.specs.Prelude.{◌≡◌, ◌++◌, OnOk, IfErr};
ghost use Rattle.std.specs.Fmt.{decimal};
ghost use Rattle.sr_forwarding.specs.Parcels.{plain_of};
ghost use Rattle.sr_plant_script.specs.Texts.{up_line, up_lines, flow_line, flight_line};

use itoa::Buffer;
use sr_forwarding::Parcel;
use sr_session::FaultKind;
use sr_text::Text;
use std::alloc::AllocError;

/// Appends the digits of a number.
fn append_number(text: &mut Text, number: usize) -> Result<(), AllocError>
    ensures { OnOk result (text.new ≡ text.old ++ decimal number) }
{
    let mut digits = Buffer::new();
    text.extend_from_slice(digits.format(number).as_bytes())
}

/// Appends the line for a parcel that a node hands up.
fn append_up(text: &mut Text, node: usize, parcel: &Parcel) -> Result<(), AllocError>
    ensures { OnOk result (text.new ≡ text.old ++ up_line node (plain_of parcel.now)) }
{
    text.extend_from_slice(b"up ")?;
    append_number(text, node)?;
    let (front, behind) = parcel.plain_pieces();
    text.append_hex_line(b" ", front, behind)
}

/// Appends the lines for what a node hands up.
pub(crate) fn append_ups(text: &mut Text, node: usize, parcels: &[Parcel]) -> Result<(), AllocError>
    ensures { OnOk result (text.new ≡ text.old ++ up_lines node parcels.now) }
{
    for parcel in parcels {
        append_up(text, node, parcel)?;
    }
    Ok(())
}

/// Appends the line behind a flow of so many carries.
pub(crate) fn append_flow(text: &mut Text, carries: usize) -> Result<(), FaultKind>
    ensures ok { OnOk result (text.new ≡ text.old ++ flow_line carries) }
    ensures err { IfErr result (λ kind. kind ≡ FaultKind.Memory) }
{
    text.extend_from_slice(b"flow ")?;
    append_number(text, carries)?;
    text.extend_from_slice(b"\n")?;
    Ok(())
}

/// Appends the line at the end: so many copies are in flight.
pub(crate) fn append_flight(text: &mut Vec<u8>, copies: usize) -> Result<(), FaultKind>
    ensures ok { OnOk result (text.new.items ≡ text.old.items ++ flight_line copies) }
    ensures err { IfErr result (λ kind. kind ≡ FaultKind.Memory) }
{
    text.extend_from_slice(b"flight ")?;
    let mut digits = Buffer::new();
    text.extend_from_slice(digits.format(copies).as_bytes())?;
    text.extend_from_slice(b"\n")?;
    Ok(())
}
