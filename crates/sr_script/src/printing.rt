//! What a node puts out, as text.

ghost use Rattle.std.specs.Prelude.{◌≡◌, ◌+◌, ◌++◌, ◌∷◌, [], ◌≤◌, ℕ, List, length, OnOk, OnErr, IfErr, IfSome};
ghost use Rattle.sr_node.specs.States.{state_of};
ghost use Rattle.sr_forwarding.specs.Encoding.{IsWritten};
ghost use Rattle.sr_forwarding.specs.Parcels.{plain_of};
ghost use Rattle.sr_script.specs.Commands.{letter_of};
ghost use Rattle.sr_session.specs.Octets.{StillHolds};
ghost use Rattle.sr_forwarding.specs.Framings.{Tagged, Trailed};
ghost use Rattle.sr_script.specs.Texts.{frame_line, GoesAs};
ghost use Rattle.sr_script.specs.Replies.{FirstLeft, Emptied, AllEmptied};

use sr_forwarding::{
    Form, Framing, HsrFraming, Parcel, PortFraming, PrpFraming, Role, RoleKind, framing_at,
    tagged_pieces, trailed_pieces,
};
use sr_frame::Port;
use sr_node::NodeOf;
use sr_session::FaultKind;
use sr_text::Text;
use std::alloc::AllocError;

/// The letter of a port.
pub(crate) fn letter_of(port: Port) -> u8
    ensures { letter_of port ≡ result ∷ [] }
{
    match port {
        Port::H => b'H',
        Port::A => b'A',
        Port::B => b'B',
        Port::C => b'C',
    }
}

/// Appends the line for a frame that goes out at a port, of the frame in two pieces.
// speed: D-session-inlined, D-text-hex-line
#[inline(always)]
fn append_frame(text: &mut Text, port: Port, front: &[u8], behind: &[u8]) -> Result<(), AllocError>
    requires { length front.now + length behind.now ≤ 1524 }
    ensures ok { OnOk result (text.new ≡ text.old ++ frame_line port (front.now ++ behind.now)) }
    ensures same { OnErr result (text.new ≡ text.old) }
{
    text.append_hex_line(&[letter_of(port), b' '], front, behind)
}

/// Writes a parcel by a framing into an empty list.
fn write_by<F: Framing>(framing: &F, parcel: &Parcel, frame: &mut Vec<u8>) -> Result<(), FaultKind>
    requires { frame.old.items ≡ [] }
    ensures ok { OnOk result
        (IsWritten (F.meaning framing.now) parcel.now.form parcel.now frame.new.items) }
    ensures size { OnOk result (length frame.new.items ≤ 1524) }
    ensures err { IfErr result (λ kind. kind ≡ FaultKind.Memory) }
{
    match framing.write(frame, &parcel.view()) {
        Ok(()) => Ok(()),
        Err(_) => Err(FaultKind::Memory),
    }
}

/// Appends the line for a parcel that its framing writes anew. The list `frame` is used again.
// speed: D-script-in-place
#[inline(never)]
fn append_written<F: Framing>(
    framing: &F,
    port: Port,
    parcel: &Parcel,
    frame: &mut Vec<u8>,
    text: &mut Text,
) -> Result<(), FaultKind>
    ensures ok { OnOk result ((octets : List ℕ)
        × IsWritten (F.meaning framing.now) parcel.now.form parcel.now octets
        × (text.new ≡ text.old ++ frame_line port octets)) }
    ensures kept { OnErr result (StillHolds text.old text.new) }
    ensures err { IfErr result (λ kind. kind ≡ FaultKind.Memory) }
{
    frame.clear();
    write_by(framing, parcel, frame)?;
    append_frame(text, port, frame, &[])?;
    Ok(())
}

/// Appends the line for a parcel that goes out as an ordinary frame.
// speed: D-session-inlined
#[inline(always)]
fn append_plain(port: Port, parcel: &Parcel, text: &mut Text) -> Result<(), FaultKind>
    ensures ok { OnOk result (text.new ≡ text.old ++ frame_line port (plain_of parcel.now)) }
    ensures kept { OnErr result (StillHolds text.old text.new) }
    ensures err { IfErr result (λ kind. kind ≡ FaultKind.Memory) }
{
    let (front, behind) = parcel.plain_pieces();
    append_frame(text, port, front, behind)?;
    Ok(())
}

/// Appends the line for a parcel that goes out in a ring and was not in its form. The list `frame` is used again.
// speed: D-script-in-place
#[inline(never)]
fn append_tagged(
    framing: HsrFraming,
    port: Port,
    parcel: &Parcel,
    frame: &mut Vec<u8>,
    text: &mut Text,
) -> Result<(), FaultKind>
    ensures ok { OnOk result ((octets : List ℕ)
        × IsWritten (Tagged framing.path) parcel.now.form parcel.now octets
        × (text.new ≡ text.old ++ frame_line port octets)) }
    ensures kept { OnErr result (StillHolds text.old text.new) }
    ensures err { IfErr result (λ kind. kind ≡ FaultKind.Memory) }
{
    if let Some(pieces) = tagged_pieces(parcel, framing) {
        append_frame(text, port, &pieces.0, pieces.1)?;
        return Ok(());
    }
    append_written(&framing, port, parcel, frame, text)
}

/// Appends the line for a parcel that goes out in a LAN and was not in its form. The list `frame` is used again.
// speed: D-script-in-place
#[inline(never)]
fn append_trailed(
    framing: PrpFraming,
    port: Port,
    parcel: &Parcel,
    frame: &mut Vec<u8>,
    text: &mut Text,
) -> Result<(), FaultKind>
    ensures ok { OnOk result ((octets : List ℕ)
        × IsWritten (Trailed framing.lan framing.net) parcel.now.form parcel.now octets
        × (text.new ≡ text.old ++ frame_line port octets)) }
    ensures kept { OnErr result (StillHolds text.old text.new) }
    ensures err { IfErr result (λ kind. kind ≡ FaultKind.Memory) }
{
    if let Some(pieces) = trailed_pieces(parcel, framing) {
        append_frame(text, port, pieces.0, &pieces.1)?;
        return Ok(());
    }
    append_written(&framing, port, parcel, frame, text)
}

/// The octets of a parcel, where the framing of a port writes them as they are.
// speed: D-script-in-place
fn framed_in_place(role: RoleKind, port: Port, parcel: &Parcel) -> Option<&[u8]>
    ensures written { IfSome result (λ octets. GoesAs role port parcel.now octets.now) }
    ensures size { IfSome result (λ octets. length octets.now ≤ 1524) }
{
    match (framing_at(role, port), parcel.form()) {
        (PortFraming::Plain(_), Form::Plain) => Some(parcel.octets()),
        (PortFraming::Hsr(_), Form::Hsr) => Some(parcel.octets()),
        (PortFraming::Prp(_), Form::Prp) => Some(parcel.octets()),
        _ => None,
    }
}

/// Appends the line for a parcel that goes out at a port. The list `frame` is used again.
// speed: D-session-inlined
#[inline(always)]
fn append_framed(
    role: RoleKind,
    port: Port,
    parcel: &Parcel,
    frame: &mut Vec<u8>,
    text: &mut Text,
) -> Result<(), FaultKind>
    ensures ok { OnOk result ((octets : List ℕ) × GoesAs role port parcel.now octets
        × (text.new ≡ text.old ++ frame_line port octets)) }
    ensures kept { OnErr result (StillHolds text.old text.new) }
    ensures err { IfErr result (λ kind. kind ≡ FaultKind.Memory) }
{
    if let Some(octets) = framed_in_place(role, port, parcel) {
        append_frame(text, port, octets, &[])?;
        return Ok(());
    }
    match framing_at(role, port) {
        PortFraming::Plain(_) => append_plain(port, parcel, text),
        PortFraming::Hsr(framing) => append_tagged(framing, port, parcel, frame, text),
        PortFraming::Prp(framing) => append_trailed(framing, port, parcel, frame, text),
    }
}

/// Takes the first parcel that waits for the host, if one waits, and appends the line for its frame.
// speed: D-script-waits-first. Out of line, so that a port where nothing waits costs no call.
#[inline(never)]
fn append_handed<R: Role>(node: &mut NodeOf<R>, text: &mut Text) -> Result<(), FaultKind>
    ensures ok { (role : RoleKind) → OnOk result ((line : List ℕ) × FirstLeft role Port.H
        (state_of R.meaning node.old) line (state_of R.meaning node.new)
        × (text.new ≡ text.old ++ line)) }
    ensures kept { OnErr result (StillHolds text.old text.new) }
    ensures err { IfErr result (λ kind. kind ≡ FaultKind.Memory) }
{
    if let Some(parcel) = node.front(Port::H) {
        append_plain(Port::H, parcel, text)?;
        node.drop_first(Port::H);
    }
    Ok(())
}

/// Takes the first parcel that waits at a port, if one waits, and appends the line for its frame. The list `frame` is used again.
// speed: D-script-waits-first. Out of line, so that a port where nothing waits costs no call.
#[inline(never)]
fn append_sent<R: Role>(
    role: &RoleKind,
    node: &mut NodeOf<R>,
    port: Port,
    frame: &mut Vec<u8>,
    text: &mut Text,
) -> Result<(), FaultKind>
    ensures ok { OnOk result ((line : List ℕ) × FirstLeft role.now port
        (state_of R.meaning node.old) line (state_of R.meaning node.new)
        × (text.new ≡ text.old ++ line)) }
    ensures kept { OnErr result (StillHolds text.old text.new) }
    ensures err { IfErr result (λ kind. kind ≡ FaultKind.Memory) }
{
    if let Some(parcel) = node.front(port) {
        append_framed(*role, port, parcel, frame, text)?;
        node.drop_first(port);
    }
    Ok(())
}

/// Takes the first parcel that waits at a port, if one waits, and appends the line for its frame.
// speed: D-script-waits-first. The host's port is told apart where this is compiled.
#[inline(always)]
fn append_first<R: Role>(
    role: &RoleKind,
    node: &mut NodeOf<R>,
    port: Port,
    frame: &mut Vec<u8>,
    text: &mut Text,
) -> Result<(), FaultKind>
    ensures ok { OnOk result ((line : List ℕ) × FirstLeft role.now port
        (state_of R.meaning node.old) line (state_of R.meaning node.new)
        × (text.new ≡ text.old ++ line)) }
    ensures kept { OnErr result (StillHolds text.old text.new) }
    ensures err { IfErr result (λ kind. kind ≡ FaultKind.Memory) }
{
    match port {
        Port::H => append_handed(node, text),
        Port::A | Port::B | Port::C => append_sent(role, node, port, frame, text),
    }
}

/// Takes all that waits at a port, one after the other, and appends a line for each frame. As a rule nothing waits, so the port is
/// asked first.
// speed: D-script-waits-first
#[inline(always)]
fn append_waiting<R: Role>(
    role: &RoleKind,
    node: &mut NodeOf<R>,
    port: Port,
    frame: &mut Vec<u8>,
    text: &mut Text,
) -> Result<(), FaultKind>
    ensures ok { OnOk result ((lines : List ℕ) × Emptied role.now port (state_of R.meaning node.old)
        lines (state_of R.meaning node.new) × (text.new ≡ text.old ++ lines)) }
    ensures kept { OnErr result (StillHolds text.old text.new) }
    ensures err { IfErr result (λ kind. kind ≡ FaultKind.Memory) }
{
    while node.waiting(port) > 0 {
        append_first(role, node, port, frame, text)?;
    }
    Ok(())
}

/// Takes all that waits, outlet by outlet, and appends a line for each frame.
// speed: D-session-inlined
#[inline(always)]
pub(crate) fn append_outlets<R: Role>(
    role: &RoleKind,
    node: &mut NodeOf<R>,
    frame: &mut Vec<u8>,
    text: &mut Text,
) -> Result<(), FaultKind>
    ensures ok { OnOk result ((lines : List ℕ) × AllEmptied role.now (state_of R.meaning node.old)
        lines (state_of R.meaning node.new) × (text.new ≡ text.old ++ lines)) }
    ensures kept { OnErr result (StillHolds text.old text.new) }
    ensures err { IfErr result (λ kind. kind ≡ FaultKind.Memory) }
{
    append_waiting(role, node, Port::H, frame, text)?;
    append_waiting(role, node, Port::A, frame, text)?;
    append_waiting(role, node, Port::B, frame, text)?;
    append_waiting(role, node, Port::C, frame, text)?;
    Ok(())
}
