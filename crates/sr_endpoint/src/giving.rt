//! What goes out of a node.

ghost use Rattle.std.specs.Prelude.{◌≡◌, ◌<◌, ◌≤◌, ◌+◌, ◌++◌, ◌⊎◌, length, take, IfSome, IfNone};
ghost use Rattle.sr_forwarding.specs.Encoding.{IsWritten};
ghost use Rattle.sr_forwarding.specs.Framings.{Tagged, Trailed};
ghost use Rattle.sr_forwarding.specs.Kinds.{carriage};
ghost use Rattle.sr_forwarding.specs.Parcels.{plain_of};
ghost use Rattle.sr_node.specs.Outboxes.{box_at};
ghost use Rattle.sr_node.specs.PerPort.{at};
ghost use Rattle.sr_endpoint.specs.Counting.{after_taken};
ghost use Rattle.sr_endpoint.specs.Endpoints.{state_by, IsFirstOut};

use crate::{Counters, Endpoint};
use sr_forwarding::{
    Form, Framing, HsrFraming, Parcel, PortFraming, PrpFraming, RoleKind, framing_at,
    tagged_pieces, trailed_pieces,
};
use sr_frame::Port;

/// Puts octets in two pieces at the front of a buffer, and answers how many they are. None, and the buffer stays, where it is shorter,
/// and where there are none: a count of 0 says that nothing was given.
fn put(buffer: &mut [u8], front: &[u8], behind: &[u8]) -> Option<usize>
    requires { length front.now + length behind.now ≤ 1524 }
    ensures put { IfSome result (λ count. take count buffer.new ≡ front.now ++ behind.now) }
    ensures some { IfSome result (λ count. 0 < count) }
    ensures same { IfNone result (buffer.new ≡ buffer.old) }
    ensures none { IfNone result ((length front.now + length behind.now ≡ 0)
        ⊎ (length buffer.old < length front.now + length behind.now)) }
{
    let count = front.len() + behind.len();
    if count == 0 || count > buffer.len() {
        return None;
    }
    let (first, rest) = buffer.split_at_mut(front.len());
    first.copy_from_slice(front);
    rest[..behind.len()].copy_from_slice(behind);
    Some(count)
}

/// Puts a parcel that its framing writes anew. The list `frame` is used again.
fn put_written<F: Framing>(
    framing: &F,
    parcel: &Parcel,
    frame: &mut Vec<u8>,
    buffer: &mut [u8],
) -> Option<usize>
    ensures put { IfSome result (λ count. IsWritten (F.meaning framing.now) parcel.now.form
        parcel.now (take count buffer.new)) }
    ensures some { IfSome result (λ count. 0 < count) }
    ensures same { IfNone result (buffer.new ≡ buffer.old) }
{
    frame.clear();
    framing.write(frame, &parcel.view()).ok()?;
    put(buffer, frame, &[])
}

/// Puts a parcel as it goes out in a ring. The list `frame` is used again where it does not go out in pieces of its own octets.
fn put_tagged(
    framing: HsrFraming,
    parcel: &Parcel,
    frame: &mut Vec<u8>,
    buffer: &mut [u8],
) -> Option<usize>
    ensures put { IfSome result (λ count. IsWritten (Tagged framing.path) parcel.now.form
        parcel.now (take count buffer.new)) }
    ensures some { IfSome result (λ count. 0 < count) }
    ensures same { IfNone result (buffer.new ≡ buffer.old) }
{
    if let Form::Hsr = parcel.form() {
        return put(buffer, parcel.octets(), &[]);
    }
    if let Some(pieces) = tagged_pieces(parcel, framing) {
        return put(buffer, &pieces.0, pieces.1);
    }
    put_written(&framing, parcel, frame, buffer)
}

/// Puts a parcel as it goes out in a LAN. The list `frame` is used again where it does not go out in pieces of its own octets.
fn put_trailed(
    framing: PrpFraming,
    parcel: &Parcel,
    frame: &mut Vec<u8>,
    buffer: &mut [u8],
) -> Option<usize>
    ensures put { IfSome result (λ count. IsWritten (Trailed framing.lan framing.net)
        parcel.now.form parcel.now (take count buffer.new)) }
    ensures some { IfSome result (λ count. 0 < count) }
    ensures same { IfNone result (buffer.new ≡ buffer.old) }
{
    if let Form::Prp = parcel.form() {
        return put(buffer, parcel.octets(), &[]);
    }
    if let Some(pieces) = trailed_pieces(parcel, framing) {
        return put(buffer, pieces.0, &pieces.1);
    }
    put_written(&framing, parcel, frame, buffer)
}

/// Puts a parcel as an ordinary frame.
fn put_plain(parcel: &Parcel, buffer: &mut [u8]) -> Option<usize>
    ensures put { IfSome result (λ count. take count buffer.new ≡ plain_of parcel.now) }
    ensures some { IfSome result (λ count. 0 < count) }
    ensures same { IfNone result (buffer.new ≡ buffer.old) }
{
    let (front, behind) = parcel.plain_pieces();
    put(buffer, front, behind)
}

/// Puts what a parcel goes out as at a port at the front of a buffer, and answers how many octets it has. The list `frame` is used again.
/// None, and the buffer stays, where it is shorter, and where an allocation failed.
fn put_parcel(
    kind: RoleKind,
    port: Port,
    parcel: &Parcel,
    frame: &mut Vec<u8>,
    buffer: &mut [u8],
) -> Option<usize>
    ensures put { IfSome result (λ count. IsWritten (carriage kind port) parcel.now.form
        parcel.now (take count buffer.new)) }
    ensures some { IfSome result (λ count. 0 < count) }
    ensures same { IfNone result (buffer.new ≡ buffer.old) }
{
    match framing_at(kind, port) {
        PortFraming::Plain(_) => put_plain(parcel, buffer),
        PortFraming::Hsr(framing) => put_tagged(framing, parcel, frame, buffer),
        PortFraming::Prp(framing) => put_trailed(framing, parcel, frame, buffer),
    }
}

impl Endpoint {
    /// Puts the frame of the first parcel that waits at a port into the buffer, and drops the parcel. The answer is how many octets it
    /// has. It is None, and nothing changes, where nothing waits, where the buffer is shorter, and where an allocation failed.
    pub fn take_into(&mut self, port: Port, buffer: &mut [u8]) -> Option<usize>
        ensures given { IfSome result (λ count. IsFirstOut (state_by self.old) port
            (take count buffer.new) (state_by self.new)) }
        ensures some { IfSome result (λ count. 0 < count) }
        ensures unlogged { self.new.log ≡ self.old.log }
        ensures counted { IfSome result (λ _. self.new.counters
            ≡ after_taken self.old.counters port) }
        ensures kept { IfNone result (state_by self.new ≡ state_by self.old) }
        ensures uncounted { IfNone result (self.new.counters ≡ self.old.counters) }
        ensures same { IfNone result (buffer.new ≡ buffer.old) }
    {
        let parcel = self.node.front(port)?;
        let count = put_parcel(self.node.kind(), port, parcel, &mut self.frame, buffer)?;
        self.node.drop_first(port);
        self.counters.count_taken(port);
        Some(count)
    }

    /// How many parcels wait at a port.
    pub fn waiting(&self, port: Port) -> usize
        ensures { result ≡ length (box_at (state_by self.now).core.out port) }
    {
        self.node.waiting(port)
    }

    /// What was counted at the ports.
    pub fn counters(&self) -> &Counters
        ensures { result.now ≡ self.now.counters }
    {
        &self.counters
    }

    /// How many frames came in at a port with the other LAN's trailer.
    pub fn wrong_lan(&self, port: Port) -> u64
        ensures { result ≡ at (state_by self.now).core.wrong_lan port }
    {
        self.node.wrong_lan(port)
    }

    /// The greatest time that was handed in, in milliseconds.
    pub fn time(&self) -> u64
        ensures { result ≡ (state_by self.now).core.time }
    {
        self.node.time()
    }
}
