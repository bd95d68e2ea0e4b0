//! The object of a line.

ghost use Rattle.std.specs.Prelude.{◌≡◌, ◌++◌, ◌∷◌, ℕ, List, codes, OnOk};
ghost use Rattle.sr_session.specs.Octets.{Lacks};
ghost use Rattle.sr_json_lines.specs.Objects.{up_object, flow_object, refused_object, flight_object, node_object, lost_object};

use crate::pieces::append_values;
use sr_text::Text;
use sr_words::split_word;
use std::alloc::AllocError;

/// The most octets that are shown of a line that none of a run is (choice of this project).
const MOST_SHOWN: usize = 8000;

/// Appends the object of a line that none of a run is: its first octets, as hexadecimal digits.
fn append_other(text: &mut Text, line: &[u8]) -> Result<(), AllocError> {
    let octets = match line.get(..MOST_SHOWN) {
        Some(front) => front,
        None => line,
    };
    text.append_hex_line(b"{\"line\":\"other\",\"octets\":\"", octets, &[])?;
    text.truncate(text.len().saturating_sub(1));
    text.extend_from_slice(b"\"}\n")
}

/// Appends the object of what a node hands up.
fn append_up(text: &mut Text, node: &[u8], frame: &[u8]) -> Result<(), AllocError>
    ensures { OnOk result (text.new ≡ text.old ++ up_object node.now frame.now) }
{
    let before = b"{\"line\":\"up\",\"node\":";
    append_values(text, before, node, b",\"frame\":\"", frame, b"\"}\n")
}

/// Appends the object of the end of a flow.
fn append_flow(text: &mut Text, carries: &[u8]) -> Result<(), AllocError>
    ensures { OnOk result (text.new ≡ text.old ++ flow_object carries.now) }
{
    text.extend_from_slice(b"{\"line\":\"flow\",\"carries\":")?;
    text.extend_from_slice(carries)?;
    text.extend_from_slice(b"}\n")
}

/// Appends the object of an event that is refused.
fn append_refused(text: &mut Text, number: &[u8], name: &[u8]) -> Result<(), AllocError>
    ensures { OnOk result (text.new ≡ text.old ++ refused_object number.now name.now) }
{
    let before = b"{\"line\":\"refused\",\"number\":";
    append_values(text, before, number, b",\"fault\":\"", name, b"\"}\n")
}

/// Appends the object of the copies that are in flight at the end.
fn append_flight(text: &mut Text, copies: &[u8]) -> Result<(), AllocError>
    ensures { OnOk result (text.new ≡ text.old ++ flight_object copies.now) }
{
    text.extend_from_slice(b"{\"line\":\"flight\",\"copies\":")?;
    text.extend_from_slice(copies)?;
    text.extend_from_slice(b"}\n")
}

/// Appends the object of how a node settled.
fn append_node(text: &mut Text, node: &[u8], state: &[u8]) -> Result<(), AllocError>
    ensures { OnOk result (text.new ≡ text.old ++ node_object node.now state.now) }
{
    let before = b"{\"line\":\"node\",\"node\":";
    append_values(text, before, node, b",\"state\":\"", state, b"\"}\n")
}

/// Appends the object of how much a node lost.
fn append_lost(text: &mut Text, node: &[u8], frames: &[u8]) -> Result<(), AllocError>
    ensures { OnOk result (text.new ≡ text.old ++ lost_object node.now frames.now) }
{
    let before = b"{\"line\":\"lost\",\"node\":";
    append_values(text, before, node, b",\"frames\":", frames, b"}\n")
}

/// What a line of two values tells.
#[derive(Clone, Copy)]
enum Pair {
    Up,
    Refused,
    Node,
    Lost,
}

/// Appends the object of a line of two values, of which this is what stands behind its word.
fn append_pair(text: &mut Text, pair: Pair, line: &[u8], rest: &[u8]) -> Result<(), AllocError>
    ensures up { (node frame : List ℕ) → pair ≡ Pair.Up → Lacks 32 node
        → rest.now ≡ node ++ 32 ∷ frame
        → OnOk result (text.new ≡ text.old ++ up_object node frame) }
    ensures refused { (number name : List ℕ) → pair ≡ Pair.Refused → Lacks 32 number
        → rest.now ≡ number ++ 32 ∷ name
        → OnOk result (text.new ≡ text.old ++ refused_object number name) }
    ensures node { (node state : List ℕ) → pair ≡ Pair.Node → Lacks 32 node
        → rest.now ≡ node ++ 32 ∷ state
        → OnOk result (text.new ≡ text.old ++ node_object node state) }
    ensures lost { (node frames : List ℕ) → pair ≡ Pair.Lost → Lacks 32 node
        → rest.now ≡ node ++ 32 ∷ frames
        → OnOk result (text.new ≡ text.old ++ lost_object node frames) }
{
    let Some((first, second)) = split_word(rest) else {
        return append_other(text, line);
    };
    match pair {
        Pair::Up => append_up(text, first, second),
        Pair::Refused => append_refused(text, first, second),
        Pair::Node => append_node(text, first, second),
        Pair::Lost => append_lost(text, first, second),
    }
}

/// Appends the object of a line, which is without its LF.
///
/// # Errors
/// An allocation failed. What was appended is then a part of the object.
pub fn append_object(text: &mut Text, line: &[u8]) -> Result<(), AllocError>
    ensures up { (node frame : List ℕ) → Lacks 32 node
        → line.now ≡ codes "up " ++ (node ++ 32 ∷ frame)
        → OnOk result (text.new ≡ text.old ++ up_object node frame) }
    ensures flow { (carries : List ℕ) → line.now ≡ codes "flow " ++ carries
        → OnOk result (text.new ≡ text.old ++ flow_object carries) }
    ensures refused { (number name : List ℕ) → Lacks 32 number
        → line.now ≡ codes "refused " ++ (number ++ 32 ∷ name)
        → OnOk result (text.new ≡ text.old ++ refused_object number name) }
    ensures flight { (copies : List ℕ) → line.now ≡ codes "flight " ++ copies
        → OnOk result (text.new ≡ text.old ++ flight_object copies) }
    ensures node { (node state : List ℕ) → Lacks 32 node
        → line.now ≡ codes "node " ++ (node ++ 32 ∷ state)
        → OnOk result (text.new ≡ text.old ++ node_object node state) }
    ensures lost { (node frames : List ℕ) → Lacks 32 node
        → line.now ≡ codes "lost " ++ (node ++ 32 ∷ frames)
        → OnOk result (text.new ≡ text.old ++ lost_object node frames) }
{
    if let Some(rest) = line.strip_prefix(b"up ".as_slice()) {
        return append_pair(text, Pair::Up, line, rest);
    }
    if let Some(carries) = line.strip_prefix(b"flow ".as_slice()) {
        return append_flow(text, carries);
    }
    if let Some(rest) = line.strip_prefix(b"refused ".as_slice()) {
        return append_pair(text, Pair::Refused, line, rest);
    }
    if let Some(copies) = line.strip_prefix(b"flight ".as_slice()) {
        return append_flight(text, copies);
    }
    if let Some(rest) = line.strip_prefix(b"node ".as_slice()) {
        return append_pair(text, Pair::Node, line, rest);
    }
    if let Some(rest) = line.strip_prefix(b"lost ".as_slice()) {
        return append_pair(text, Pair::Lost, line, rest);
    }
    append_other(text, line)
}
