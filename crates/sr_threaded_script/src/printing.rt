//! What is printed of the nodes of a threaded network.

ghost use Rattle.std.specs.Prelude.{◌≡◌, ◌++◌, OnOk};
ghost use Rattle.std.specs.Fmt.{decimal};
ghost use Rattle.sr_plant_script.specs.Texts.{up_line};
ghost use Rattle.sr_threaded_script.specs.Reports.{worker_word, settled_line, lost_line, given_lines, node_lines};

use itoa::Buffer;
use sr_frame::Frame;
use sr_ports::{Settlement, Worker};
use sr_text::Text;
use std::alloc::AllocError;

// Appends the digits of a number.
fn append_number(text: &mut Text, number: u64) -> Result<(), AllocError>
    ensures { OnOk result (text.new ≡ text.old ++ decimal number) }
{
    let mut digits = Buffer::new();
    text.extend_from_slice(digits.format(number).as_bytes())
}

// Appends the line for a frame that the host of a node was given.
fn append_up(text: &mut Text, node: usize, frame: &Frame) -> Result<(), AllocError>
    ensures { OnOk result (text.new ≡ text.old ++ up_line node frame.now) }
{
    text.extend_from_slice(b"up ")?;
    append_number(text, node as u64)?;
    text.append_hex_line(b" ", frame.octets(), &[])
}

// Appends the lines for all that it was given.
fn append_ups(text: &mut Text, node: usize, given: &[Frame]) -> Result<(), AllocError>
    ensures { OnOk result (text.new ≡ text.old ++ given_lines node given.now) }
{
    let mut rest = given;
    while let Some((frame, behind)) = rest.split_first() {
        rest = behind;
        append_up(text, node, frame)?;
    }
    Ok(())
}

// A worker, as a word.
fn worker_word(worker: Worker) -> &'static str
    ensures { result.now ≡ worker_word worker }
{
    match worker {
        Worker::A => "A",
        Worker::B => "B",
        Worker::C => "C",
        Worker::Ager => "Ager",
        Worker::Host => "Host",
    }
}

// Appends how a node settled.
fn append_node(text: &mut Text, node: usize, settlement: Settlement) -> Result<(), AllocError>
    ensures { OnOk result (text.new ≡ text.old ++ settled_line node settlement) }
{
    text.extend_from_slice(b"node ")?;
    append_number(text, node as u64)?;
    match settlement {
        Settlement::Settled => text.extend_from_slice(b" settled\n"),
        Settlement::Disagrees(worker) => {
            text.extend_from_slice(b" disagrees ")?;
            text.extend_from_slice(worker_word(worker).as_bytes())?;
            text.extend_from_slice(b"\n")
        }
        Settlement::Torn(_) => text.extend_from_slice(b" torn\n"),
    }
}

// Appends how much a node lost.
fn append_lost(text: &mut Text, node: usize, lost: u64) -> Result<(), AllocError>
    ensures { OnOk result (text.new ≡ text.old ++ lost_line node lost) }
{
    text.extend_from_slice(b"lost ")?;
    append_number(text, node as u64)?;
    text.extend_from_slice(b" ")?;
    append_number(text, lost)?;
    text.extend_from_slice(b"\n")
}

/// Appends what is printed of a node: what its host was given, how it settled, and how much it lost.
pub(crate) fn append_report(
    text: &mut Text,
    node: usize,
    given: &[Frame],
    settlement: Settlement,
    lost: u64,
) -> Result<(), AllocError>
    ensures { OnOk result (text.new ≡ text.old ++ node_lines node given.now settlement lost) }
{
    append_ups(text, node, given)?;
    append_node(text, node, settlement)?;
    append_lost(text, node, lost)
}
