//! Writing a file: its head, and then a packet at a time, piece by piece and without memory: give it a writer with a buffer.

ghost use Rattle.std.specs.Prelude.{◌≡◌, ◌<◌, ◌≤◌, ◌+◌, ◌^◌, ◌++◌, length, OnOk};
ghost use Rattle.std.specs.Io.KnownBytes.{Appends};
ghost use Rattle.sr_pcapng.specs.Options.{padded};
ghost use Rattle.sr_pcapng.specs.Writing.{half_octets, word_octets, filling, option_of, lane_number, lane_name, header_block, described, description, file_head, written_of, comment_part, comment_size, packet_size, front_of, block_of, packet_block};

use crate::lanes::{Entry, Lane, Names};
use crate::options::padded;
use std::io::{self, Write};

/// The types of blocks.
const SECTION_HEADER: u32 = 0x0A0D_0D0A;

const INTERFACE: u32 = 1;

const ENHANCED: u8 = 6;

/// What tells the order of octets in a section header.
const MAGIC: u32 = 0x1A2B_3C4D;

/// The length of a section that is not told, in two words.
const NOT_TOLD: u32 = 0xFFFF_FFFF;

/// The length of a section header without options.
const HEADER_LEN: u32 = 28;

/// The length of the description of an interface whose name has no octets.
const DESCRIPTION_LEN: u32 = 36;

/// The length of the block of a packet without octets.
const PACKET_LEN: u32 = 32;

/// The length of a comment without octets, with the end of options behind it.
const COMMENT_LEN: u32 = 8;

/// The link type of Ethernet.
const ETHERNET: u16 = 1;

/// The options that are written.
const COMMENT: u16 = 1;

const NAME: u16 = 2;

const RESOLUTION: u16 = 9;

/// The unit of times: a second by 10 to this power.
const NANOSECONDS: u8 = 9;

/// Writes a number of 16 bits.
fn write_half<W: Write>(writer: &mut W, number: u16) -> io::Result<()>
    ensures { OnOk result (Appends (W.contents writer.old) (W.contents writer.new)
        (half_octets number)) }
{
    writer.write_all(&number.to_le_bytes())
}

/// Writes a number of 32 bits.
fn write_word<W: Write>(writer: &mut W, number: u32) -> io::Result<()>
    ensures { OnOk result (Appends (W.contents writer.old) (W.contents writer.new)
        (word_octets number)) }
{
    writer.write_all(&number.to_le_bytes())
}

/// Writes the zeros behind so many octets that fill up four.
fn write_filling<W: Write>(writer: &mut W, len: usize) -> io::Result<()>
    ensures { OnOk result (Appends (W.contents writer.old) (W.contents writer.new)
        (filling len)) }
{
    writer.write_all(&[0, 0, 0][..(4 - len % 4) % 4])
}

/// Writes an option.
fn write_option<W: Write>(writer: &mut W, code: u16, value: &[u8]) -> io::Result<()>
    requires { length value.now < 2 ^ 16 }
    ensures { OnOk result (Appends (W.contents writer.old) (W.contents writer.new)
        (option_of code value.now)) }
{
    write_half(writer, code)?;
    write_half(writer, value.len() as u16)?;
    writer.write_all(value)?;
    write_filling(writer, value.len())
}

/// The number of an interface.
fn lane_number(lane: Lane) -> u32
    ensures { result ≡ lane_number lane }
{
    match lane {
        Lane::A => 0,
        Lane::B => 1,
    }
}

/// The name of an interface.
fn lane_name(names: Names, lane: Lane) -> &'static [u8]
    ensures name { result.now ≡ lane_name names lane }
    ensures short { length result.now ≤ 6 }
{
    match (names, lane) {
        (Names::Lan, Lane::A) => b"lan-a",
        (Names::Lan, Lane::B) => b"lan-b",
        (Names::Ring, Lane::A) => b"ring-a",
        (Names::Ring, Lane::B) => b"ring-b",
    }
}

/// Writes a section header.
fn write_header<W: Write>(writer: &mut W) -> io::Result<()>
    ensures { OnOk result (Appends (W.contents writer.old) (W.contents writer.new)
        header_block) }
{
    write_word(writer, SECTION_HEADER)?;
    write_word(writer, HEADER_LEN)?;
    write_word(writer, MAGIC)?;
    write_half(writer, 1)?;
    write_half(writer, 0)?;
    write_word(writer, NOT_TOLD)?;
    write_word(writer, NOT_TOLD)?;
    write_word(writer, HEADER_LEN)
}

/// Writes the description of an interface, in a block of this length.
fn write_described<W: Write>(writer: &mut W, size: u32, name: &[u8]) -> io::Result<()>
    requires { length name.now ≤ 6 }
    ensures { OnOk result (Appends (W.contents writer.old) (W.contents writer.new)
        (described size name.now)) }
{
    write_word(writer, INTERFACE)?;
    write_word(writer, size)?;
    write_half(writer, ETHERNET)?;
    write_half(writer, 0)?;
    write_word(writer, 0)?;
    write_option(writer, NAME, name)?;
    write_option(writer, RESOLUTION, &[NANOSECONDS])?;
    write_word(writer, 0)?;
    write_word(writer, size)
}

/// Writes the description of an interface.
fn write_description<W: Write>(writer: &mut W, name: &[u8]) -> io::Result<()>
    requires { length name.now ≤ 6 }
    ensures { OnOk result (Appends (W.contents writer.old) (W.contents writer.new)
        (description name.now)) }
{
    let size = DESCRIPTION_LEN + padded(name.len() as u32) as u32;
    write_described(writer, size, name)
}

/// Writes what stands before the first packet: a section header, and the descriptions of two interfaces of Ethernet, whose times
/// are in nanoseconds. It takes no memory.
///
/// # Errors
/// Those of the writer.
pub fn write_head<W: Write>(writer: &mut W, names: Names) -> io::Result<()>
    ensures { OnOk result (Appends (W.contents writer.old) (W.contents writer.new)
        (file_head names)) }
{
    write_header(writer)?;
    write_description(writer, lane_name(names, Lane::A))?;
    write_description(writer, lane_name(names, Lane::B))
}

/// How many octets a comment and the end of options have.
fn comment_size(len: usize) -> u32
    requires { len < 2 ^ 16 }
    ensures size { result ≡ comment_size len }
    ensures short { result ≤ 2 ^ 16 + 8 }
{
    if len == 0 {
        return 0;
    }
    COMMENT_LEN + padded(len as u32) as u32
}

/// How many octets the block of a packet has.
fn packet_size(packet: &Entry<'_>) -> u32
    ensures { result ≡ packet_size (written_of packet.now) }
{
    PACKET_LEN + padded(packet.octets.len() as u32) as u32 + comment_size(packet.comment.len())
}

/// Writes a comment and the end of options, where there is a comment.
fn write_comment<W: Write>(writer: &mut W, comment: &[u8]) -> io::Result<()>
    requires { length comment.now < 2 ^ 16 }
    ensures { OnOk result (Appends (W.contents writer.old) (W.contents writer.new)
        (comment_part comment.now)) }
{
    if comment.is_empty() {
        return Ok(());
    }
    write_option(writer, COMMENT, comment)?;
    write_word(writer, 0)
}

/// Writes what stands before the octets of a packet.
fn write_front<W: Write>(
    writer: &mut W,
    size: u32,
    number: u32,
    time: u64,
    held: u32,
    len: u32,
) -> io::Result<()>
    ensures { OnOk result (Appends (W.contents writer.old) (W.contents writer.new)
        (front_of size number time held len)) }
{
    let high = (time / 0x1_0000_0000) as u32;
    let low = (time % 0x1_0000_0000) as u32;
    let [s0, s1, s2, s3] = size.to_le_bytes();
    let [n0, n1, n2, n3] = number.to_le_bytes();
    let [h0, h1, h2, h3] = high.to_le_bytes();
    let [l0, l1, l2, l3] = low.to_le_bytes();
    let [held0, held1, held2, held3] = held.to_le_bytes();
    let [len0, len1, len2, len3] = len.to_le_bytes();
    writer.write_all(&[
        ENHANCED, 0, 0, 0, s0, s1, s2, s3, n0, n1, n2, n3, h0, h1, h2, h3, l0, l1, l2, l3, held0,
        held1, held2, held3, len0, len1, len2, len3,
    ])
}

/// Writes the block of a packet, of this length, at the interface of this number.
fn write_block<W: Write>(
    writer: &mut W,
    size: u32,
    number: u32,
    packet: &Entry<'_>,
) -> io::Result<()>
    ensures { OnOk result (Appends (W.contents writer.old) (W.contents writer.new)
        (block_of size number (written_of packet.now))) }
{
    let held = packet.octets.len();
    write_front(writer, size, number, packet.time, held as u32, packet.len)?;
    writer.write_all(packet.octets)?;
    write_filling(writer, held)?;
    write_comment(writer, packet.comment)?;
    write_word(writer, size)
}

/// Writes the block of a packet. It takes no memory.
///
/// # Errors
/// Those of the writer.
pub fn write_packet<W: Write>(writer: &mut W, packet: &Entry<'_>) -> io::Result<()>
    ensures { OnOk result (Appends (W.contents writer.old) (W.contents writer.new)
        (packet_block (written_of packet.now))) }
{
    write_block(
        writer,
        packet_size(packet),
        lane_number(packet.lane),
        packet,
    )
}
