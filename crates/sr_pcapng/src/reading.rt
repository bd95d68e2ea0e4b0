//! What a block means where it stands.

ghost use Rattle.std.specs.Prelude.{◌≡◌, ◌≢◌, Some, ℕ, List, length, OnOk, IfOk, IfErr};
ghost use Rattle.sr_capture.specs.Records.{Captured};
ghost use Rattle.sr_pcapng.specs.declared.block.Kind.TheVariants.{Section as SectionKind};
ghost use Rattle.sr_pcapng.specs.Blocks.{kind_of, IsBlock};
ghost use Rattle.sr_pcapng.specs.PacketBlocks.{Gives};
ghost use Rattle.sr_pcapng.specs.Steps.{order_in, begun, in_section, IsHeader, IsWrongSection, MeansWithin, IsWrongWithin, Means, IsWrong};

use crate::block::{Kind, kind_of};
use crate::enhanced::{read_enhanced, read_obsolete};
use crate::interface::read_interface;
use crate::simple::read_simple;
use crate::statistics::dropped_in;
use crate::track::{Section, Track};
use sr_capture::{ByteOrder, Packet, Reason, half_at};

/// The length of a section header without options.
const MIN_HEADER_LEN: usize = 28;

/// The version of the format.
const VERSION: u16 = 1;

/// Begins a section.
fn read_section(track: &mut Track, order: ByteOrder, octets: &[u8]) -> Result<(), Reason>
    ensures read { OnOk result (IsHeader order octets.now
        × (track.new ≡ in_section track.old (begun order))) }
    ensures refused { IfErr result (λ reason. IsWrongSection order octets.now reason) }
{
    if octets.len() < MIN_HEADER_LEN {
        return Err(Reason::Length);
    }
    if half_at(order, octets, 12) != VERSION {
        return Err(Reason::Version);
    }
    track.section = Some(Section {
        order,
        count: 0,
        taken: None,
    });
    Ok(())
}

/// Reads a block within a section. True where it is a packet of the interface that is wanted.
fn read_within(
    kind: Kind,
    track: &mut Track,
    section: &Section,
    octets: &[u8],
    packet: &mut Packet,
) -> Result<bool, Reason>
    requires { kind ≢ SectionKind }
    ensures read { IfOk result (λ more.
        (shown : List Captured) × MeansWithin kind track.old section.now octets.now shown track.new
        × Gives more shown packet.new) }
    ensures refused { IfErr result (λ reason.
        IsWrongWithin kind track.old section.now octets.now reason) }
{
    match kind {
        Kind::Interface => {
            match read_interface(track.wanted, track.check_len, section, octets) {
                Ok(after) => {
                    track.section = Some(after);
                    Ok(false)
                }
                Err(reason) => Err(reason),
            }
        }
        Kind::Enhanced => read_enhanced(track.wanted, section, octets, packet),
        Kind::Obsolete => read_obsolete(track.wanted, section, octets, packet),
        Kind::Simple => read_simple(track.wanted, section, octets, packet),
        Kind::Statistics => {
            if let Some(count) = dropped_in(section, octets) {
                track.dropped = Some(count);
            }
            Ok(false)
        }
        Kind::Section | Kind::Other => Ok(false),
    }
}

/// Reads a block. True where it is a packet of the interface that is wanted.
///
/// # Errors
/// The reason why it is refused.
pub(crate) fn read_block(
    track: &mut Track,
    order: ByteOrder,
    octets: &[u8],
    packet: &mut Packet,
) -> Result<bool, Reason>
    requires { IsBlock (order_in track.old.section) octets.now order }
    ensures read { IfOk result (λ more. (shown : List Captured)
        × Means (kind_of order octets.now) track.old order octets.now shown track.new
        × Gives more shown packet.new) }
    ensures refused { IfErr result (λ reason.
        IsWrong (kind_of order octets.now) track.old order octets.now reason) }
{
    match kind_of(order, octets) {
        Kind::Section => match read_section(track, order, octets) {
            Ok(()) => Ok(false),
            Err(reason) => Err(reason),
        },
        kind => {
            let Some(section) = track.section else {
                return Err(Reason::Unknown);
            };
            read_within(kind, track, &section, octets, packet)
        }
    }
}
