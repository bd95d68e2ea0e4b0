//! Going over captures for what is told of their sources.

ghost use Rattle.std.specs.Prelude.{◌≡◌, ◌⊎◌, ◌++◌, ◌∷◌, ◌&&◌, [], true, false, is_some, List, ℕ, Option, OnOk, IfOk, IfErr};
ghost use Rattle.sr_capture.specs.Records.{Captured, Shows};
ghost use Rattle.sr_capture_audit.specs.Spanning.{AreSpansOfAll};
ghost use Rattle.sr_capture_script.specs.declared.choice.Inlet.TheVariants.{A as AtA, B as AtB, C as AtC};
ghost use Rattle.sr_capture_script.specs.Merging.{feed_of};
ghost use Rattle.sr_capture_script.specs.Passing.{TakesWanted, EndsFor};
ghost use Rattle.sr_capture_script.specs.SourceViews.{IsFed};
ghost use Rattle.sr_forwarding.specs.Decoding.{IsRead, IsUnread};
ghost use Rattle.sr_forwarding.specs.Octets.{is_supervision};
ghost use Rattle.sr_forwarding.specs.Parcels.{plain_of};
ghost use Rattle.sr_sources.specs.Sources.{Noted};
ghost use Rattle.sr_capture_sources.specs.Sighting.{
  lan_at,
  lan_framing,
  is_of_link,
  ends_like_trailer,
  is_telling,
  is_astray_in,
  noted_of,
  noted_behind,
  noted_box,
  noted_sign,
  AreSigns,
  AreSignsIf,
  IsWholePacket,
  IsNoWholePacket,
  KeepsSources,
  AreSourcesOfAll,
};

use sr_audit::Spans;
use sr_capture::{Extent, MAX_KEPT, Packet};
use sr_capture_audit::{Network, Ports, Subject, spans_beside};
use sr_capture_script::{Captures, Choice, Inlet, Pass, Place, ScriptFault};
use sr_forwarding::{Framing, HsrFraming, ParcelView, PrpFraming, ReadFault};
use sr_frame::Mac;
use sr_prp_trailer::Lan;
use sr_slots::Keys;
use sr_sources::{Event, Glimpse, Sources};
use sr_supervision::{Supervision, read};
use std::alloc::Global;
use std::io::BufRead;

/// The sources so far.
#[derive(Drop)]
struct Sighting {
    subject: Subject,
    sources: Sources,
}

/// The LAN of a capture, if it is one of the audit.
fn lan_at(ports: Ports, inlet: Inlet) -> Option<Lan>
    ensures { result ≡ lan_at ports inlet }
{
    match (ports, inlet) {
        (Ports::Two, Inlet::B) => Some(Lan::B),
        (Ports::Two, Inlet::A) | (Ports::Mirror, Inlet::A) => Some(Lan::A),
        _ => None,
    }
}

/// Whether all of a packet is there, and it is no longer than a frame.
fn is_whole(packet: &Packet) -> bool
    ensures whole { result ≡ true → (captured : Captured) → Shows packet.now captured
        → IsWholePacket captured }
    ensures not_whole { result ≡ false → (captured : Captured) → Shows packet.now captured
        → IsNoWholePacket captured }
{
    match packet.extent {
        Extent::Cut => false,
        Extent::Whole => packet.len <= MAX_KEPT as u64,
    }
}

/// What the framing of a LAN answers to octets.
fn read_in<'a>(network: Network, lan: Lan, octets: &'a [u8]) -> Result<ParcelView<'a>, ReadFault>
    ensures ok { IfOk result (λ p. IsRead (lan_framing network lan) octets.now p) }
    ensures err { IfErr result (λ e. IsUnread (lan_framing network lan) octets.now e) }
{
    match network {
        Network::Prp => PrpFraming { lan, net: 0 }.read(octets),
        Network::Hsr => HsrFraming { path: 0 }.read(octets),
    }
}

/// Whether a frame to an address stays on its link, or is one of PTP or MRP.
fn is_of_link(dst: Mac) -> bool
    ensures { result ≡ is_of_link dst }
{
    let octets = dst.0;
    octets.starts_with(&[0x01, 0x80, 0xC2])
        || octets.starts_with(&[0x01, 0x1B, 0x19])
        || octets.starts_with(&[0x01, 0x15, 0x4E, 0x00, 0x00])
}

/// Whether octets end as a trailer does.
fn ends_like_trailer(octets: &[u8]) -> bool
    ensures { result ≡ ends_like_trailer octets.now }
{
    octets.ends_with(&[0x88, 0xFB])
}

/// Whether a frame tells of its source.
fn is_telling(octets: &[u8], parcel: &ParcelView<'_>) -> bool
    ensures { result ≡ is_telling octets.now parcel.now }
{
    parcel.seq().is_some() || !(is_of_link(parcel.header().dst) || ends_like_trailer(octets))
}

/// Whether a trailer names the other LAN.
fn is_astray_in(ports: Ports, parcel: &ParcelView<'_>) -> bool
    ensures { result ≡ is_astray_in ports parcel.now }
{
    match ports {
        Ports::Two => parcel.wrong_lan(),
        Ports::Mirror => false,
    }
}

/// Notes what is told of a source.
fn note(sources: &mut Sources, mac: Mac, event: Event) -> Result<(), ScriptFault>
    ensures taken { OnOk result ((told : List Noted) → KeepsSources told sources.old
        → KeepsSources ((mac, event) ∷ told) sources.new) }
    ensures refused { IfErr result (λ fault. fault ≡ ScriptFault.NoMemory) }
{
    sources.note(mac, event)?;
    Ok(())
}

/// Notes what a frame tells of its source.
fn note_frame(
    sources: &mut Sources,
    subject: Subject,
    lan: Lan,
    time: u64,
    octets: &[u8],
    parcel: &ParcelView<'_>,
) -> Result<(), ScriptFault>
    ensures taken { OnOk result ((told : List Noted) → KeepsSources told sources.old
        → KeepsSources (noted_of subject lan time octets.now parcel.now ++ told) sources.new) }
    ensures refused { IfErr result (λ fault. fault ≡ ScriptFault.NoMemory) }
{
    if !is_telling(octets, parcel) {
        return Ok(());
    }
    let glimpse = Glimpse {
        time,
        number: parcel.seq(),
        is_astray: is_astray_in(subject.ports, parcel),
    };
    note(sources, parcel.header().src, Event::Frame(lan, glimpse))
}

/// Notes that a node stands behind a RedBox, unless it is the RedBox.
fn note_behind(sources: &mut Sources, mac: Mac, redbox: Mac) -> Result<(), ScriptFault>
    ensures taken { OnOk result ((told : List Noted) → KeepsSources told sources.old
        → KeepsSources (noted_behind mac redbox ++ told) sources.new) }
    ensures refused { IfErr result (λ fault. fault ≡ ScriptFault.NoMemory) }
{
    if mac == redbox {
        return Ok(());
    }
    note(sources, mac, Event::Behind(redbox))
}

/// Takes the RedBox that supervision names.
fn note_box(sources: &mut Sources, mac: Mac, redbox: Option<Mac>) -> Result<(), ScriptFault>
    ensures taken { OnOk result ((told : List Noted) → KeepsSources told sources.old
        → KeepsSources (noted_box mac redbox ++ told) sources.new) }
    ensures refused { IfErr result (λ fault. fault ≡ ScriptFault.NoMemory) }
{
    let Some(redbox) = redbox else {
        return Ok(());
    };
    note(sources, redbox, Event::IsBox)?;
    note_behind(sources, mac, redbox)
}

/// Takes what supervision tells.
fn note_sign(sources: &mut Sources, said: &Supervision) -> Result<(), ScriptFault>
    ensures taken { OnOk result ((told : List Noted) → KeepsSources told sources.old
        → KeepsSources (noted_sign said.now ++ told) sources.new) }
    ensures refused { IfErr result (λ fault. fault ≡ ScriptFault.NoMemory) }
{
    note(sources, said.mac, Event::Alive(said.life))?;
    note_box(sources, said.mac, said.redbox)
}

/// Takes what supervision tells that can be read.
fn note_said(sources: &mut Sources, parcel: &ParcelView<'_>) -> Result<(), ScriptFault>
    ensures taken { OnOk result ((own : List Noted) × AreSigns (plain_of parcel.now) own
        × ((told : List Noted) → KeepsSources told sources.old
        → KeepsSources (own ++ told) sources.new)) }
    ensures refused { IfErr result (λ fault. fault ≡ ScriptFault.NoMemory) }
{
    match read(&parcel.plain()) {
        Ok(said) => note_sign(sources, &said),
        Err(_) => Ok(()),
    }
}

/// Takes what a frame tells, if it is supervision.
fn note_signs(sources: &mut Sources, parcel: &ParcelView<'_>) -> Result<(), ScriptFault>
    ensures taken { OnOk result ((own : List Noted)
        × AreSignsIf (is_some parcel.now.seq && is_supervision (plain_of parcel.now))
        (plain_of parcel.now) own
        × ((told : List Noted) → KeepsSources told sources.old
        → KeepsSources (own ++ told) sources.new)) }
    ensures refused { IfErr result (λ fault. fault ≡ ScriptFault.NoMemory) }
{
    if parcel.seq().is_some() && parcel.header().supervision {
        return note_said(sources, parcel);
    }
    Ok(())
}

/// Takes what a frame tells of its source, and what supervision does in it.
fn note_parcel(
    sources: &mut Sources,
    subject: Subject,
    lan: Lan,
    time: u64,
    octets: &[u8],
    parcel: &ParcelView<'_>,
) -> Result<(), ScriptFault>
    ensures taken { OnOk result ((own : List Noted)
        × AreSignsIf (is_some parcel.now.seq && is_supervision (plain_of parcel.now))
        (plain_of parcel.now) own
        × ((told : List Noted) → KeepsSources told sources.old
        → KeepsSources
        (own ++ (noted_of subject lan time octets.now parcel.now ++ told)) sources.new)) }
    ensures refused { IfErr result (λ fault. fault ≡ ScriptFault.NoMemory) }
{
    note_frame(sources, subject, lan, time, octets, parcel)?;
    note_signs(sources, parcel)
}

impl Pass for Sighting {
    ghost use Rattle.std.specs.Prelude.{◌≡◌};
    ghost use Rattle.sr_capture_script.specs.declared.fault.ScriptFault.TheVariants.{NoMemory as OutOfMemory};
    ghost use Rattle.sr_capture_sources.specs.Sighting.{SightsMore};

    ghost takes = { λ old x new. SightsMore x old new };

    ghost refuses = { λ fault. fault ≡ OutOfMemory };

    fn take(&mut self, place: Place, packet: &Packet) -> Result<(), ScriptFault> {
        let Some(lan) = lan_at(self.subject.ports, place.inlet) else {
            return Ok(());
        };
        if !is_whole(packet) {
            return Ok(());
        }
        let octets = packet.octets.as_slice();
        match read_in(self.subject.network, lan, octets) {
            Ok(parcel) => note_parcel(
                &mut self.sources,
                self.subject,
                lan,
                place.time,
                octets,
                &parcel,
            ),
            Err(_fault) => Ok(()),
        }
    }
}

/// The sources so far, beside another pass.
#[derive(Drop)]
struct Beside<P> {
    sighting: Sighting,
    other: P,
}

impl<P: Pass> Pass for Beside<P> {
    ghost use Rattle.std.specs.Prelude.{◌≡◌, ◌⊎◌};
    ghost use Rattle.sr_capture_script.specs.declared.fault.ScriptFault.TheVariants.{NoMemory as OutOfMemory};
    ghost use Rattle.sr_capture_sources.specs.Sighting.{SightsBeside};

    ghost takes = { λ old x new. SightsBeside P.takes x old new };

    ghost refuses = { λ fault. (fault ≡ OutOfMemory) ⊎ P.refuses fault };

    fn take(&mut self, place: Place, packet: &Packet) -> Result<(), ScriptFault> {
        self.sighting.take(place, packet)?;
        self.other.take(place, packet)
    }
}

/// What one reading of captures tells beside another pass.
#[derive(Drop)]
pub struct Told<P> {
    /// When the captures begin and end.
    pub spans: Spans,
    /// The sources of which the packets tell.
    pub sources: Sources,
    /// The other pass, once it took them.
    pub other: P,
}

/// When the captures begin and end, and the sources of which the wanted packets tell, of both captures or of a mirror port, by one reading
/// with another pass.
///
/// # Errors
/// The fault of a file, `NoMemory`, those of the other pass, or `Endless` behind 2^64 - 1 packets.
pub fn sources_beside<R: BufRead + Drop, P: Pass + Drop>(
    alloc: Global,
    keys: Keys,
    captures: &mut Captures<R>,
    choice: &Choice,
    subject: Subject,
    other: P,
) -> Result<Told<P>, ScriptFault>
    // The spans are those of all packets that are wanted.
    ensures spans { IfOk result (λ told. (start_a start_b start_c : Option (List ℕ))
        → IsFed R.remaining AtA start_a captures.old.a []
        → IsFed R.remaining AtB start_b captures.old.b []
        → IsFed R.remaining AtC start_c captures.old.c []
        → AreSpansOfAll choice.now subject (feed_of captures.old.a start_a)
        (feed_of captures.old.b start_b) (feed_of captures.old.c start_c) told.spans) }

    // The sources are those of all packets that are wanted, of each all that these tell of it.
    ensures sources { IfOk result (λ told. (start_a start_b start_c : Option (List ℕ))
        → IsFed R.remaining AtA start_a captures.old.a []
        → IsFed R.remaining AtB start_b captures.old.b []
        → IsFed R.remaining AtC start_c captures.old.c []
        → AreSourcesOfAll choice.now subject (feed_of captures.old.a start_a)
        (feed_of captures.old.b start_b) (feed_of captures.old.c start_c) told.sources) }

    // The other pass takes each of these packets once, in order of time.
    ensures takes { IfOk result (λ told. (start_a start_b start_c : Option (List ℕ))
        → IsFed R.remaining AtA start_a captures.old.a []
        → IsFed R.remaining AtB start_b captures.old.b []
        → IsFed R.remaining AtC start_c captures.old.c []
        → TakesWanted P.takes choice.now (feed_of captures.old.a start_a)
        (feed_of captures.old.b start_b) (feed_of captures.old.c start_c) other told.other) }

    // What ends it early is a fault of a file, behind all of its packets that came, more packets than are counted, memory, or a
    // fault of the other pass.
    ensures ends { IfErr result (λ fault. (start_a start_b start_c : Option (List ℕ))
        → IsFed R.remaining AtA start_a captures.old.a []
        → IsFed R.remaining AtB start_b captures.old.b []
        → IsFed R.remaining AtC start_c captures.old.c []
        → EndsFor (λ own. (own ≡ ScriptFault.NoMemory) ⊎ P.refuses own)
        (feed_of captures.old.a start_a) (feed_of captures.old.b start_b)
        (feed_of captures.old.c start_c) fault) }
{
    let pass = Beside {
        sighting: Sighting {
            subject,
            sources: Sources::new(alloc, keys),
        },
        other,
    };
    let told = spans_beside(captures, choice, subject, pass)?;
    Ok(Told {
        spans: told.0,
        sources: told.1.sighting.sources,
        other: told.1.other,
    })
}
