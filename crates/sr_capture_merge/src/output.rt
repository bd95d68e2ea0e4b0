//! The file that is written.

ghost use Rattle.std.specs.Prelude.{◌≡◌, ◌++◌, ◌<◌, ◌^◌, ℕ, length, codes, decimal, OnOk, IfOk, IfErr};
ghost use Rattle.sr_pcapng.specs.Writing.{written_of};
ghost use Rattle.std.specs.Io.KnownBytes.{Appends};
ghost use Rattle.sr_capture_merge.specs.Counting.{with_packet, counted_written};
ghost use Rattle.sr_capture_merge.specs.Entries.{names_of, side_interface, written_time, first_octets, entry_of, entry_block, is_shown, piece_by};
ghost use Rattle.sr_capture_merge.specs.Remarks.{alone_remark, astray_remark, remark_of};
ghost use Rattle.sr_merge.specs.Merging.{packet_of};

use crate::counts::{Counts, more};
use crate::plan::{Plan, Scope};
use itoa::Buffer;
use sr_audit::Side;
use sr_capture_audit::Network;
use sr_capture_script::ScriptFault;
use sr_merge::{Verdict, Waiting};
use sr_pcapng::{Entry, Lane, MAX_WRITTEN, Names, write_head, write_packet};
use sr_sequence::Seq;
use std::alloc::Global;
use std::io::Write;

/// The latest time that a file tells, in nanoseconds since 1970.
const LATEST: u64 = 0x7FFF_FFFF_FFFF_FFFF;

/// How packets are written, and what was written.
#[derive(Drop)]
pub(crate) struct Output {
    pub plan: Plan,
    /// The time of the earliest packet, in nanoseconds since 1970.
    pub start: u64,
    /// What is said of the packet that was taken last.
    pub comment: Vec<u8>,
    pub counts: Counts,
}

/// The names of the interfaces.
fn names_of(network: Network) -> Names
    ensures { result ≡ names_of network }
{
    match network {
        Network::Prp => Names::Lan,
        Network::Hsr => Names::Ring,
    }
}

/// What is said of a frame of which no copy came by the other side, up to the number of its packet.
fn alone_words(network: Network, side: Side) -> &'static str
    ensures { (number seq : ℕ) → result.now ++ decimal number ++ codes ", number " ++ decimal seq
        ≡ alone_remark network side number seq }
{
    match (network, side) {
        (Network::Prp, Side::A) => "LAN A alone: no copy by LAN B; packet A ",
        (Network::Prp, Side::B) => "LAN B alone: no copy by LAN A; packet B ",
        (Network::Hsr, Side::A) => "port A alone: no copy by port B; packet A ",
        (Network::Hsr, Side::B) => "port B alone: no copy by port A; packet B ",
    }
}

/// What is said of a frame whose first copy has the trailer of the other LAN, up to the number of its packet.
fn astray_words(network: Network, side: Side) -> &'static str
    ensures { (number seq : ℕ) → result.now ++ decimal number ++ codes ", number " ++ decimal seq
        ≡ astray_remark network side number seq }
{
    match (network, side) {
        (Network::Prp, Side::A) => "by LAN A with the id of LAN B; packet A ",
        (Network::Prp, Side::B) => "by LAN B with the id of LAN A; packet B ",
        (Network::Hsr, Side::A) => "by port A with the id of port B; packet A ",
        (Network::Hsr, Side::B) => "by port B with the id of port A; packet B ",
    }
}

/// The interface of a side.
fn lane_of(side: Side) -> Lane
    ensures { result ≡ side_interface side }
{
    match side {
        Side::A => Lane::A,
        Side::B => Lane::B,
    }
}

/// Appends these words, the number of a packet and that of its frame.
fn append_remark(
    comment: &mut Vec<u8>,
    words: &str,
    number: u64,
    seq: Seq,
) -> Result<(), ScriptFault>
    ensures ok { OnOk result (comment.new.items ≡ comment.old.items
        ++ (words.now ++ decimal number ++ codes ", number " ++ decimal seq.0)) }
    ensures err { IfErr result (λ fault. fault ≡ ScriptFault.NoMemory) }
{
    let mut buffer = Buffer::new();
    comment.extend_from_slice(words.as_bytes())?;
    comment.extend_from_slice(buffer.format(number).as_bytes())?;
    comment.extend_from_slice(b", number ")?;
    comment.extend_from_slice(buffer.format(seq.0).as_bytes())?;
    Ok(())
}

/// Puts what is said of a packet in place of what a list held.
fn put_remark(
    comment: &mut Vec<u8>,
    network: Network,
    waiting: &Waiting,
    verdict: Option<Verdict>,
) -> Result<(), ScriptFault>
    ensures ok { OnOk result (comment.new.items
        ≡ remark_of network verdict (packet_of waiting.now)) }
    ensures err { IfErr result (λ fault. fault ≡ ScriptFault.NoMemory) }
{
    comment.clear();
    let Some(frame) = waiting.came.frame else {
        return Ok(());
    };
    let side = waiting.came.side;
    let words = match verdict {
        Some(Verdict::Alone) => alone_words(network, side),
        _ if waiting.is_astray => astray_words(network, side),
        _ => return Ok(()),
    };
    append_remark(comment, words, waiting.number, frame.seq)
}

/// Counts a packet whose verdict is known, or will not be.
fn count(counts: &mut Counts, waiting: &Waiting, verdict: Option<Verdict>)
    ensures { counts.new ≡ with_packet (packet_of waiting.now) verdict counts.old }
{
    more(&mut counts.packets);
    match verdict {
        Some(Verdict::Alone) => counts.note_alone(waiting.came.side),
        Some(Verdict::Unnumbered) => more(&mut counts.unnumbered),
        Some(Verdict::Both) if waiting.is_astray => more(&mut counts.astray),
        Some(Verdict::Both) => more(&mut counts.both),
        None => more(&mut counts.open),
    }
}

/// The time of a packet in the file: at most the latest that a file tells.
fn time_of(start: u64, early: u64, time: u64) -> u64
    ensures time { result ≡ written_time start early time }
    ensures early { result < 2 ^ 63 }
{
    start.saturating_add(time).saturating_sub(early).min(LATEST)
}

/// The octets of a list up to the most that are written.
fn first_octets(octets: &[u8]) -> &[u8]
    ensures octets { result.now ≡ first_octets octets.now }
    ensures short { length result.now < 2 ^ 16 }
{
    &octets[..octets.len().min(MAX_WRITTEN)]
}

/// A packet with a comment, as it is written.
fn entry_of<'a>(start: u64, early: u64, waiting: &'a Waiting, comment: &'a [u8]) -> Entry<'a>
    ensures { written_of result ≡ entry_of start early comment.now (packet_of waiting.now) }
{
    let octets = first_octets(waiting.octets.as_slice());
    let comment = first_octets(comment);
    Entry {
        lane: lane_of(waiting.came.side),
        time: time_of(start, early, waiting.came.time),
        len: octets.len() as u32,
        octets,
        comment,
    }
}

/// Writes a packet with a comment.
fn write_entry<W: Write>(
    writer: &mut W,
    start: u64,
    early: u64,
    waiting: &Waiting,
    comment: &[u8],
) -> Result<(), ScriptFault>
    ensures ok { OnOk result (Appends (W.contents writer.old) (W.contents writer.new)
        (entry_block start early comment.now (packet_of waiting.now))) }
    ensures err { IfErr result (λ fault. fault ≡ ScriptFault.Write) }
{
    let entry = entry_of(start, early, waiting, comment);
    write_packet(writer, &entry)?;
    Ok(())
}

/// Whether a packet with this comment is written.
fn is_shown(scope: Scope, comment: &[u8]) -> bool
    ensures { result ≡ is_shown scope comment.now }
{
    match scope {
        Scope::All => true,
        Scope::Lost => !comment.is_empty(),
    }
}

/// Writes a packet with a comment, if it is wanted, and answers whether it is.
fn write_wanted<W: Write>(
    writer: &mut W,
    plan: Plan,
    start: u64,
    waiting: &Waiting,
    comment: &[u8],
) -> Result<bool, ScriptFault>
    ensures wrote { OnOk result (Appends (W.contents writer.old) (W.contents writer.new)
        (piece_by (is_shown plan.scope comment.now) start plan.early comment.now
        (packet_of waiting.now))) }
    ensures shown { IfOk result (λ shown. shown ≡ is_shown plan.scope comment.now) }
    ensures err { IfErr result (λ fault. fault ≡ ScriptFault.Write) }
{
    let shown = is_shown(plan.scope, comment);
    if shown {
        write_entry(writer, start, plan.early, waiting, comment)?;
    }
    Ok(shown)
}

/// Counts a packet that is written, if it is.
fn count_written(counts: &mut Counts, is_written: bool)
    ensures { counts.new ≡ counted_written is_written counts.old }
{
    if is_written {
        more(&mut counts.written);
    }
}

impl Output {
    ghost use Rattle.std.specs.Prelude.{◌≡◌, [], OnOk, OnErr, IfOk, IfErr, Err};
    ghost use Rattle.std.specs.Io.KnownBytes.{Appends};
    ghost use Rattle.sr_capture_merge.specs.Entries.{names_of, written_piece};
    ghost use Rattle.sr_capture_merge.specs.Counted.{AreCountsOf};
    ghost use Rattle.sr_capture_merge.specs.Files.{IsStop};
    ghost use Rattle.sr_capture_merge.specs.Remarks.{remark_of};
    ghost use Rattle.sr_capture_merge.specs.Settling.{Settled, counted_one};
    ghost use Rattle.sr_merge.specs.Merging.{packet_of};
    ghost use Rattle.sr_pcapng.specs.Writing.{file_head};

    /// Writes the head of a file.
    ///
    /// # Errors
    /// `Write` where the writer fails, and nothing else: no memory is asked for.
    pub(crate) fn begin<W: Write>(
        alloc: Global,
        plan: Plan,
        start: u64,
        writer: &mut W,
    ) -> Result<Output, ScriptFault>
        ensures head { OnOk result (Appends (W.contents writer.old) (W.contents writer.new)
            (file_head (names_of plan.network))) }
        ensures plan { IfOk result (λ output. output.plan ≡ plan) }
        ensures start { IfOk result (λ output. output.start ≡ start) }
        ensures counts { IfOk result (λ output. AreCountsOf plan [] output.counts) }
        ensures cut { IfOk result (λ output. output.counts.cut ≡ 0) }
        ensures long { IfOk result (λ output. output.counts.long ≡ 0) }
        ensures err { IfErr result (λ fault. fault ≡ ScriptFault.Write) }
    {
        write_head(writer, names_of(plan.network))?;
        Ok(Output {
            plan,
            start,
            comment: Vec::new(alloc),
            counts: Counts::NONE,
        })
    }

    /// Takes a packet whose verdict is known, or will not be: it is counted, and written where it is wanted.
    ///
    /// # Errors
    /// `Write` where the writer fails, or `NoMemory` where there is none for the comment: then nothing of the packet is written.
    pub(crate) fn put<W: Write>(
        &mut self,
        waiting: &Waiting,
        verdict: Option<Verdict>,
        writer: &mut W,
    ) -> Result<(), ScriptFault>
        ensures wrote { OnOk result (Appends (W.contents writer.old) (W.contents writer.new)
            (written_piece self.old.plan self.old.start verdict (packet_of waiting.now))) }
        ensures counts { OnOk result (self.new.counts ≡ counted_one self.old.plan
            (record { packet = packet_of waiting.now; verdict = verdict }) self.old.counts) }
        ensures stops { IfErr result (λ fault. IsStop fault
            (W.contents writer.new ≡ W.contents writer.old)) }
        ensures uncounted { OnErr result (self.new.counts ≡ self.old.counts) }
        // Where the writer fails, there was memory for the comment.
        ensures unwritten { result ≡ Err ScriptFault.Write → self.new.comment.items
            ≡ remark_of self.old.plan.network verdict (packet_of waiting.now) }
        ensures plan { self.new.plan ≡ self.old.plan }
        ensures start { self.new.start ≡ self.old.start }
    {
        put_remark(&mut self.comment, self.plan.network, waiting, verdict)?;
        let shown = write_wanted(
            writer,
            self.plan,
            self.start,
            waiting,
            self.comment.as_slice(),
        )?;
        count(&mut self.counts, waiting, verdict);
        count_written(&mut self.counts, shown);
        Ok(())
    }
}
