//! A pass over captures for the messages of streams.

ghost use Rattle.std.specs.Prelude.{MatchOption};
ghost use Rattle.sr_capture.specs.Records.{Captured, Shows};
ghost use Rattle.sr_capture_script.specs.declared.choice.Choice.{Choice};
ghost use Rattle.sr_capture_script.specs.Merging.{Feed};
ghost use Rattle.sr_capture_script.specs.Passing.{TakesWanted};
ghost use Rattle.sr_streams.specs.Views.{said};
ghost use Rattle.sr_capture_streams.specs.Watching.{SaysOfStream, SaysNothing, IsNewWatch, WatchesMore, AreStreamsOfAll};

use sr_capture::{MAX_KEPT, Packet};
use sr_capture_script::{Pass, Place, ScriptFault};
use sr_frame::{Mac, view};
use sr_streams::{Message, Streams, read};
use std::alloc::Global;

/// A pass over captures that keeps the streams of which the packets so far are messages: a message counts once, by whichever capture it
/// came.
#[derive(Drop)]
pub struct StreamWatch {
    streams: Streams,
}

impl StreamWatch {
    /// A pass that took no packet.
    pub fn new(alloc: Global) -> StreamWatch
        ensures { IsNewWatch result }
    {
        StreamWatch {
            streams: Streams::new(alloc),
        }
    }

    /// The streams whose messages the packets are that it took.
    pub fn into_streams(self) -> Streams
        ensures { (choice : Choice) (x y z : Feed) (new : StreamWatch) → IsNewWatch new
            → TakesWanted (λ old h watch. WatchesMore h old watch) choice x y z new self
            → AreStreamsOfAll choice x y z result }
    {
        self.streams
    }
}

/// The source of a packet that is a message of a stream, and what it says.
fn message_in(packet: &Packet) -> Option<(Mac, Message<'_>)>
    ensures { (captured : Captured) → Shows packet.now captured
        → MatchOption result (SaysNothing captured) (λ r. SaysOfStream captured r.0 (said r.1)) }
{
    if packet.len > MAX_KEPT as u64 {
        return None;
    }
    let Ok(frame) = view(packet.octets.as_slice()) else {
        return None;
    };
    let message = read(&frame)?;
    Some((frame.src, message))
}

impl Pass for StreamWatch {
    ghost use Rattle.std.specs.Prelude.{◌≡◌};
    ghost use Rattle.sr_capture_script.specs.declared.fault.ScriptFault.TheVariants.{NoMemory as OutOfMemory};
    ghost use Rattle.sr_capture_streams.specs.Watching.{WatchesMore};

    ghost takes = { λ old x new. WatchesMore x old new };

    ghost refuses = { λ fault. fault ≡ OutOfMemory };

    fn take(&mut self, place: Place, packet: &Packet) -> Result<(), ScriptFault> {
        let Some((src, message)) = message_in(packet) else {
            return Ok(());
        };
        self.streams.note(src, place.time, &message)?;
        Ok(())
    }
}
