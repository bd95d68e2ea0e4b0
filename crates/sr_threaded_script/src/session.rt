//! A script of what hosts are to send, line by line.

ghost use Rattle.std.specs.Prelude.{◌≡◌, []};

use crate::reading::sending_of;
use crate::setup::ThreadedSetup;
use sr_frame::Frame;
use sr_plant_script::{send_refusal, sent_frame, tell_refusal};
use sr_session::{FaultKind, Session};
use sr_text::Text;
use std::alloc::Global;

/// A script at work, and what its hosts are to send.
#[derive(Drop)]
pub(crate) struct SendSession {
    alloc: Global,
    setup: ThreadedSetup,
    /// Each frame with the number of its node, in order.
    pub(crate) sent: Vec<(usize, Frame)>,
    // The octets of a line, in a list that is used again.
    octets: Vec<u8>,
    /// The number of the last line.
    pub(crate) last: u64,
}

impl SendSession {
    ghost use Rattle.sr_threaded_script.specs.Runs.{no_sendings_of, sendings_of};

    /// Before the first line.
    pub(crate) fn new(alloc: Global, setup: &ThreadedSetup) -> SendSession
        ensures { sendings_of result ≡ no_sendings_of setup.now }
    {
        SendSession {
            alloc,
            setup: *setup,
            sent: Vec::new(alloc),
            octets: Vec::new(alloc),
            last: 0,
        }
    }
}

impl Session for SendSession {
    ghost use Rattle.sr_threaded_script.specs.Lines.{Sendings, threaded_dialogue};
    ghost use Rattle.sr_threaded_script.specs.Runs.{sendings_of};

    ghost State = { Sendings };

    ghost state = { sendings_of };

    ghost dialogue = { threaded_dialogue };

    fn answer(&mut self, number: u64, line: &[u8], text: &mut Text) -> Result<(), FaultKind> {
        let asked = match sending_of(line, &mut self.octets) {
            Ok(asked) => asked,
            Err(kind) => return Err(kind),
        };
        self.last = number;
        let Some((node, receiver)) = asked else {
            return Ok(());
        };
        let payload = self.octets.as_slice();
        if let Some(fault) = send_refusal(self.setup.nodes, node, receiver, payload) {
            return tell_refusal(text, number, fault);
        }
        if let Err(refused) = self.sent.reserve(1) {
            return Err(refused.into());
        }
        match sent_frame(self.alloc, node, receiver, payload) {
            Ok(frame) => {
                self.sent.push_reserved((node, frame));
                Ok(())
            }
            Err(refused) => Err(refused.into()),
        }
    }

    fn finish(&self, _text: &mut Vec<u8>) -> Result<(), FaultKind> {
        Ok(())
    }
}
