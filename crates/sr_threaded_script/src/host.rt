//! The host of a node of a threaded network.

ghost use Rattle.std.specs.Prelude.{◌≡◌, ◌+◌, ◌-◌, ◌^◌, ◌≤◌, max, true, OnOk, OnErr};
ghost use Rattle.sr_workers.specs.Told.{lost_after};

use sr_frame::{Frame, FrameFault};
use sr_workers::{Feed, FeedFault, Given, Turn};
use std::alloc::Global;
use std::sync::Wait;

/// A host that sends its frames in order, one a turn and each at time 0, is idle ever after, and keeps what it is given.
#[derive(Debug, Drop)]
pub struct Host {
    frames: Vec<Frame>,
    // In how many turns it was asked.
    asked: usize,
    given: Vec<Frame>,
    lost: u64,
    ended: bool,
    failures: u64,
    alloc: Global,
    // It ends only behind as many turns or failures as can be counted.
    ghost lasting: { ended ≡ true → 2 ^ 64 ≤ max asked failures + 1 },
}

impl Host {
    ghost use Rattle.sr_threaded_script.specs.Hosts.{host_sends, host_asked, host_given, host_image, new_host};

    /// A host that is to send these.
    pub fn new(alloc: Global, frames: Vec<Frame>) -> Host
        ensures { host_image result ≡ new_host frames.items }
    {
        Host {
            frames,
            asked: 0,
            given: Vec::new(alloc),
            lost: 0,
            ended: false,
            failures: 0,
            alloc,
        }
    }

    /// The frames that it was given, in order.
    pub fn given(&self) -> &[Frame]
        ensures { result.now ≡ host_given self.now }
    {
        &self.given
    }

    // An allocation failed: that counts as a failure, unless there were as many failures as can be counted.
    fn fail(&mut self) -> Result<(), FeedFault>
        ensures same { (host_sends self.new ≡ host_sends self.old)
            × (host_asked self.new ≡ host_asked self.old)
            × (host_given self.new ≡ host_given self.old) }
        ensures lost { self.new.lost ≡ self.old.lost }
        ensures ok { OnOk result (self.new.failures ≡ self.old.failures) }
        ensures most { OnOk result (self.old.failures ≡ 2 ^ 64 - 1) }
        ensures err { OnErr result (self.new.failures ≡ self.old.failures + 1) }
        ensures ended { self.new.ended ≡ self.old.ended }
    {
        if self.failures == u64::MAX {
            return Ok(());
        }
        self.failures += 1;
        Err(FeedFault)
    }

    // A frame is lost, and counted.
    fn lose(&mut self) -> Given
        ensures given { result ≡ Given.Lost }
        ensures same { (host_sends self.new ≡ host_sends self.old)
            × (host_asked self.new ≡ host_asked self.old)
            × (host_given self.new ≡ host_given self.old) }
        ensures lost { self.new.lost ≡ lost_after self.old.lost result }
        ensures failures { self.new.failures ≡ self.old.failures }
        ensures ended { self.new.ended ≡ self.old.ended }
    {
        self.lost = self.lost.saturating_add(1);
        Given::Lost
    }
}

impl Feed for Host {
    ghost use Rattle.std.specs.Prelude.{List, ℕ};
    ghost use Rattle.sr_threaded_script.specs.Hosts.{host_sends, host_asked, host_handed, host_given};

    ghost Name = { List (List ℕ) };

    ghost name = { host_sends };

    ghost tells = { λ _. true };

    ghost handed = { host_handed };

    ghost given = { host_given };

    ghost asked = { host_asked };

    ghost losses = { λ h. h.lost };

    ghost ended = { λ h. h.ended };

    ghost failed = { λ h. h.failures };

    #[tactic(auto, using(crate::proofs::Handing::handed_more, crate::proofs::Handing::handed_all))]
    fn next<W: Wait>(&mut self, _rt: &W, into: &mut Vec<u8>) -> Result<Turn, FeedFault> {
        // Nobody comes there: it would take 2^64 turns.
        if self.asked == usize::MAX {
            self.ended = true;
            return Ok(Turn::End);
        }
        if self.asked >= self.frames.len() {
            self.asked += 1;
            return Ok(Turn::Idle);
        }
        into.clear();
        if into
            .extend_from_slice(self.frames[self.asked].octets())
            .is_err()
        {
            self.fail()?;
            self.ended = true;
            return Ok(Turn::End);
        }
        self.asked += 1;
        Ok(Turn::Frame(0))
    }

    fn give<W: Wait>(&mut self, _rt: &W, octets: &[u8]) -> Result<Given, FeedFault> {
        if self.given.reserve(1).is_err() {
            self.fail()?;
            return Ok(self.lose());
        }
        match Frame::copy(self.alloc, octets) {
            Ok(frame) => {
                self.given.push_reserved(frame);
                Ok(Given::Put)
            }
            Err(FrameFault::NoMemory) => {
                self.fail()?;
                Ok(self.lose())
            }
            Err(_) => Ok(self.lose()),
        }
    }

    fn failures(&self) -> u64 {
        self.failures
    }
}
