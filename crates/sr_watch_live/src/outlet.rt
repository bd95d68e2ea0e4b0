//! A file that is read, and what was taken of it, on its way to the loop.

use crate::message::{Message, Taken};
use crossbeam_channel::{SendError, Sender};
use std::alloc::{AllocError, Global};
use std::io::{self, ErrorKind, Read};
use std::sync::Wait;

/// How many packets are handed over at once at most.
const BATCH: usize = 512;

/// Who takes what comes of a capture: its LAN, or both at a mirror port.
#[derive(Drop)]
pub(crate) struct Takers {
    pub to: Sender<Message>,
    pub other: Option<Sender<Message>>,
}

impl Takers {
    /// Takers of more that comes of the capture.
    ///
    /// # Errors
    /// Where an allocation fails.
    pub(crate) fn try_clone(&self) -> Result<Takers, AllocError> {
        let other = match &self.other {
            Some(to) => Some(to.clone()?),
            None => None,
        };
        let to = self.to.clone()?;
        Ok(Takers { to, other })
    }

    /// Hands each its message.
    ///
    /// # Errors
    /// Where nobody takes it any more, or an allocation fails.
    pub(crate) fn send<R: Wait>(
        &self,
        rt: &R,
        own: Message,
        others: Message,
    ) -> Result<(), SendError<Message>> {
        self.to.send(rt, own)?;
        match &self.other {
            Some(to) => to.send(rt, others),
            None => Ok(()),
        }
    }
}

/// A file that is read. What was taken of it is handed over before each read, since that may wait.
#[derive(Drop)]
pub(crate) struct Outlet<F, R> {
    rt: R,
    alloc: Global,
    file: F,
    batch: Vec<Taken>,
    /// What was taken for the other LAN, at a mirror port.
    others: Vec<Taken>,
    to: Takers,
}

impl<F, R: Wait> Outlet<F, R> {
    /// A file of which nothing was read.
    pub(crate) fn new(rt: R, alloc: Global, file: F, to: Takers) -> Outlet<F, R> {
        Outlet {
            rt,
            alloc,
            file,
            batch: Vec::new(alloc),
            others: Vec::new(alloc),
            to,
        }
    }

    /// Hands over what was taken. False where nobody takes it any more, or an allocation fails.
    pub(crate) fn hand_over(&mut self) -> bool {
        if self.batch.is_empty() {
            return true;
        }
        let batch = std::mem::replace(&mut self.batch, Vec::new(self.alloc));
        let others = std::mem::replace(&mut self.others, Vec::new(self.alloc));
        self.to
            .send(&self.rt, Message::Came(batch), Message::Came(others))
            .is_ok()
    }

    /// Takes a packet, and hands over as many as are handed over at once.
    ///
    /// # Errors
    /// Where an allocation fails.
    pub(crate) fn push(&mut self, taken: Taken) -> Result<(), AllocError> {
        if self.batch.len() >= BATCH {
            self.hand_over();
        }
        if self.to.other.is_some() {
            match self.others.push(taken) {
                Ok(()) => {}
                Err(_) => return Err(AllocError),
            }
        }
        match self.batch.push(taken) {
            Ok(()) => Ok(()),
            Err(_) => Err(AllocError),
        }
    }
}

impl<F: Read, R: Wait> Read for Outlet<F, R> {
    fn read(&mut self, buf: &mut [u8]) -> io::Result<usize> {
        if !self.hand_over() {
            return Err(io::Error::from(ErrorKind::BrokenPipe));
        }
        self.file.read(buf)
    }
}
