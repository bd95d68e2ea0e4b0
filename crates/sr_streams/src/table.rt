//! The streams of the messages that came.

ghost use Rattle.std.specs.Prelude.{◌≡◌};
ghost use Rattle.sr_streams.specs.Tables.{counter_kind};

use crate::message::{Counter, Message};
use crate::numbers::{Arrival, Numbers};
use crate::sums::Kind;
use sr_frame::{Mac, NoMemory};
use std::alloc::Global;

/// How many streams are kept: the messages of others are counted alone (choice of this project).
pub const MAX_STREAMS: usize = 1024;

/// A stream: the messages of one source, kind and name.
#[derive(Debug, Drop)]
pub struct Stream {
    /// The source address.
    pub src: Mac,
    /// Of what it is.
    pub kind: Kind,
    /// Its name: gocbRef or svID.
    pub name: Vec<u8>,
    /// What is kept of its messages.
    pub numbers: Numbers,
}

/// The streams of the messages that came, at most 1024.
#[derive(Drop)]
pub struct Streams {
    alloc: Global,
    streams: Vec<Stream>,
    left_out: u64,
}

/// Of what a stream with such numbers is.
fn kind_of(counter: Counter) -> Kind
    ensures { result ≡ counter_kind counter }
{
    match counter {
        Counter::Goose { .. } => Kind::Goose,
        Counter::Sampled { .. } => Kind::Sampled,
    }
}

impl Stream {
    ghost use Rattle.std.specs.Prelude.{◌≡◌};
    ghost use Rattle.sr_streams.specs.Tables.{counter_kind, key_eq, stream_key};

    /// Whether it is the one of this source, kind and name.
    fn is_of(&self, src: Mac, kind: Kind, name: &[u8]) -> bool
        ensures { result ≡ key_eq (stream_key self.now)
            (record { src = src; kind = kind; name = name.now }) }
    {
        self.src == src && self.kind == kind && self.name.as_slice() == name
    }
}

impl Streams {
    ghost use Rattle.std.specs.Prelude.{◌≡◌, ◌+◌, ◌^◌, ◌<◌, List, [], ◌∷◌, ◌≤◌, length, position, Some, None, OnOk};
    ghost use Rattle.sr_streams.specs.Tables.{MessageSent, AreStreamsOf, arrival_sent, key_eq, stream_key, key_sent};
    ghost use Rattle.sr_streams.specs.Limits.{max_streams};
    ghost use Rattle.sr_streams.specs.Views.{said};

    /// Of no message. Takes no memory.
    pub fn new(alloc: Global) -> Streams
        ensures { AreStreamsOf [] result }
    {
        Streams {
            alloc,
            streams: Vec::new(alloc),
            left_out: 0,
        }
    }

    /// Where a stream is kept.
    fn place(&self, src: Mac, kind: Kind, name: &[u8]) -> Option<usize>
        ensures { result ≡ position (λ own. key_eq (stream_key own)
            (record { src = src; kind = kind; name = name.now })) self.now.streams.items }
    {
        self.streams
            .iter()
            .position(|stream| stream.is_of(src, kind, name))
    }

    /// The streams, in the order in which they were first heard.
    pub fn streams(&self) -> &[Stream]
        ensures { result.now ≡ self.now.streams.items }
    {
        self.streams.as_slice()
    }

    /// How many messages came of streams that are not kept.
    pub fn left_out(&self) -> u64
        ensures { result ≡ self.now.left_out }
    {
        self.left_out
    }

    /// Takes a message of a stream that is kept.
    fn go_on(&mut self, at: usize, x: Arrival) -> Result<(), NoMemory>
        requires { at < length self.old.streams.items }
        ensures { OnOk result ((xs : List MessageSent) (m : MessageSent) → x ≡ arrival_sent m
            → position (λ own. key_eq (stream_key own) (key_sent m)) self.old.streams.items
            ≡ Some at
            → length xs + 1 < 2 ^ 64 → AreStreamsOf xs self.old
            → AreStreamsOf (m ∷ xs) self.new) }
    {
        self.streams[at].numbers.note(x)
    }

    /// Takes the first message of a stream, where there is room for it.
    fn begin(&mut self, src: Mac, kind: Kind, name: &[u8], x: Arrival) -> Result<(), NoMemory>
        requires { length self.old.streams.items < max_streams }
        ensures { OnOk result ((xs : List MessageSent) (m : MessageSent) → x ≡ arrival_sent m
            → key_sent m ≡ record { src = src; kind = kind; name = name.now }
            → position (λ own. key_eq (stream_key own) (key_sent m)) self.old.streams.items
            ≡ None
            → AreStreamsOf xs self.old → AreStreamsOf (m ∷ xs) self.new) }
    {
        let mut numbers = Numbers::new(self.alloc);
        numbers.note(x)?;
        let name = Vec::from_slice(self.alloc, name)?;
        let stream = Stream {
            src,
            kind,
            name,
            numbers,
        };
        let Ok(()) = self.streams.push(stream) else {
            return Err(NoMemory);
        };
        Ok(())
    }

    /// Counts a message of a stream for which there is no room.
    fn leave_out(&mut self)
        ensures { (xs : List MessageSent) (m : MessageSent)
            → max_streams ≤ length self.old.streams.items
            → position (λ own. key_eq (stream_key own) (key_sent m)) self.old.streams.items
            ≡ None
            → length xs + 1 < 2 ^ 64 → AreStreamsOf xs self.old
            → AreStreamsOf (m ∷ xs) self.new }
    {
        self.left_out = self.left_out.saturating_add(1);
    }

    /// Takes the next message that came.
    ///
    /// # Errors
    /// `NoMemory` where an allocation failed: what is kept is then of no use, and nothing is said of it.
    pub fn note(&mut self, src: Mac, time: u64, message: &Message<'_>) -> Result<(), NoMemory>
        ensures { OnOk result ((xs : List MessageSent) → length xs + 1 < 2 ^ 64
            → AreStreamsOf xs self.old → AreStreamsOf
            (record { src = src; says = said message.now; time = time } ∷ xs) self.new) }
    {
        let kind = kind_of(message.counter);
        let x = Arrival {
            time,
            counter: message.counter,
        };
        match self.place(src, kind, message.name) {
            Some(at) => self.go_on(at, x),
            None if self.streams.len() < MAX_STREAMS => self.begin(src, kind, message.name, x),
            None => {
                self.leave_out();
                Ok(())
            }
        }
    }
}
