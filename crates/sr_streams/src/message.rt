//! Messages: of which stream they are, and their numbers in it.

ghost use Rattle.std.specs.Prelude.{◌≤◌, length};

/// The number of a message in its stream.
#[derive(Clone, Copy, Debug, PartialEq, Eq)]
pub enum Counter {
    /// Of a GOOSE (IEC 61850-8-1).
    Goose {
        /// How often the state has changed: stNum.
        st_num: u32,
        /// How often this state was sent before: sqNum.
        sq_num: u32,
    },
    /// Of sampled values (IEC 61850-9-2).
    Sampled {
        /// The number of its first sample in the second: smpCnt.
        smp_cnt: u16,
        /// How many samples it has: noASDU.
        asdus: u16,
    },
}

/// What a message says of its stream, which borrows the name.
#[derive(Clone, Copy, Debug)]
pub struct Message<'a> {
    /// The name of the stream: gocbRef or svID, of 129 octets at most.
    pub name: &'a [u8],
    /// The number of the message.
    pub counter: Counter,
    pub ghost short: { length name.now ≤ 129 },
}
