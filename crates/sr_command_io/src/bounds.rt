//! Where packets end in what is read of captures of one kind, and by which octets a kind is told.

/// So many octets at the front of a file tell its kind: the header of a pcap file.
pub(crate) const HEAD_LEN: usize = 24;

/// The kind of a file, by its first octets.
#[derive(Clone, Copy, PartialEq, Eq)]
pub(crate) enum Kind {
    /// A pcap file whose numbers have their lowest octet first.
    LittlePcap,
    /// One whose numbers have their highest octet first.
    BigPcap,
    /// A pcapng file.
    Pcapng,
    /// None of these.
    Other,
}

/// The kind of a file that begins so.
pub(crate) fn kind_of(head: &[u8]) -> Kind {
    if head.starts_with(&[0xd4, 0xc3, 0xb2, 0xa1]) || head.starts_with(&[0x4d, 0x3c, 0xb2, 0xa1]) {
        Kind::LittlePcap
    } else if head.starts_with(&[0xa1, 0xb2, 0xc3, 0xd4])
        || head.starts_with(&[0xa1, 0xb2, 0x3c, 0x4d])
    {
        Kind::BigPcap
    } else if head.starts_with(&[0x0a, 0x0d, 0x0d, 0x0a]) {
        Kind::Pcapng
    } else {
        Kind::Other
    }
}

impl Kind {
    /// How many octets stand before the packets of a file behind the first, which says the same there.
    pub(crate) fn again_len(self) -> usize {
        match self {
            Kind::LittlePcap | Kind::BigPcap => HEAD_LEN,
            Kind::Pcapng | Kind::Other => 0,
        }
    }
}

/// What a file that begins so has to be done to, where a tool compressed it.
pub(crate) fn compression_of(head: &[u8]) -> Option<&'static str> {
    if head.starts_with(&[0x1f, 0x8b]) {
        Some("the file is compressed: gunzip it")
    } else if head.starts_with(&[0x28, 0xb5, 0x2f, 0xfd]) {
        Some("the file is compressed: unzstd it")
    } else {
        None
    }
}

/// The longest head of a packet, or of a block of a pcapng file, by which its length is told.
const MAX_HEAD: usize = 16;

/// How far captures of one kind were read: whether a packet ends there, or a block of a pcapng file.
#[derive(Clone, Copy)]
pub(crate) struct Bounds {
    kind: Kind,
    // Whether the section of a pcapng file has numbers with their highest octet first.
    is_big: bool,
    head: [u8; MAX_HEAD],
    have: usize,
    // How many octets are passed over before the next head.
    left: u64,
}

/// The number of four octets.
fn number_of(octets: [u8; 4], is_big: bool) -> u32 {
    if is_big {
        u32::from_be_bytes(octets)
    } else {
        u32::from_le_bytes(octets)
    }
}

impl Bounds {
    /// The start of a capture of this kind.
    pub(crate) fn new(kind: Kind) -> Bounds {
        Bounds {
            kind,
            is_big: kind == Kind::BigPcap,
            head: [0; MAX_HEAD],
            have: 0,
            left: kind.again_len() as u64,
        }
    }

    /// Whether a packet ends where it was read to.
    pub(crate) fn is_at_end(&self) -> bool {
        self.left == 0 && self.have == 0
    }

    /// How many octets tell the length of a packet.
    fn head_len(&self) -> usize {
        match self.kind {
            Kind::Pcapng => 12,
            _ => MAX_HEAD,
        }
    }

    /// How many octets stand behind a head. One that is none has no end.
    fn behind_head(&mut self) -> u64 {
        let [a, b, c, d, e, f, g, h, i, j, k, l, ..] = self.head;
        match self.kind {
            Kind::Pcapng => {
                if [a, b, c, d] == [0x0a, 0x0d, 0x0d, 0x0a] {
                    self.is_big = [i, j, k, l] == [0x1a, 0x2b, 0x3c, 0x4d];
                }
                let len = u64::from(number_of([e, f, g, h], self.is_big));
                len.checked_sub(12).unwrap_or(u64::MAX)
            }
            _ => u64::from(number_of([i, j, k, l], self.is_big)),
        }
    }

    /// Passes over octets of a packet, or takes one of a head. The answer is what is left of them.
    fn take<'a>(&mut self, octets: &'a [u8]) -> &'a [u8] {
        if self.left > 0 {
            let gone = usize::try_from(self.left)
                .unwrap_or(usize::MAX)
                .min(octets.len());
            self.left = self.left.saturating_sub(gone as u64);
            return &octets[gone..];
        }
        let Some((octet, rest)) = octets.split_first() else {
            return octets;
        };
        if let Some(place) = self.head.get_mut(self.have) {
            *place = *octet;
        }
        self.have = self.have.saturating_add(1);
        if self.have >= self.head_len() {
            self.have = 0;
            self.left = self.behind_head();
        }
        rest
    }

    /// Goes on over what was read.
    pub(crate) fn note(&mut self, octets: &[u8]) {
        let mut rest = octets;
        for _ in 0..octets.len() {
            if rest.is_empty() {
                return;
            }
            rest = self.take(rest);
        }
    }
}
