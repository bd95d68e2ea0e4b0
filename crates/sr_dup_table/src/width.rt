//! How many numbers of a source a table remembers.
ghost use Rattle.std.specs.Prelude.{◌≡◌};
ghost use Rattle.sr_dup_table.specs.Widths.{numbers_in};

/// How many numbers of a source a table remembers, up to the greatest one (choice of this project: the standard leaves the size
/// of the duplicate list open).
#[derive(Clone, Copy, PartialEq, Eq, Debug)]
pub enum Width {
    /// 1024 numbers.
    Narrow,
    /// 2048 numbers, at twice the memory. A copy may be twice as far behind and is still told.
    Wide,
}

impl Width {
    /// How many numbers of a source are remembered.
    pub fn numbers(self) -> usize
        ensures { result ≡ numbers_in self }
    {
        match self {
            Width::Narrow => 1024,
            Width::Wide => 2048,
        }
    }
}
