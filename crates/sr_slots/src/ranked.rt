//! What a table can be sifted by.
ghost use Rattle.std.specs.Prelude.{◌≡◌, ℕ};

/// A value that has a rank, by which a table takes values out and answers the least.
pub trait Ranked {
    ghost rank_of: { Self → ℕ };

    /// The rank.
    fn rank(&self) -> u64
        ensures { result ≡ rank_of self.now };
}
