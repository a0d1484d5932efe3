ghost use Rattle.std.specs.Prelude.{◌≡◌, ℕ, Bool};
ghost use Rattle.queue.specs.Order.{Sound};

/// A kind of entry. Its order is total, has the earlier minute first and ties only equal entries.
// It is no `Ord`: that may tie entries that differ and need not go by the minute, so a law would stand here all the same.
pub trait Entry: Copy {
    /// x is to be handed out strictly before y
    ghost ahead: { Self → Self → Bool };

    ghost minute_of: { Self → ℕ };

    /// The entry's minute.
    fn minute(&self) -> u32
        ensures { result ≡ minute_of self.now };

    /// Whether the entry is to be handed out strictly before another.
    fn is_ahead(&self, other: &Self) -> bool
        ensures { result ≡ ahead self.now other.now };

    ghost sound: { Sound ahead minute_of };
}
