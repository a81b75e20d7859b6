//! What a gate has to know of its state.
ghost use Rattle.std.specs.Prelude.{◌≡◌, ℕ, List, length};

/// A state that keeps a history.
pub trait Kept {
    /// What the history is made of.
    type Entry;

    /// What no turn may change.
    type Fixed;

    // The kept history, the oldest entry first. A turn adds one entry at its end at most.
    ghost kept: { Self → List Self.Entry };

    ghost fixed: { Self → Self.Fixed };

    // The number of the pass that made the entry.
    ghost caller: { Self.Entry → ℕ };

    /// The number of entries that are kept.
    fn entries(&self) -> u64
        ensures { result ≡ length (kept self.now) };
}
