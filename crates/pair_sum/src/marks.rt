ghost use Rattle.std.specs.Prelude.{◌≡◌, ℕ, ◌<◌, Bool};

/// Which places of a list are marked, as those whose amounts or correlations change.
pub trait Marks {
    ghost size: { Self → ℕ };

    ghost is_marked: { Self → ℕ → Bool };

    /// Whether this place is marked.
    fn is_marked(&self, place: usize) -> bool
        requires { place < size self.now }
        ensures { result ≡ is_marked self.now place };
}
