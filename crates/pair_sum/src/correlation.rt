ghost use Rattle.std.specs.Prelude.{◌≡◌, ℕ, ◌<◌, ◌≤◌, ℤ, unsigned_abs};
ghost use Rattle.simm_rules.specs.Concentration.{one};

use simm_rules::mh_units::Corr6;

/// The correlations of a list of factors or of buckets, by their places: 1 of each with itself,
/// the same both ways round, and between -1 and 1.
pub trait Correlation {
    ghost size: { Self → ℕ };

    ghost corr: { Self → ℕ → ℕ → ℤ };

    /// How many places there are.
    fn size(&self) -> usize
        ensures { result ≡ size self.now };

    /// The correlation of the places `i` and `j`.
    fn corr(&self, i: usize, j: usize) -> Corr6
        requires row { i < size self.now }
        requires column { j < size self.now }
        ensures { result.0 ≡ corr self.now i j };

    ghost symmetric: { (x : Self) (i j : ℕ) → i < size x → j < size x → corr x i j ≡ corr x j i };

    ghost at_most_one: { (x : Self) (i j : ℕ) → i < size x → j < size x
        → unsigned_abs (corr x i j) ≤ 1000000 };

    ghost one_with_itself: { (x : Self) (i : ℕ) → i < size x → corr x i i ≡ one };
}
