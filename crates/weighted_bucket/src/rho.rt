ghost use Rattle.std.specs.Prelude.{◌≡◌, ℕ, ◌<◌, ◌≤◌, ℤ, unsigned_abs};

use concentration::mh_units::Corr6;

/// The parameters' correlations of two different factors of a bucket, by their places: the same
/// both ways round, and between -1 and 1. What is looked up for a factor, as its tenor or its
/// category, is looked up once, when the table is made.
pub trait Rho {
    ghost size: { Self → ℕ };

    ghost rho: { Self → ℕ → ℕ → ℤ };

    /// How many places there are.
    fn size(&self) -> usize
        ensures { result ≡ size self.now };

    /// The correlation of the factors at `i` and `j`. At one place twice any one is right, since
    /// none is asked for.
    fn rho(&self, i: usize, j: usize) -> Corr6
        requires row { i < size self.now }
        requires column { j < size self.now }
        ensures { result.0 ≡ rho self.now i j };

    ghost symmetric: { (x : Self) (i j : ℕ) → i < size x → j < size x → rho x i j ≡ rho x j i };

    ghost at_most_one: { (x : Self) (i j : ℕ) → i < size x → j < size x
        → unsigned_abs (rho x i j) ≤ 1000000 };
}
