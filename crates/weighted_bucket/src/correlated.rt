ghost use Rattle.std.specs.Prelude.{◌≡◌, ℕ, ◌<◌, ◌≤◌, All, length, pos, ◌≤ℤ◌, ◌<ℤ◌, unsigned_abs};
ghost use Rattle.pair_sum.specs.WithItself.{with_itself-one};
ghost use Rattle.concentration.specs.SimmRules.Concentration.{one};
ghost use Rattle.weighted_bucket.specs.Correlated.{correlation, scaled_at};

use crate::rho::Rho;
use crate::scaling::Scaling;
use crate::way::Way;
use crate::weighed::Weighed;
use concentration::mh_units::Corr6;
use concentration::{combine, ratio};
use pair_sum::Correlation;

/// The correlations of the factors of one bucket, by their places.
#[derive(Drop)]
pub struct Correlated<'a, R: Rho, W: Way> {
    /// The class's table of correlations.
    pub rho: &'a R,
    /// The factors, weighed, at the same places.
    pub factors: &'a [Weighed],
    /// How concentrations count in a pair.
    pub way: W,
    ghost sized: { R.size rho.now ≡ length factors.now },
    ghost from_one: { All (λ factor. one ≤ℤ factor.cr.0) factors.now },
    ghost below: { All (λ factor. factor.cr.0 <ℤ pos 347000000) factors.now },
    ghost symmetric: { (i j : ℕ) → i < length factors.now → j < length factors.now →
        correlation W.scaling factors.now (R.rho rho.now) i j
        ≡ correlation W.scaling factors.now (R.rho rho.now) j i },
    ghost at_most_one: { (i j : ℕ) → i < length factors.now → j < length factors.now →
        unsigned_abs (correlation W.scaling factors.now (R.rho rho.now) i j) ≤ 1000000 },
}

impl<R: Rho, W: Way> Correlation for Correlated<'_, R, W> {
    ghost size = { λ x. length x.factors.now };

    ghost corr = { λ x. correlation W.scaling x.factors.now (R.rho x.rho.now) };

    ghost symmetric = { λ x. x.symmetric };

    ghost at_most_one = { λ x. x.at_most_one };

    ghost one_with_itself = { λ x i _.
        with_itself-one (scaled_at W.scaling x.factors.now (R.rho x.rho.now)) i };

    fn size(&self) -> usize {
        self.factors.len()
    }

    fn corr(&self, i: usize, j: usize) -> Corr6 {
        if i == j {
            return Corr6::ONE;
        }
        let rho = self.rho.rho(i, j);
        match self.way.scaling() {
            Scaling::Concentrated => combine(rho, ratio(self.factors[i].cr, self.factors[j].cr)),
            Scaling::Plain => rho,
            Scaling::Squared => combine(rho, rho),
        }
    }
}
