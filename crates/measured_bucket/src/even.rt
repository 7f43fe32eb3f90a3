ghost use Rattle.std.specs.Prelude.{◌≤◌, unsigned_abs, refl};

use simm_params::mh_units::Corr6;
use weighted_bucket::Rho;

/// One correlation of any two different factors of a bucket.
#[derive(Drop)]
pub struct EvenRho {
    /// How many factors there are.
    pub count: usize,
    /// The correlation.
    pub rho: Corr6,
    ghost at_most_one: { unsigned_abs rho.0 ≤ 1000000 },
}

impl Rho for EvenRho {
    ghost size = { λ x. x.count };

    ghost rho = { λ x _ _. x.rho.0 };

    ghost symmetric = { λ _ _ _ _ _. refl };

    ghost at_most_one = { λ x _ _ _ _. x.at_most_one };

    fn size(&self) -> usize {
        self.count
    }

    fn rho(&self, _row: usize, _column: usize) -> Corr6 {
        self.rho
    }
}
