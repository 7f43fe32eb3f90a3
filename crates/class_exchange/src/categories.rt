ghost use Rattle.std.specs.Prelude.{◌≡◌, ◌≤◌, length, unsigned_abs};
ghost use Rattle.measured_bucket.specs.SimmParams.declared.category.VolatilityCategory.{
  VolatilityCategory as Category,
};
ghost use Rattle.class_exchange.specs.Currencies.{rho_at, rho_of};

use crate::currencies::CurrencyNet;
use measured_bucket::mh_units::Corr6;
use measured_bucket::simm_params::Params;
use measured_bucket::weighted_bucket::Rho;

/// The correlations of currencies, by the volatility categories of both.
#[derive(Clone, Copy)]
pub struct CategoryRho<'a> {
    /// The parameters.
    pub params: &'a Params,
    /// The currencies.
    pub currencies: &'a [CurrencyNet],
    ghost symmetric: { (a b : Category) → rho_of params.now a b ≡ rho_of params.now b a },
    ghost at_most_one: { (a b : Category) → unsigned_abs (rho_of params.now a b) ≤ 1000000 },
}

impl Rho for CategoryRho<'_> {
    ghost size = { λ x. length x.currencies.now };

    ghost rho = { λ x. rho_at x.params.now x.currencies.now };

    ghost symmetric = { λ x _ _ _ _. x.symmetric _ _ };

    ghost at_most_one = { λ x _ _ _ _. x.at_most_one _ _ };

    fn size(&self) -> usize {
        self.currencies.len()
    }

    fn rho(&self, row: usize, column: usize) -> Corr6 {
        let (a, b) = (&self.currencies[row], &self.currencies[column]);
        self.params.fx_rho(a.category, b.category).in_millionths()
    }
}
