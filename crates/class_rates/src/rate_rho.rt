//! The correlations of a currency's rates.
ghost use Rattle.std.specs.Prelude.{◌≡◌, ◌≤◌, ℕ, length, unsigned_abs};
ghost use Rattle.class_rates.specs.Rho.{rho_at, rho_of};

use crate::rate::Rate;
use crate::rates::RateNet;
use measured_bucket::concentration::combine;
use measured_bucket::mh_units::Corr6;
use measured_bucket::simm_params::Params;
use measured_bucket::weighted_bucket::Rho;

/// The parameters' correlations of the rates of one currency, by their places.
#[derive(Drop)]
pub struct RateRho<'a> {
    /// The parameters.
    pub params: &'a Params,
    /// The rates.
    pub rates: &'a [RateNet],
    ghost symmetric: { (i j : ℕ)
        → rho_at params.now rates.now i j ≡ rho_at params.now rates.now j i },
    ghost at_most_one: { (i j : ℕ) → unsigned_abs (rho_at params.now rates.now i j) ≤ 1000000 },
}

impl Rho for RateRho<'_> {
    ghost size = { λ x. length x.rates.now };

    ghost rho = { λ x. rho_at x.params.now x.rates.now };

    ghost symmetric = { λ x i j _ _. x.symmetric i j };

    ghost at_most_one = { λ x i j _ _. x.at_most_one i j };

    fn size(&self) -> usize {
        self.rates.len()
    }

    fn rho(&self, i: usize, j: usize) -> Corr6 {
        correlation(self.params, self.rates[i].rate, self.rates[j].rate)
    }
}

// The correlation of two rates of one currency.
fn correlation(params: &Params, a: Rate, b: Rate) -> Corr6
    ensures { result.0 ≡ rho_of params.now a b }
{
    match (a, b) {
        (Rate::Curve { tenor: t, sub: s }, Rate::Curve { tenor: u, sub: v }) => combine(
            params.tenor_rho(t, u).in_millionths(),
            params.sub_rho(s, v).in_millionths(),
        ),
        (Rate::Inflation, Rate::Inflation) | (Rate::Basis, Rate::Basis) => Corr6::ONE,
        (Rate::Curve { .. }, Rate::Inflation) | (Rate::Inflation, Rate::Curve { .. }) => {
            params.inflation_rho().in_millionths()
        }
        (Rate::Curve { .. } | Rate::Inflation, Rate::Basis)
        | (Rate::Basis, Rate::Curve { .. } | Rate::Inflation) => params.basis_rho().in_millionths(),
    }
}
