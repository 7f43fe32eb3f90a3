//! The correlations of a currency's volatilities.
ghost use Rattle.std.specs.Prelude.{◌≡◌, ◌≤◌, ℕ, length, unsigned_abs};
ghost use Rattle.class_rates.specs.Rho.{volatility_rho_at, volatility_rho_of};

use crate::volatilities::VolatilityNet;
use crate::volatility::Volatility;
use measured_bucket::mh_units::Corr6;
use measured_bucket::simm_params::Params;
use measured_bucket::weighted_bucket::Rho;

/// The parameters' correlations of the volatilities of one currency, by their places.
#[derive(Drop)]
pub struct VolatilityRho<'a> {
    /// The parameters.
    pub params: &'a Params,
    /// The volatilities.
    pub volatilities: &'a [VolatilityNet],
    ghost symmetric: { (i j : ℕ) → volatility_rho_at params.now volatilities.now i j
        ≡ volatility_rho_at params.now volatilities.now j i },
    ghost at_most_one: { (i j : ℕ)
        → unsigned_abs (volatility_rho_at params.now volatilities.now i j) ≤ 1000000 },
}

impl Rho for VolatilityRho<'_> {
    ghost size = { λ x. length x.volatilities.now };

    ghost rho = { λ x. volatility_rho_at x.params.now x.volatilities.now };

    ghost symmetric = { λ x i j _ _. x.symmetric i j };

    ghost at_most_one = { λ x i j _ _. x.at_most_one i j };

    fn size(&self) -> usize {
        self.volatilities.len()
    }

    fn rho(&self, i: usize, j: usize) -> Corr6 {
        correlation(
            self.params,
            self.volatilities[i].volatility,
            self.volatilities[j].volatility,
        )
    }
}

// The correlation of two volatilities of one currency.
fn correlation(params: &Params, a: Volatility, b: Volatility) -> Corr6
    ensures { result.0 ≡ volatility_rho_of params.now a b }
{
    let rate = match (a, b) {
        (Volatility::Rates { tenor: t }, Volatility::Rates { tenor: u })
        | (Volatility::Inflation { tenor: t }, Volatility::Inflation { tenor: u }) =>
            params.tenor_rho(t, u),
        (Volatility::Rates { .. }, Volatility::Inflation { .. })
        | (Volatility::Inflation { .. }, Volatility::Rates { .. }) => params.inflation_rho(),
    };
    rate.in_millionths()
}
