ghost use Rattle.std.specs.Prelude.{◌≡◌, slice_index_or, pos};
ghost use Rattle.simm_params.specs.FxLookups.{pair_rate, category_place};

use crate::category::{ConcentrationCategory, VolatilityCategory};
use crate::currency_list::CurrencyList;
use simm_rules::mh_units::Rate4;

/// Risk weights by the volatility of a currency.
#[derive(Clone, Copy)]
pub struct FxWeights {
    /// Of a currency of regular volatility.
    pub regular: Rate4,
    /// Of a currency of high volatility.
    pub high: Rate4,
}

/// Rates by the volatilities of two currencies: both regular, mixed, both high.
#[derive(Clone, Copy)]
pub struct PairRates {
    /// Where both are of regular volatility.
    pub regular: Rate4,
    /// Where one is of high volatility.
    pub mixed: Rate4,
    /// Where both are of high volatility.
    pub high: Rate4,
}

impl PairRates {
    ghost use Rattle.simm_params.specs.FxView.{rates_view};

    /// The rate of two currencies of these volatility categories.
    pub fn of(&self, a: VolatilityCategory, b: VolatilityCategory) -> Rate4
        ensures { result.0 ≡ pair_rate (rates_view self.now) a b }
    {
        match (a, b) {
            (VolatilityCategory::Regular, VolatilityCategory::Regular) => self.regular,
            (VolatilityCategory::High, VolatilityCategory::High) => self.high,
            _ => self.mixed,
        }
    }
}

/// Concentration thresholds in cents, by the concentration category of a currency.
#[derive(Clone, Copy)]
pub struct FxThresholds {
    /// Of the first category.
    pub first: i64,
    /// Of the second category.
    pub second: i64,
    /// Of the third category.
    pub third: i64,
}

impl FxThresholds {
    ghost use Rattle.simm_params.specs.Fx.{row};
    ghost use Rattle.simm_params.specs.FxView.{thresholds_view};

    /// The threshold of a concentration category.
    pub fn of(&self, category: ConcentrationCategory) -> i64
        ensures { result
            ≡ slice_index_or (row (thresholds_view self.now)) (category_place category) (pos 0) }
    {
        match category {
            ConcentrationCategory::First => self.first,
            ConcentrationCategory::Second => self.second,
            ConcentrationCategory::Third => self.third,
        }
    }
}

/// Concentration thresholds of a currency pair, by the concentration category of one of its
/// currencies, and behind it of the other.
#[derive(Clone, Copy)]
pub struct PairThresholds {
    /// Of the first category.
    pub first: FxThresholds,
    /// Of the second category.
    pub second: FxThresholds,
    /// Of the third category.
    pub third: FxThresholds,
}

impl PairThresholds {
    ghost use Rattle.simm_params.specs.FxView.{rows_view};
    ghost use Rattle.simm_params.specs.Matrix.{entry};

    /// The threshold of two currencies of these concentration categories.
    pub fn of(&self, a: ConcentrationCategory, b: ConcentrationCategory) -> i64
        ensures { result ≡ entry (rows_view self.now) (category_place a) (category_place b) }
    {
        match a {
            ConcentrationCategory::First => self.first.of(b),
            ConcentrationCategory::Second => self.second.of(b),
            ConcentrationCategory::Third => self.third.of(b),
        }
    }
}

/// The parameters of sensitivities to the volatility of a currency pair.
#[derive(Clone, Copy)]
pub struct FxVolatilities {
    /// Thresholds of sensitivities to the volatility of a pair.
    pub thresholds: PairThresholds,
    /// Volatilities.
    pub sigmas: PairRates,
    /// The vega risk weight.
    pub vrw: Rate4,
    /// The historical volatility ratio.
    pub hvr: Rate4,
    /// The correlation of two pairs.
    pub rho: Rate4,
}

/// The parameters of foreign exchange.
#[derive(Drop)]
pub struct FxParams {
    /// The currencies of high volatility; all others are regular.
    pub high: CurrencyList,
    /// Risk weights of currencies.
    pub weights: FxWeights,
    /// Correlations of two currencies.
    pub rhos: PairRates,
    /// The currencies of the first concentration category.
    pub first: CurrencyList,
    /// The currencies of the second concentration category; all others are in the third.
    pub second: CurrencyList,
    /// Thresholds of sensitivities to a currency.
    pub thresholds: FxThresholds,
    /// What sensitivities to volatilities need.
    pub volatilities: FxVolatilities,
}

impl FxParams {
    ghost use Rattle.simm_params.specs.FxView.{fx_view};
    ghost use Rattle.simm_params.specs.FxLookups.{pair_rho, pair_sigma, pair_threshold};

    /// The correlation of two different currencies of these volatility categories.
    pub fn rho(&self, a: VolatilityCategory, b: VolatilityCategory) -> Rate4
        ensures { result.0 ≡ pair_rho (fx_view self.now) a b }
    {
        self.rhos.of(a, b)
    }

    /// The volatility of a pair whose currencies are of these volatility categories.
    pub fn sigma(&self, a: VolatilityCategory, b: VolatilityCategory) -> Rate4
        ensures { result.0 ≡ pair_sigma (fx_view self.now) a b }
    {
        self.volatilities.sigmas.of(a, b)
    }

    /// The vega threshold, in cents, of a pair whose currencies are of these
    /// concentration categories.
    pub fn vega_threshold(&self, a: ConcentrationCategory, b: ConcentrationCategory) -> i64
        ensures { result ≡ pair_threshold (fx_view self.now) a b }
    {
        self.volatilities.thresholds.of(a, b)
    }
}
