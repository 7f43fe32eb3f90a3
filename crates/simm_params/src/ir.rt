use crate::currency_groups::CurrencyGroups;
use crate::currency_list::CurrencyList;
use crate::matrix::Matrix;
use crate::rates::Rates;
use crate::thresholds::Thresholds;
use simm_rules::mh_units::Rate4;

/// Risk weights of a curve by tenor, by the volatility of its currency.
#[derive(Drop)]
pub struct CurveWeights {
    /// Of a currency of regular volatility.
    pub regular: Rates,
    /// Of a currency of low volatility.
    pub low: Rates,
    /// Of a currency of high volatility.
    pub high: Rates,
}

/// Risk weights of inflation and of cross-currency basis.
#[derive(Clone, Copy)]
pub struct FactorWeights {
    /// The weight of inflation.
    pub inflation: Rate4,
    /// The weight of cross-currency basis.
    pub basis: Rate4,
}

/// Correlations of sub-curves, with inflation, with cross-currency basis, and of two currencies.
#[derive(Clone, Copy)]
pub struct FactorRhos {
    /// Of two sub-curves of one currency.
    pub phi: Rate4,
    /// Of inflation with a point of a curve.
    pub inflation: Rate4,
    /// Of cross-currency basis with each other rate of its currency.
    pub basis: Rate4,
    /// Of two currencies.
    pub gamma: Rate4,
}

/// The vega risk weight and the historical volatility ratio.
#[derive(Clone, Copy)]
pub struct VolatilityRates {
    /// The vega risk weight.
    pub vrw: Rate4,
    /// The historical volatility ratio.
    pub hvr: Rate4,
}

/// The parameters of interest rates.
#[derive(Drop)]
pub struct IrParams {
    /// The currencies of low volatility.
    pub low: CurrencyList,
    /// The currencies of regular volatility; all others are of high volatility.
    pub regular: CurrencyList,
    /// Risk weights of points of curves.
    pub curves: CurveWeights,
    /// Risk weights of the other rates.
    pub weights: FactorWeights,
    /// Correlations of two tenors.
    pub tenor_rhos: Matrix,
    /// The other correlations.
    pub rhos: FactorRhos,
    /// What sensitivities to volatilities need.
    pub volatility: VolatilityRates,
    /// The thresholds of the currencies in no group.
    pub other: Thresholds,
    /// The concentration groups of currencies.
    pub groups: CurrencyGroups,
}
