//! Interest rates: the delta, vega and curvature of a currency's bucket. Each is a measure in a
//! file of its own: which factors it weighs, how, and how they correlate.
//! (ISDA SIMM methodology, interest rate risk.)
#![tactic(auto)]

mod currency;
mod curvature;
mod delta;
mod rate;
mod rate_rho;
mod rates;
mod vega;
mod volatilities;
mod volatility;
mod volatility_rho;

pub use currency::{currency_curvature, currency_delta, currency_vega};
pub use curvature::CurrencyCurvature;
pub use delta::CurrencyDelta;
pub use rate::Rate;
pub use rate_rho::RateRho;
pub use rates::{RateNet, rates_among};
pub use vega::CurrencyVega;
pub use volatilities::{VolatilityNet, volatilities_among};
pub use volatility::Volatility;
pub use volatility_rho::VolatilityRho;

// what the crates above reach through this one
pub use measured_bucket::{
    concentration, factor_book, mh_units, pair_sum, simm_kinds, simm_params, simm_rules,
};
