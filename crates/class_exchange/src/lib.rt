//! Foreign exchange: the delta, vega and curvature of the one bucket of a product class. Each is a
//! measure in a file of its own: which factors it weighs, how, and how they correlate. A
//! sensitivity to the calculation currency is no risk, and the volatilities of a pair of
//! currencies at all tenors are one factor.
//! (ISDA SIMM methodology, foreign exchange risk.)
#![tactic(auto)]

mod categories;
mod currencies;
mod curvature;
mod delta;
mod exchange;
mod pairs;
mod vega;

pub use categories::CategoryRho;
pub use currencies::{CurrencyNet, risky_currencies};
pub use curvature::FxCurvature;
pub use delta::FxDelta;
pub use exchange::{fx_curvature, fx_delta, fx_vega};
pub use pairs::volatile_pairs;
pub use vega::FxVega;
