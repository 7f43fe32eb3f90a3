//! The parameters of the margin rule, and the look-ups of the calculators.
#![tactic(auto)]

mod bucket;
mod buckets;
mod category;
mod classes;
mod currency_groups;
mod currency_list;
mod fx;
mod ir;
mod matrix;
mod params;
mod rates;
mod tables;
mod thresholds;

pub use bucket::{BucketTerms, ClassBucket, MOST_BUCKETS};
pub use buckets::Buckets;
pub use category::{ConcentrationCategory, CurveCategory, VolatilityCategory};
pub use classes::{BaseParams, CreditBucket, CreditParams, PricedBucket, PricedParams};
pub use currency_groups::{CurrencyGroup, CurrencyGroups};
pub use currency_list::CurrencyList;
pub use fx::{FxParams, FxThresholds, FxVolatilities, FxWeights, PairRates, PairThresholds};
pub use ir::{CurveWeights, FactorRhos, FactorWeights, IrParams, VolatilityRates};
pub use matrix::Matrix;
pub use params::Params;
pub use rates::Rates;
pub use tables::{ClassTables, Tables};
pub use thresholds::{ThresholdKind, Thresholds};

// what the crates above reach through this one
pub use simm_rules;
pub use simm_rules::{mh_units, simm_kinds};
pub use toml_values;
