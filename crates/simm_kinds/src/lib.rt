//! The kinds, keys, rows and batches of margin sensitivities, after the columns of the
//! CRIF standard.
#![tactic(auto)]

mod batch;
mod batch_faults;
mod bucket;
mod bucket_number;
mod credit_tenor;
mod currency;
mod currency_pair;
mod factor;
mod fault;
mod full_name;
mod key;
mod kinds;
mod listed;
mod margin_side;
mod name;
mod order_laws;
mod repeats;
mod row;
mod words;

pub use batch::Batch;
pub use bucket::Bucket;
pub use bucket_number::BucketNumber;
pub use credit_tenor::CreditTenor;
pub use currency::Currency;
pub use currency_pair::CurrencyPair;
pub use factor::Factor;
pub use fault::{MakeFault, NameFault};
pub use full_name::FullName;
pub use key::FactorKey;
pub use kinds::{BucketId, Measure, ProductClass, RiskClass, RiskType, Side, SubCurve, Tenor};
pub use listed::Listed;
pub use margin_side::MarginSide;
pub use name::Name;
pub use order_laws::orders_are_defined;
pub use row::{CrifRow, TradeRows};

// what the crates above reach through this one
pub use mh_units;
