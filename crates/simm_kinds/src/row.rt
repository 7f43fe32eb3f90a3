use crate::{FactorKey, FullName, Listed, Name, ProductClass};
use mh_units::{Cents, Rate4};

/// One row: a sensitivity, or part of an add-on.
#[derive(Drop)]
pub enum CrifRow {
    /// A sensitivity: what it is to, and how much.
    Sensitivity {
        key: FactorKey,
        amount: Cents,
    },
    /// The notional of a trade, for the add-on of its qualifier.
    Notional {
        qualifier: Name,
        amount: Cents,
    },
    /// A fixed add-on.
    FixedAmount(Cents),
    /// The share of its qualifier's notional that is added on.
    NotionalFactor {
        qualifier: FullName,
        factor: Rate4,
    },
    /// What the margin of a product class is multiplied by.
    Multiplier {
        product: ProductClass,
        factor: Rate4,
    },
}

/// The rows of one trade. The empty name is the trade that holds the parameters of add-ons.
#[derive(Drop)]
pub struct TradeRows {
    /// The name of the trade.
    pub trade: Name,
    /// Its rows, in the order of the file.
    pub rows: Listed<CrifRow>,
}
