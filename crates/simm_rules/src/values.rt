ghost use Rattle.std.specs.Prelude.{◌≡◌};
ghost use Rattle.simm_rules.specs.Parts.{product_part, class_part};
ghost use Rattle.simm_rules.specs.RangeNumber.{range_number};

use crate::tables::{ByClass, ByProduct};
use simm_kinds::mh_units::{Cents, Corr6};
use simm_kinds::{ProductClass, RiskClass};

/// What one bucket gives to the margin of its class. Amounts are in cents, `q` in cents squared
/// times 10^6.
#[derive(Clone, Copy, Debug, PartialEq, Eq)]
pub struct BucketMargin {
    /// The sum over all ordered pairs of factors of correlation and both weighted sensitivities.
    pub q: i128,
    /// The bucket's margin, the root of `q`.
    pub k: i128,
    /// The sum of the weighted sensitivities, held between `-k` and `k`.
    pub s: i128,
    /// The sum of the weighted sensitivities.
    pub sum: i128,
    /// The sum of their sizes.
    pub gross: i128,
    /// The currency's concentration factor in interest rates, 1 elsewhere.
    pub cr: Corr6,
}

/// The margin of a product class, and of each risk class in it.
#[derive(Clone, Copy)]
pub struct ProductMargin {
    /// The product class's margin.
    pub margin: Cents,
    /// The margins of the risk classes in it.
    pub classes: ByClass<Cents>,
}

impl ProductMargin {
    /// The margin of a risk class.
    pub fn class(&self, class: RiskClass) -> Cents
        ensures { result ≡ class_part self.now class }
    {
        *self.classes.of(class)
    }
}

/// A margin with all of its parts.
#[derive(Clone, Copy)]
pub struct Breakdown {
    /// The part of each product class.
    pub products: ByProduct<ProductMargin>,
    /// The add-on of fixed amounts.
    pub fixed: Cents,
    /// The add-on of notional factors.
    pub notional: Cents,
    /// The add-on of product class multipliers.
    pub multiplier: Cents,
    /// The whole margin.
    pub total: Cents,
}

impl Breakdown {
    /// The part of a product class.
    pub fn product(&self, product: ProductClass) -> &ProductMargin
        ensures { result.now ≡ product_part self.now product }
    {
        self.products.of(product)
    }
}

/// Which quantity of a book is out of range.
#[derive(Clone, Copy, Debug)]
pub enum RangeKind {
    /// Rows.
    RowCount,
    /// Different keys of sensitivities.
    KeyCount,
    /// Different keys of one product class, risk class, side and bucket.
    BucketKeys,
    /// Weighted sizes of the delta rows of one product and risk class, in cents.
    DeltaGross,
    /// Weighted sizes of the volatility rows of one product and risk class, in cents.
    VegaGross,
}

impl RangeKind {
    /// The kind's number in printed text.
    pub fn number(self) -> u8
        ensures { result ≡ range_number self }
    {
        match self {
            RangeKind::RowCount => 1,
            RangeKind::KeyCount => 2,
            RangeKind::BucketKeys => 3,
            RangeKind::DeltaGross => 4,
            RangeKind::VegaGross => 5,
        }
    }
}

/// A book that is out of range: the first quantity that is above its limit.
#[derive(Clone, Copy)]
pub struct RangeFault {
    /// The quantity.
    pub which: RangeKind,
    /// How much there is of it: a count, or cents for the weighted sizes.
    pub value: i128,
    /// The most that there may be of it, in the same unit.
    pub limit: i128,
}
