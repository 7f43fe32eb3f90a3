//! What a row weighs in gross sizes.
ghost use Rattle.std.specs.Prelude.{◌≡◌, ◌*◌, ◌^◌, ◌≤◌, true, IfSome, pos, ◌*ℤ◌, unsigned_abs};
ghost use Rattle.simm_params.specs.SimmKinds.declared.kinds.ProductClass.{ProductClass as Product};
ghost use Rattle.simm_params.specs.SimmKinds.declared.kinds.RiskClass.{RiskClass as Class};
ghost use Rattle.simm_params.specs.SimmKinds.Batch.{is_in_range};
ghost use Rattle.factor_book.specs.declared.place.BookSide.{BookSide as Side};
ghost use Rattle.factor_book.specs.Place.{place_of};
ghost use Rattle.book_range.specs.Sizes.{row_size, weighed_at};
ghost use Rattle.book_range.specs.Weights.{factor_weight};

use crate::gross::weigh_size;
use crate::weighing::Weighing;
use factor_book::Place;
use simm_params::Params;
use simm_params::mh_units::Cents;
use simm_params::simm_kinds::{CrifRow, FactorKey};

/// What a sensitivity weighs, and where it stands.
#[derive(Clone, Copy)]
pub struct RowSize {
    /// The place of its factor.
    pub place: Place,
    /// The size of its amount, times the weight of its factor, in ten-thousandths of a cent.
    pub size: i128,
}

/// What a row weighs, whose amount is one that a batch can have; `None` where it is no
/// sensitivity. It costs a look-up and a product.
pub fn row_size(params: &Params, row: &CrifRow) -> Option<RowSize>
    requires { is_in_range row.now ≡ true }
    ensures value { (product : Product) (class : Class) (side : Side)
        → weighed_at result product class side ≡ row_size params.now product class side row.now }
    ensures bound { IfSome result (λ weighed. unsigned_abs weighed.size ≤ 2 * 10 ^ 28) }
{
    match row {
        CrifRow::Sensitivity { key, amount } => Some(key_size(params, key, *amount)),
        CrifRow::Notional { .. }
        | CrifRow::FixedAmount(_)
        | CrifRow::NotionalFactor { .. }
        | CrifRow::Multiplier { .. } => None,
    }
}

fn key_size(params: &Params, key: &FactorKey, amount: Cents) -> RowSize
    requires { unsigned_abs amount.0 ≤ 10 ^ 15 }
    ensures place { result.place ≡ place_of key.now }
    ensures size { result.size
        ≡ pos (unsigned_abs amount.0) *ℤ factor_weight params.now key.now.factor }
    ensures bound { unsigned_abs result.size ≤ 2 * 10 ^ 28 }
{
    let place = Place::of(key);
    let weight = Weighing::at(params, &place).weight(params, &key.factor);
    let size = weigh_size(amount.0.abs(), weight);
    RowSize { place, size }
}
