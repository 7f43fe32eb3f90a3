//! Gross sizes: the sizes of amounts, each times its weight.
ghost use Rattle.std.specs.Prelude.{◌≡◌, ◌*◌, ◌^◌, ◌≤◌, length, ◌*ℤ◌, unsigned_abs};
ghost use Rattle.std.specs.List.{AllByRecursion};
ghost use Rattle.factor_book.specs.Place.{place_of};
ghost use Rattle.book_range.specs.Gross.{AreSmall, place_size, side_size};
ghost use Rattle.book_range.specs.Sizes.{class_sizes, side_sizes, sizes_in};

use crate::sizes::GrossSizes;
use crate::weighing::Weighing;
use factor_book::{BookSide, Factors, PlaceFactors};
use simm_params::Params;
use simm_params::mh_units::Rate4;
use simm_params::simm_kinds::{ProductClass, RiskClass};
use simm_params::simm_rules::{ByClass, ByProduct};

/// The gross sizes of the factors of a book.
pub fn gross_sizes(params: &Params, factors: &Factors) -> GrossSizes
    requires small { AreSmall factors.now }
    requires few { length factors.now ≤ 20000 }
    ensures { result ≡ sizes_in params.now factors.now }
{
    GrossSizes {
        delta: side_sizes(params, factors, BookSide::Delta),
        volatility: side_sizes(params, factors, BookSide::Volatility),
    }
}

fn side_sizes(params: &Params, factors: &Factors, side: BookSide) -> ByProduct<ByClass<i128>>
    requires small { AreSmall factors.now }
    requires few { length factors.now ≤ 20000 }
    ensures { result ≡ side_sizes params.now factors.now side }
{
    ByProduct {
        rates_fx: class_sizes(params, factors, ProductClass::RatesFX, side),
        credit: class_sizes(params, factors, ProductClass::Credit, side),
        equity: class_sizes(params, factors, ProductClass::Equity, side),
        commodity: class_sizes(params, factors, ProductClass::Commodity, side),
    }
}

fn class_sizes(
    params: &Params,
    factors: &Factors,
    product: ProductClass,
    side: BookSide,
) -> ByClass<i128>
    requires small { AreSmall factors.now }
    requires few { length factors.now ≤ 20000 }
    ensures { result ≡ class_sizes params.now factors.now product side }
{
    ByClass {
        ir: side_size(params, factors, product, RiskClass::IR, side),
        credit_q: side_size(params, factors, product, RiskClass::CreditQ, side),
        credit_nonq: side_size(params, factors, product, RiskClass::CreditNonQ, side),
        equity: side_size(params, factors, product, RiskClass::Equity, side),
        commodity: side_size(params, factors, product, RiskClass::Commodity, side),
        fx: side_size(params, factors, product, RiskClass::FX, side),
    }
}

// In ten-thousandths of a cent.
fn side_size(
    params: &Params,
    factors: &Factors,
    product: ProductClass,
    class: RiskClass,
    side: BookSide,
) -> i128
    requires small { AreSmall factors.now }
    requires few { length factors.now ≤ 20000 }
    ensures { result ≡ side_size params.now factors.now product class side }
{
    let mut total = 0;
    for (_, lent) in factors.side(product, class, side) {
        total += place_size(params, lent);
    }
    total
}

fn place_size(params: &Params, lent: &PlaceFactors) -> i128
    requires there { AllByRecursion (λ f. place_of f.0 ≡ lent.now.place) lent.now.factors }
    requires small { AreSmall lent.now.factors }
    requires few { length lent.now.factors ≤ 20000 }
    ensures value { result ≡ place_size params.now lent.now.factors }
    ensures bound { unsigned_abs result ≤ 4 * 10 ^ 32 }
{
    let weighing = Weighing::at(params, &lent.place());
    let mut total = 0;
    for (key, holding) in lent.iter() {
        total += weigh_size(holding.size, weighing.weight(params, &key.factor));
    }
    total
}

/// The size of amounts to a factor times its weight, in ten-thousandths of a cent.
pub fn weigh_size(size: i128, weight: Rate4) -> i128
    requires size { unsigned_abs size ≤ 2 * 10 ^ 20 }
    requires weight { unsigned_abs weight.0 ≤ 10 ^ 8 }
    ensures value { result ≡ size *ℤ weight.0 }
    ensures bound { unsigned_abs result ≤ 2 * 10 ^ 28 }
{
    size * i128::from(weight.0)
}
