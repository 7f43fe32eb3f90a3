//! The add-on of product class multipliers.
ghost use Rattle.std.specs.Prelude.{◌≡◌, true, option_map, pos, ◌-ℤ◌, ◌*ℤ◌};
ghost use Rattle.std.specs.List.{list_all};
ghost use Rattle.simm_params.specs.MhUnits.Rounding.{up};
ghost use Rattle.simm_params.specs.SimmKinds.Batch.{is_in_range};
ghost use Rattle.simm_params.specs.SimmRules.AddOns.{multiplied, multiplier_of};
ghost use Rattle.class_combine.specs.Classes.{IsProductMargin};
ghost use Rattle.class_combine.specs.Multipliers.{multiplier_at, multiplied_in};
ghost use Rattle.class_combine.specs.Multipliers.{AreProductMargins, IsMultiplied, IsMultiplier};
ghost use Rattle.class_combine.specs.Whole.{IsAddOn};

use simm_params::mh_units::{Cents, Rate4, div_up};
use simm_params::simm_kinds::{CrifRow, ProductClass};
use simm_params::simm_rules::ByProduct;

/// What the multipliers among the parameters of a book add to the margins of its product classes,
/// in cents.
pub fn multiplied_margins(parameters: &[CrifRow], margins: &ByProduct<Cents>) -> Cents
    requires amounts { list_all is_in_range parameters.now ≡ true }
    requires margins { AreProductMargins margins.now }
    ensures value { result.0 ≡ multiplied_in parameters.now margins.now }
    ensures range { IsAddOn result.0 }
{
    let rates_fx = multiplied(parameters, ProductClass::RatesFX, margins.rates_fx);
    let credit = multiplied(parameters, ProductClass::Credit, margins.credit);
    let equity = multiplied(parameters, ProductClass::Equity, margins.equity);
    let commodity = multiplied(parameters, ProductClass::Commodity, margins.commodity);
    Cents(rates_fx.0 + credit.0 + equity.0 + commodity.0)
}

// What the multiplier of a product class adds to its margin, upwards to the cent.
fn multiplied(parameters: &[CrifRow], product: ProductClass, margin: Cents) -> Cents
    requires amounts { list_all is_in_range parameters.now ≡ true }
    requires margin { IsProductMargin margin.0 }
    ensures value { result.0 ≡ multiplied parameters.now product margin.0 }
    ensures range { IsMultiplied result.0 }
{
    multiplier_share(multiplier_of(parameters, product), margin)
}

/// What a multiplier, in ten-thousandths and from 1 to 10, adds to the margin of its product
/// class: in cents, upwards to the cent.
pub fn multiplier_share(factor: Rate4, margin: Cents) -> Cents
    requires factor { IsMultiplier factor.0 }
    requires margin { IsProductMargin margin.0 }
    ensures value { result.0 ≡ up ((factor.0 -ℤ pos 10000) *ℤ margin.0) (pos 10000) }
    ensures range { IsMultiplied result.0 }
{
    let over = i128::from(factor.0) - 10_000;
    Cents(div_up(over * margin.0, 10_000))
}

// The multiplier of a product class, which is 1 where no row gives it.
fn multiplier_of(parameters: &[CrifRow], product: ProductClass) -> Rate4
    requires { list_all is_in_range parameters.now ≡ true }
    ensures value { result.0 ≡ multiplier_of parameters.now product }
    ensures range { IsMultiplier result.0 }
{
    for row in parameters {
        if let Some(factor) = multiplier_at(row, product) {
            return factor;
        }
    }
    Rate4(10_000)
}

// The multiplier that a row gives a product class.
fn multiplier_at(row: &CrifRow, product: ProductClass) -> Option<Rate4>
    ensures { option_map (λ factor. factor.0) result ≡ multiplier_at product row.now }
{
    match row {
        CrifRow::Multiplier {
            product: of,
            factor,
        } if *of == product => Some(*factor),
        CrifRow::Multiplier { .. }
        | CrifRow::Sensitivity { .. }
        | CrifRow::Notional { .. }
        | CrifRow::FixedAmount(_)
        | CrifRow::NotionalFactor { .. } => None,
    }
}
