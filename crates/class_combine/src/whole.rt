ghost use Rattle.std.specs.Prelude.{◌≡◌};
ghost use Rattle.class_combine.specs.Multipliers.{AreProductMargins};
ghost use Rattle.class_combine.specs.Whole.{margins_of, breakdown_of, product_margin_of};
ghost use Rattle.class_combine.specs.Whole.{AreProductClasses, AreAddOns};
ghost use Rattle.class_combine.specs.Whole.{IsTotal, HasProductMargins};

use crate::additional::AddOns;
use crate::product::product_margin;
use simm_params::Params;
use simm_params::mh_units::Cents;
use simm_params::simm_rules::{Breakdown, ByClass, ByProduct, ProductMargin};

/// The margins of the product classes that have these margins of their risk classes.
pub fn product_margins(params: &Params, classes: &ByProduct<ByClass<Cents>>) -> ByProduct<Cents>
    requires { AreProductClasses classes.now }
    ensures value { result ≡ margins_of params.now classes.now }
    ensures range { AreProductMargins result }
{
    ByProduct {
        rates_fx: product_margin(params, &classes.rates_fx),
        credit: product_margin(params, &classes.credit),
        equity: product_margin(params, &classes.equity),
        commodity: product_margin(params, &classes.commodity),
    }
}

/// The margin of a book of these margins of its risk classes and of its product classes, with
/// these add-ons.
pub fn breakdown(
    classes: &ByProduct<ByClass<Cents>>,
    margins: &ByProduct<Cents>,
    add_ons: &AddOns,
) -> Breakdown
    requires margins { AreProductMargins margins.now }
    requires add_ons { AreAddOns add_ons.now }
    ensures value { result ≡ breakdown_of classes.now margins.now add_ons.now }
    ensures total { IsTotal result.total.0 }
    ensures margins { HasProductMargins result }
{
    let products = margins.rates_fx.0 + margins.credit.0 + margins.equity.0 + margins.commodity.0;
    let total = products + add_ons.fixed.0 + add_ons.notional.0 + add_ons.multiplier.0;
    Breakdown {
        products: ByProduct {
            rates_fx: part(margins.rates_fx, classes.rates_fx),
            credit: part(margins.credit, classes.credit),
            equity: part(margins.equity, classes.equity),
            commodity: part(margins.commodity, classes.commodity),
        },
        fixed: add_ons.fixed,
        notional: add_ons.notional,
        multiplier: add_ons.multiplier,
        total: Cents(total),
    }
}

// The part of a product class.
fn part(margin: Cents, classes: ByClass<Cents>) -> ProductMargin
    ensures { result ≡ product_margin_of margin classes }
{
    ProductMargin { margin, classes }
}
