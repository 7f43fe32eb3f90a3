//! The margins of the risk classes in each product class: what is kept of them, and what is not is
//! worked out and kept.
ghost use Rattle.std.specs.Prelude.{◌≡◌, ◌+◌, ◌≤◌, List, Some, IsSome, IsOk, OnOk};
ghost use Rattle.kept_buckets.specs.SimmKinds.declared.kinds.ProductClass.{ProductClass as Product};
ghost use Rattle.kept_buckets.specs.SimmKinds.declared.kinds.RiskClass.{RiskClass as Class};
ghost use Rattle.kept_buckets.specs.SimmKinds.declared.key.FactorKey.{FactorKey};
ghost use Rattle.kept_buckets.specs.SimmRules.Params.{Params as AnyParams};
ghost use Rattle.kept_buckets.specs.FactorBook.declared.holding.Holding.{Holding};
ghost use Rattle.class_margin.specs.NegatedBook.Sides.{side_factors};
ghost use Rattle.kept_buckets.specs.SimmRules.Tables.{class_at, part_at};
ghost use Rattle.class_combine.specs.Whole.{AreProductClasses};
ghost use Rattle.class_margin.specs.BookRange.Bounded.{IsMarginable};
ghost use Rattle.kept_buckets.specs.Kept.{margin_at};
ghost use Rattle.book_margin.specs.Classes.{products_of};
ghost use Rattle.book_margin.specs.Right.{AreRight, AreMarginsKept, IsFresh, Renews, side_margin};
ghost use Rattle.book_margin.specs.Steps.{steps_due};

use crate::class::renew_class;
use class_combine::simm_params::Params;
use class_margin::pair_sum::Steps;
use kept_buckets::KeptBuckets;
use kept_buckets::factor_book::Factors;
use kept_buckets::mh_units::Cents;
use kept_buckets::simm_kinds::{MarginSide, ProductClass, RiskClass};
use kept_buckets::simm_rules::{ByClass, ByProduct};
use std::alloc::{AllocError, Global};
use std::sync::ledger::Ledger;

/// Sees that the margins of the risk classes in each product class are kept, on both sides. What
/// is not is worked out, place by place where no value is kept, and kept: each place that has a
/// factor, and each class. For want of memory, the only error, what is kept is right still. Where
/// the margin of each class is kept, no memory is taken and no step.
pub fn renew<L: Ledger>(
    alloc: Global,
    params: &Params,
    factors: &Factors,
    kept: &mut KeptBuckets,
    steps: &mut Steps<L>,
) -> Result<(), AllocError>
    requires book { IsMarginable params.now factors.now }
    requires right { AreRight params.now factors.now kept.old }
    ensures renewed { Renews params.now factors.now kept.old kept.new }
    ensures fresh { OnOk result (IsFresh factors.now kept.new) }
    ensures steps { OnOk result (steps.new + steps_due params.now kept.new factors.now
        ≤ steps.old + steps_due params.now kept.old factors.now) }
    ensures at_once { AreMarginsKept kept.old → IsOk result }
{
    for product in ProductClass::ALL {
        renew_product(alloc, params, factors, kept, product, steps)?;
    }
    Ok(())
}

// Sees that the margins of the risk classes in one product class are kept.
fn renew_product<L: Ledger>(
    alloc: Global,
    params: &Params,
    factors: &Factors,
    kept: &mut KeptBuckets,
    product: ProductClass,
    steps: &mut Steps<L>,
) -> Result<(), AllocError>
    requires book { IsMarginable params.now factors.now }
    requires right { AreRight params.now factors.now kept.old }
    ensures renewed { Renews params.now factors.now kept.old kept.new }
    ensures kept { OnOk result ((class : Class) → IsSome (margin_at kept.new product class)) }
    ensures steps { OnOk result (steps.new + steps_due params.now kept.new factors.now
        ≤ steps.old + steps_due params.now kept.old factors.now) }
    ensures at_once { AreMarginsKept kept.old → IsOk result }
{
    for class in RiskClass::ALL {
        renew_class(alloc, params, factors, kept, product, class, steps)?;
    }
    Ok(())
}

/// The margins of the risk classes in each product class on a side, all of which are kept.
pub fn kept_products(kept: &KeptBuckets, side: MarginSide) -> ByProduct<ByClass<Cents>>
    requires { AreMarginsKept kept.now }
    ensures read { (product : Product) (class : Class)
        → side_margin side kept.now product class ≡ Some (part_at result product class) }
    ensures value { (p : AnyParams) (factors : List (FactorKey × Holding))
        → AreRight p factors kept.now → result ≡ products_of p (side_factors side factors) }
    ensures margins { (p : AnyParams) (factors : List (FactorKey × Holding))
        → AreRight p factors kept.now → AreProductClasses result }
{
    ByProduct {
        rates_fx: kept_classes(kept, side, ProductClass::RatesFX),
        credit: kept_classes(kept, side, ProductClass::Credit),
        equity: kept_classes(kept, side, ProductClass::Equity),
        commodity: kept_classes(kept, side, ProductClass::Commodity),
    }
}

// Those in one product class.
fn kept_classes(kept: &KeptBuckets, side: MarginSide, product: ProductClass) -> ByClass<Cents>
    requires { AreMarginsKept kept.now }
    ensures { (class : Class)
        → side_margin side kept.now product class ≡ Some (class_at result class) }
{
    ByClass {
        ir: kept_margin(kept, side, product, RiskClass::IR),
        credit_q: kept_margin(kept, side, product, RiskClass::CreditQ),
        credit_nonq: kept_margin(kept, side, product, RiskClass::CreditNonQ),
        equity: kept_margin(kept, side, product, RiskClass::Equity),
        commodity: kept_margin(kept, side, product, RiskClass::Commodity),
        fx: kept_margin(kept, side, product, RiskClass::FX),
    }
}

// That of a class, in cents.
fn kept_margin(
    kept: &KeptBuckets,
    side: MarginSide,
    product: ProductClass,
    class: RiskClass,
) -> Cents
    requires { AreMarginsKept kept.now }
    ensures { side_margin side kept.now product class ≡ Some result }
{
    kept.margin(product, class).unwrap().on(side)
}
