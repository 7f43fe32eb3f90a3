//! The curvature value of a bucket, by what stands in it.
ghost use Rattle.std.specs.Prelude.{◌≡◌, ◌+◌, ◌*◌, ◌≤◌, Some, IfOk};
ghost use Rattle.class_rates.specs.FactorBook.declared.slot.Slot.TheVariants as slot;
ghost use Rattle.class_margin.specs.value.Curvature.{curvature_of, IsCurvatureSized};
ghost use Rattle.class_margin.specs.value.Volatile.{volatile_count, IsVolatileReady};

use class_credit::{ListedCredit, credit_curvature};
use class_exchange::fx_curvature;
use class_priced::{ListedPriced, priced_curvature};
use class_rates::currency_curvature;
use class_rates::factor_book::{PlaceFactors, Slot};
use class_rates::pair_sum::Steps;
use class_rates::simm_kinds::{Bucket, Currency};
use class_rates::simm_params::Params;
use class_rates::simm_rules::{BucketMargin, CreditClass, PricedClass};
use std::alloc::{AllocError, Global};
use std::sync::ledger::Ledger;

/// The curvature value of a bucket, of the volatilities of its place, which are in range; a bucket
/// of credit, equity or commodities is one that the file lists. `n` factors take at most `n * n`
/// steps. Want of memory is the only error.
pub fn curvature_of<L: Ledger>(
    alloc: Global,
    params: &Params,
    slot: Slot,
    lent: &PlaceFactors,
    steps: &mut Steps<L>,
) -> Result<BucketMargin, AllocError>
    requires { IsVolatileReady params.now slot lent.now.factors }
    ensures value { IfOk result (λ m. Some m ≡ curvature_of params.now slot lent.now.factors) }
    ensures sized { IfOk result (IsCurvatureSized params.now slot lent.now.factors) }
    ensures steps { let n = volatile_count slot lent.now.factors in steps.new ≤ steps.old + n * n }
{
    match slot {
        Slot::Rates(currency) => rates(alloc, params, &currency, lent, steps),
        Slot::Credit(class, bucket) => credit(alloc, params, class, bucket, lent, steps),
        Slot::Priced(class, bucket) => priced(alloc, params, class, bucket, lent, steps),
        Slot::Exchange => exchange(alloc, params, lent, steps),
    }
}

// That of a currency.
fn rates<L: Ledger>(
    alloc: Global,
    params: &Params,
    currency: &Currency,
    lent: &PlaceFactors,
    steps: &mut Steps<L>,
) -> Result<BucketMargin, AllocError>
    requires { IsVolatileReady params.now (slot.Rates currency.now) lent.now.factors }
    ensures value { IfOk result (λ m.
        Some m ≡ curvature_of params.now (slot.Rates currency.now) lent.now.factors) }
    ensures sized { IfOk result
        (IsCurvatureSized params.now (slot.Rates currency.now) lent.now.factors) }
    ensures steps { let n = volatile_count (slot.Rates currency.now) lent.now.factors in
        steps.new ≤ steps.old + n * n }
{
    currency_curvature(alloc, params, currency, lent, steps)
}

// That of a bucket of credit.
fn credit<L: Ledger>(
    alloc: Global,
    params: &Params,
    class: CreditClass,
    bucket: Bucket,
    lent: &PlaceFactors,
    steps: &mut Steps<L>,
) -> Result<BucketMargin, AllocError>
    requires { IsVolatileReady params.now (slot.Credit class bucket) lent.now.factors }
    ensures value { IfOk result (λ m.
        Some m ≡ curvature_of params.now (slot.Credit class bucket) lent.now.factors) }
    ensures sized { IfOk result
        (IsCurvatureSized params.now (slot.Credit class bucket) lent.now.factors) }
    ensures steps { let n = volatile_count (slot.Credit class bucket) lent.now.factors in
        steps.new ≤ steps.old + n * n }
{
    let listed = ListedCredit::of(params, class, bucket).unwrap();
    credit_curvature(alloc, listed, lent, steps)
}

// That of a bucket of equity or of commodities.
fn priced<L: Ledger>(
    alloc: Global,
    params: &Params,
    class: PricedClass,
    bucket: Bucket,
    lent: &PlaceFactors,
    steps: &mut Steps<L>,
) -> Result<BucketMargin, AllocError>
    requires { IsVolatileReady params.now (slot.Priced class bucket) lent.now.factors }
    ensures value { IfOk result (λ m.
        Some m ≡ curvature_of params.now (slot.Priced class bucket) lent.now.factors) }
    ensures sized { IfOk result
        (IsCurvatureSized params.now (slot.Priced class bucket) lent.now.factors) }
    ensures steps { let n = volatile_count (slot.Priced class bucket) lent.now.factors in
        steps.new ≤ steps.old + n * n }
{
    let listed = ListedPriced::of(params, class, bucket).unwrap();
    priced_curvature(alloc, listed, lent, steps)
}

// That of foreign exchange.
fn exchange<L: Ledger>(
    alloc: Global,
    params: &Params,
    lent: &PlaceFactors,
    steps: &mut Steps<L>,
) -> Result<BucketMargin, AllocError>
    requires { IsVolatileReady params.now slot.Exchange lent.now.factors }
    ensures value { IfOk result (λ m.
        Some m ≡ curvature_of params.now slot.Exchange lent.now.factors) }
    ensures sized { IfOk result (IsCurvatureSized params.now slot.Exchange lent.now.factors) }
    ensures steps { let n = volatile_count slot.Exchange lent.now.factors in
        steps.new ≤ steps.old + n * n }
{
    fx_curvature(alloc, params, lent, steps)
}
