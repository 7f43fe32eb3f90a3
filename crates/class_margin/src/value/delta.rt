//! The delta value of a bucket, by what stands in it.
ghost use Rattle.std.specs.Prelude.{◌≡◌, ◌+◌, ◌*◌, ◌≤◌, Some, IfOk};
ghost use Rattle.class_rates.specs.FactorBook.declared.slot.Slot.TheVariants as slot;
ghost use Rattle.class_margin.specs.value.Delta.{delta_count, delta_of, IsDeltaReady, IsDeltaSized};

use class_credit::{ListedCredit, credit_delta};
use class_exchange::fx_delta;
use class_priced::{ListedPriced, priced_delta};
use class_rates::currency_delta;
use class_rates::factor_book::{PlaceFactors, Slot};
use class_rates::pair_sum::Steps;
use class_rates::simm_kinds::{Bucket, Currency};
use class_rates::simm_params::Params;
use class_rates::simm_rules::{BucketMargin, CreditClass, PricedClass};
use std::alloc::{AllocError, Global};
use std::sync::ledger::Ledger;

/// The delta value of a bucket, of the factors of its place, which are in range; a bucket of
/// credit, equity or commodities is one that the file lists. `n` factors take at most `n * n`
/// steps. Want of memory is the only error.
pub fn delta_of<L: Ledger>(
    alloc: Global,
    params: &Params,
    slot: Slot,
    lent: &PlaceFactors,
    steps: &mut Steps<L>,
) -> Result<BucketMargin, AllocError>
    requires { IsDeltaReady params.now slot lent.now.factors }
    ensures value { IfOk result (λ m. Some m ≡ delta_of params.now slot lent.now.factors) }
    ensures sized { IfOk result (IsDeltaSized params.now slot lent.now.factors) }
    ensures steps { let n = delta_count params.now slot lent.now.factors in
        steps.new ≤ steps.old + n * n }
{
    match slot {
        Slot::Rates(currency) => rates(alloc, params, &currency, lent, steps),
        Slot::Credit(class, bucket) => credit(alloc, params, class, bucket, lent, steps),
        Slot::Priced(class, bucket) => priced(alloc, params, class, bucket, lent, steps),
        Slot::Exchange => exchange(alloc, params, lent, steps),
    }
}

// That of a currency.
fn rates<L: Ledger>(
    alloc: Global,
    params: &Params,
    currency: &Currency,
    lent: &PlaceFactors,
    steps: &mut Steps<L>,
) -> Result<BucketMargin, AllocError>
    requires { IsDeltaReady params.now (slot.Rates currency.now) lent.now.factors }
    ensures value { IfOk result (λ m.
        Some m ≡ delta_of params.now (slot.Rates currency.now) lent.now.factors) }
    ensures sized { IfOk result
        (IsDeltaSized params.now (slot.Rates currency.now) lent.now.factors) }
    ensures steps { let n = delta_count params.now (slot.Rates currency.now) lent.now.factors in
        steps.new ≤ steps.old + n * n }
{
    currency_delta(alloc, params, currency, lent, steps)
}

// That of a bucket of credit.
fn credit<L: Ledger>(
    alloc: Global,
    params: &Params,
    class: CreditClass,
    bucket: Bucket,
    lent: &PlaceFactors,
    steps: &mut Steps<L>,
) -> Result<BucketMargin, AllocError>
    requires { IsDeltaReady params.now (slot.Credit class bucket) lent.now.factors }
    ensures value { IfOk result (λ m.
        Some m ≡ delta_of params.now (slot.Credit class bucket) lent.now.factors) }
    ensures sized { IfOk result
        (IsDeltaSized params.now (slot.Credit class bucket) lent.now.factors) }
    ensures steps { let n = delta_count params.now (slot.Credit class bucket) lent.now.factors in
        steps.new ≤ steps.old + n * n }
{
    let listed = ListedCredit::of(params, class, bucket).unwrap();
    credit_delta(alloc, listed, lent, steps)
}

// That of a bucket of equity or of commodities.
fn priced<L: Ledger>(
    alloc: Global,
    params: &Params,
    class: PricedClass,
    bucket: Bucket,
    lent: &PlaceFactors,
    steps: &mut Steps<L>,
) -> Result<BucketMargin, AllocError>
    requires { IsDeltaReady params.now (slot.Priced class bucket) lent.now.factors }
    ensures value { IfOk result (λ m.
        Some m ≡ delta_of params.now (slot.Priced class bucket) lent.now.factors) }
    ensures sized { IfOk result
        (IsDeltaSized params.now (slot.Priced class bucket) lent.now.factors) }
    ensures steps { let n = delta_count params.now (slot.Priced class bucket) lent.now.factors in
        steps.new ≤ steps.old + n * n }
{
    let listed = ListedPriced::of(params, class, bucket).unwrap();
    priced_delta(alloc, listed, lent, steps)
}

// That of foreign exchange.
fn exchange<L: Ledger>(
    alloc: Global,
    params: &Params,
    lent: &PlaceFactors,
    steps: &mut Steps<L>,
) -> Result<BucketMargin, AllocError>
    requires { IsDeltaReady params.now slot.Exchange lent.now.factors }
    ensures value { IfOk result (λ m. Some m ≡ delta_of params.now slot.Exchange lent.now.factors) }
    ensures sized { IfOk result (IsDeltaSized params.now slot.Exchange lent.now.factors) }
    ensures steps { let n = delta_count params.now slot.Exchange lent.now.factors in
        steps.new ≤ steps.old + n * n }
{
    fx_delta(alloc, params, lent, steps)
}
