//! The lines of factors: what each is weighed from, and its weighted value.
ghost use Rattle.std.specs.Prelude.{◌≡◌, ◌++◌, OnOk};
ghost use Rattle.std.specs.List.{flat_map};
ghost use Rattle.explain_text.specs.Factors.{explained_line};
ghost use Rattle.explain_text.specs.Lines.{amount_text, group_fields};
ghost use Rattle.explain_text.specs.Lines.{weighing_fields, weighted_fields};
ghost use Rattle.breakdown_text.specs.FaultText.Fields.{field};

use crate::measure_fields::measure_word;
use crate::names::Named;
use breakdown_text::fault_text::{
    push_amount, push_field, push_last_amount, push_number, push_sum,
};
use measured_bucket::mh_units::{Rate4, Text};
use measured_bucket::simm_kinds::{Measure, ProductClass};
use measured_bucket::weighted_bucket::Weighed;
use measured_bucket::{Explained, Group, Weighing};
use std::alloc::AllocError;

/// Adds the line of each factor of a bucket in a measure, in their order.
pub(crate) fn push_factors<N: Named>(
    text: &mut Text,
    measure: Measure,
    product: ProductClass,
    within: &N::Within,
    factors: &[Explained<N>],
) -> Result<(), AllocError>
    ensures { OnOk result (text.new ≡ text.old
        ++ flat_map (explained_line measure product (N.name within.now)) factors.now) }
{
    for factor in factors {
        push_factor(text, measure, product, within, factor)?;
    }
    Ok(())
}

// Adds that of one.
fn push_factor<N: Named>(
    text: &mut Text,
    measure: Measure,
    product: ProductClass,
    within: &N::Within,
    factor: &Explained<N>,
) -> Result<(), AllocError>
    ensures { OnOk result (text.new ≡ text.old
        ++ explained_line measure product (N.name within.now) factor.now) }
{
    push_field(text, b"FACTOR")?;
    push_field(text, measure_word(measure).as_bytes())?;
    push_field(text, product.word().as_bytes())?;
    factor.net.push_name(text, within)?;
    push_weighing(text, measure, &factor.from)?;
    push_weighted(text, factor.from.weight, &factor.weighed)
}

// Adds what it is weighed from: its amount, and its concentration group.
fn push_weighing(text: &mut Text, measure: Measure, from: &Weighing) -> Result<(), AllocError>
    ensures { OnOk result (text.new ≡ text.old ++ weighing_fields measure from.now) }
{
    push_weighed_amount(text, measure, from.amount)?;
    push_group(text, from.group)
}

// Adds the amount: in cents, but that of curvature as a whole number.
fn push_weighed_amount(text: &mut Text, measure: Measure, amount: i128) -> Result<(), AllocError>
    ensures { OnOk result (text.new ≡ text.old ++ field (amount_text measure amount)) }
{
    match measure {
        Measure::Curvature => push_number(text, amount),
        Measure::Delta | Measure::Vega | Measure::BaseCorr => push_sum(text, amount),
    }
}

// Adds the net and the threshold of a group; where there is none, both fields are empty.
fn push_group(text: &mut Text, group: Option<Group>) -> Result<(), AllocError>
    ensures { OnOk result (text.new ≡ text.old ++ group_fields group) }
{
    match group {
        Some(group) => {
            push_sum(text, group.net)?;
            push_amount(text, group.threshold)
        }
        None => {
            push_field(text, b"")?;
            push_field(text, b"")
        }
    }
}

// Adds the concentration factor, the weight and the weighted value.
fn push_weighted(text: &mut Text, weight: Rate4, weighed: &Weighed) -> Result<(), AllocError>
    ensures { OnOk result (text.new ≡ text.old
        ++ weighted_fields weighed.now.cr.0 weight.0 weighed.now.w) }
{
    push_number(text, weighed.cr.0)?;
    push_number(text, weight.0)?;
    push_last_amount(text, weighed.w)
}
