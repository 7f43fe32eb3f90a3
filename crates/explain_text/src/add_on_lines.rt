//! The lines of the additional margins.
ghost use Rattle.std.specs.Prelude.{◌≡◌, ◌++◌, List, true, OnOk};
ghost use Rattle.std.specs.List.{flat_map, list_all};
ghost use Rattle.measured_bucket.specs.SimmKinds.Batch.{is_in_range};
ghost use Rattle.measured_bucket.specs.SimmKinds.declared.row.CrifRow.{CrifRow as Row};
ghost use Rattle.measured_bucket.specs.SimmRules.AddOns.{multiplier, notional_factor};
ghost use Rattle.measured_bucket.specs.SimmRules.Parts.{product_part};
ghost use Rattle.class_combine.specs.Multipliers.{IsMultiplier};
ghost use Rattle.class_combine.specs.Notionals.{size_at, IsFactor};
ghost use Rattle.class_combine.specs.Sums.{AreOfBook};
ghost use Rattle.class_combine.specs.Whole.{HasProductMargins};
ghost use Rattle.explain_text.specs.Lines.{add_on_fields, amount_fields};
ghost use Rattle.explain_text.specs.Lines.{notional_line, multiplier_line};
ghost use Rattle.explain_text.specs.Explained.{adds_lines};

use breakdown_text::fault_text::{push_field, push_last_amount, push_number, push_sum};
use breakdown_text::push_add_ons;
use bucket_cache::BatchFigures;
use class_combine::{AddOnSums, multiplier_share, notional_share};
use measured_bucket::mh_units::{Cents, Rate4, Text};
use measured_bucket::simm_kinds::{CrifRow, Name, ProductClass};
use measured_bucket::simm_rules::Breakdown;
use std::alloc::AllocError;

/// Adds the lines of the additional margins of a batch with these parameters: each factor of
/// notionals and each multiplier, in the order of their rows, and the sums that aren't 0.
pub(crate) fn push_adds(
    text: &mut Text,
    parameters: &[CrifRow],
    figures: &BatchFigures,
) -> Result<(), AllocError>
    requires add_ons { AreOfBook figures.now.add_ons parameters.now }
    requires margins { HasProductMargins figures.now.margin }
    ensures { OnOk result (text.new ≡ text.old
        ++ adds_lines parameters.now (size_at figures.now.add_ons.notionals) figures.now.margin) }
{
    push_notionals(text, parameters, &figures.add_ons)?;
    push_multipliers(text, parameters, &figures.margin)?;
    push_add_ons(text, &figures.margin)?;
    Ok(())
}

// Adds those of the factors of notionals.
fn push_notionals(
    text: &mut Text,
    parameters: &[CrifRow],
    sums: &AddOnSums,
) -> Result<(), AllocError>
    requires { AreOfBook sums.now parameters.now }
    ensures { OnOk result (text.new ≡ text.old ++ flat_map
        (notional_line (size_at sums.now.notionals)) (flat_map notional_factor parameters.now)) }
{
    for row in parameters {
        push_row_notional(text, row, sums)?;
    }
    Ok(())
}

// Adds that of a row, where it is one.
fn push_row_notional(text: &mut Text, row: &CrifRow, sums: &AddOnSums) -> Result<(), AllocError>
    requires row { is_in_range row.now ≡ true }
    requires book { (parameters : List Row) × AreOfBook sums.now parameters }
    ensures { OnOk result (text.new ≡ text.old
        ++ flat_map (notional_line (size_at sums.now.notionals)) (notional_factor row.now)) }
{
    match row {
        CrifRow::NotionalFactor { qualifier, factor } => {
            push_notional(text, qualifier.name(), *factor, sums)?;
            Ok(())
        }
        CrifRow::Sensitivity { .. }
        | CrifRow::Notional { .. }
        | CrifRow::FixedAmount(_)
        | CrifRow::Multiplier { .. } => Ok(()),
    }
}

// Adds that of a factor.
fn push_notional(
    text: &mut Text,
    qualifier: &Name,
    factor: Rate4,
    sums: &AddOnSums,
) -> Result<(), AllocError>
    requires factor { IsFactor factor.0 }
    requires book { (parameters : List Row) × AreOfBook sums.now parameters }
    ensures { OnOk result (text.new ≡ text.old ++ notional_line (size_at sums.now.notionals)
        (record { of = qualifier.now; amount = factor.0 })) }
{
    let share = notional_share(sums, qualifier, factor);
    push_start(text, b"NOTIONAL", qualifier.bytes(), factor)?;
    push_amounts(text, share.size, share.amount)?;
    Ok(())
}

// Adds those of the multipliers.
fn push_multipliers(
    text: &mut Text,
    parameters: &[CrifRow],
    margin: &Breakdown,
) -> Result<(), AllocError>
    requires amounts { list_all is_in_range parameters.now ≡ true }
    requires margins { HasProductMargins margin.now }
    ensures { OnOk result (text.new ≡ text.old
        ++ flat_map (multiplier_line (λ product. (product_part margin.now product).margin.0))
        (flat_map multiplier parameters.now)) }
{
    for row in parameters {
        push_row_multiplier(text, row, margin)?;
    }
    Ok(())
}

// Adds that of a row, where it is one.
fn push_row_multiplier(text: &mut Text, row: &CrifRow, margin: &Breakdown) -> Result<(), AllocError>
    requires row { is_in_range row.now ≡ true }
    requires margins { HasProductMargins margin.now }
    ensures { OnOk result (text.new ≡ text.old
        ++ flat_map (multiplier_line (λ product. (product_part margin.now product).margin.0))
        (multiplier row.now)) }
{
    match row {
        CrifRow::Multiplier { product, factor } => {
            push_multiplier(text, *product, *factor, margin)?;
            Ok(())
        }
        CrifRow::Sensitivity { .. }
        | CrifRow::Notional { .. }
        | CrifRow::FixedAmount(_)
        | CrifRow::NotionalFactor { .. } => Ok(()),
    }
}

// Adds that of a multiplier.
fn push_multiplier(
    text: &mut Text,
    product: ProductClass,
    factor: Rate4,
    margin: &Breakdown,
) -> Result<(), AllocError>
    requires factor { IsMultiplier factor.0 }
    requires margins { HasProductMargins margin.now }
    ensures { OnOk result (text.new ≡ text.old
        ++ multiplier_line (λ product. (product_part margin.now product).margin.0)
        (record { of = product; amount = factor.0 })) }
{
    let its = margin.product(product).margin;
    let adds = multiplier_share(factor, its);
    push_start(text, b"MULTIPLIER", product.word().as_bytes(), factor)?;
    push_amounts(text, its, adds)?;
    Ok(())
}

// Adds what a line begins with: its kind, what it is of, and the factor or the multiplier.
fn push_start(text: &mut Text, kind: &[u8], of: &[u8], rate: Rate4) -> Result<(), AllocError>
    ensures { OnOk result (text.new ≡ text.old ++ add_on_fields kind.now of.now rate.0) }
{
    push_field(text, b"ADDON")?;
    push_field(text, kind)?;
    push_field(text, of)?;
    push_number(text, rate.0)
}

// Adds what it ends with: the amount that it is for, and what it adds.
fn push_amounts(text: &mut Text, for_amount: Cents, adds: Cents) -> Result<(), AllocError>
    ensures { OnOk result (text.new ≡ text.old ++ amount_fields for_amount.0 adds.0) }
{
    push_sum(text, for_amount.0)?;
    push_last_amount(text, adds.0)
}
