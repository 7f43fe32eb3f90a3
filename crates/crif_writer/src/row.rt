//! The fields of a row.
ghost use Rattle.std.specs.Prelude.{◌≡◌, ◌++◌, ◌∷◌, [], OnOk};
ghost use Rattle.crif_reader.specs.SimmKinds.NameText.{IsName};
ghost use Rattle.crif_writer.specs.Rows.{add_on_fields, subject_fields, cents_fields};
ghost use Rattle.crif_writer.specs.Rows.{rate_fields, amount_fields, row_fields, HasRowParts};

use crate::factor::push_factor;
use crate::fields::Fields;
use crif_reader::mh_units::{Cents, Rate4};
use crif_reader::simm_kinds::{CrifRow, Name, RiskType};
use std::alloc::AllocError;

/// Puts the fields of a trade's row in place of those that were there. The only error is want
/// of memory.
pub fn fill(fields: &mut Fields, trade: &Name, row: &CrifRow) -> Result<(), AllocError>
    ensures fields { OnOk result (fields.new ≡ row_fields trade.now row.now) }
    ensures name { OnOk result (IsName trade.now) }
    ensures parts { OnOk result (HasRowParts row.now) }
{
    fields.clear();
    fields.push(trade.bytes())?;
    push_subject(fields, row)?;
    push_amount(fields, row)
}

// What the amount is of: product class, risk type, qualifier, bucket and labels.
fn push_subject(fields: &mut Fields, row: &CrifRow) -> Result<(), AllocError>
    ensures fields { OnOk result (fields.new ≡ fields.old ++ subject_fields row.now) }
    ensures parts { OnOk result (HasRowParts row.now) }
{
    match row {
        CrifRow::Sensitivity { key, .. } => {
            fields.push(key.product.word().as_bytes())?;
            fields.push(key.kind().word().as_bytes())?;
            push_factor(fields, &key.factor)
        }
        CrifRow::Notional { qualifier, .. } => {
            push_add_on(fields, RiskType::Notional, qualifier.bytes())
        }
        CrifRow::FixedAmount(_) => push_add_on(fields, RiskType::AddOnFixedAmount, &[]),
        CrifRow::NotionalFactor { qualifier, .. } => {
            push_add_on(fields, RiskType::AddOnNotionalFactor, qualifier.bytes())
        }
        CrifRow::Multiplier { product, .. } => push_add_on(
            fields,
            RiskType::ProductClassMultiplier,
            product.word().as_bytes(),
        ),
    }
}

// An add-on has neither a product class nor a bucket or labels.
fn push_add_on(fields: &mut Fields, kind: RiskType, qualifier: &[u8]) -> Result<(), AllocError>
    ensures { OnOk result (fields.new ≡ fields.old ++ add_on_fields kind qualifier.now) }
{
    fields.push_empty()?;
    fields.push(kind.word().as_bytes())?;
    fields.push(qualifier)?;
    fields.push_empty()?;
    fields.push_empty()?;
    fields.push_empty()
}

fn push_amount(fields: &mut Fields, row: &CrifRow) -> Result<(), AllocError>
    ensures { OnOk result (fields.new ≡ fields.old ++ amount_fields row.now) }
{
    match row {
        CrifRow::Sensitivity { amount, .. }
        | CrifRow::Notional { amount, .. }
        | CrifRow::FixedAmount(amount) => push_money(fields, *amount),
        CrifRow::NotionalFactor { factor, .. } | CrifRow::Multiplier { factor, .. } => {
            push_rate(fields, *factor)
        }
    }
}

fn push_money(fields: &mut Fields, amount: Cents) -> Result<(), AllocError>
    ensures { OnOk result (fields.new ≡ fields.old ++ cents_fields amount) }
{
    fields.push_cents(amount)?;
    fields.push(b"USD")?;
    fields.push_cents(amount)
}

fn push_rate(fields: &mut Fields, rate: Rate4) -> Result<(), AllocError>
    ensures { OnOk result (fields.new ≡ fields.old ++ rate_fields rate) }
{
    fields.push_rate4(rate)?;
    fields.push(b"USD")?;
    fields.push_empty()
}
