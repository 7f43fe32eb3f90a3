//! The fields of a risk factor.
ghost use Rattle.std.specs.Prelude.{◌≡◌, ◌++◌, ◌∷◌, [], OnOk};
ghost use Rattle.crif_reader.specs.SimmKinds.Bucket.{bucket_text};
ghost use Rattle.crif_writer.specs.Parts.{qualifier_text, bucket_field};
ghost use Rattle.crif_writer.specs.Parts.{label1_text, label2_text, factor_fields};
ghost use Rattle.crif_writer.specs.Parts.{IsQualified, IsBucket, IsBucketed, IsLabelled, HasParts};

use crate::fields::Fields;
use crif_reader::simm_kinds::{Bucket, Factor};
use std::alloc::AllocError;

/// Adds what a factor has in the columns of the qualifier, the bucket and the two labels. The only
/// error is want of memory.
pub fn push_factor(fields: &mut Fields, factor: &Factor) -> Result<(), AllocError>
    ensures fields { OnOk result (fields.new ≡ fields.old ++ factor_fields factor.now) }
    ensures parts { OnOk result (HasParts factor.now) }
{
    push_qualifier(fields, factor)?;
    push_bucket(fields, factor)?;
    push_label1(fields, factor)?;
    push_label2(fields, factor)
}

fn push_qualifier(fields: &mut Fields, factor: &Factor) -> Result<(), AllocError>
    ensures field { OnOk result (fields.new ≡ fields.old ++ qualifier_text factor.now ∷ []) }
    ensures part { OnOk result (IsQualified factor.now) }
{
    match factor {
        Factor::IrCurve { currency, .. }
        | Factor::Inflation { currency }
        | Factor::XccyBasis { currency }
        | Factor::IrVol { currency, .. }
        | Factor::InflationVol { currency, .. }
        | Factor::Fx { currency } => fields.push(currency.letters()),
        Factor::CreditQ { issuer, .. }
        | Factor::CreditVol { issuer, .. }
        | Factor::CreditNonQ { issuer, .. }
        | Factor::CreditVolNonQ { issuer, .. }
        | Factor::Equity { issuer, .. }
        | Factor::EquityVol { issuer, .. } => fields.push(issuer.bytes()),
        Factor::BaseCorr { index } => fields.push(index.bytes()),
        Factor::Commodity { name, .. } | Factor::CommodityVol { name, .. } => {
            fields.push(name.bytes())
        }
        Factor::FxVol { pair, .. } => {
            pair.facts();
            fields.push_pair(*pair)
        }
    }
}

fn push_bucket(fields: &mut Fields, factor: &Factor) -> Result<(), AllocError>
    ensures field { OnOk result (fields.new ≡ fields.old ++ bucket_field factor.now ∷ []) }
    ensures part { OnOk result (IsBucketed factor.now) }
{
    match factor {
        Factor::CreditQ { bucket, .. }
        | Factor::CreditVol { bucket, .. }
        | Factor::CreditNonQ { bucket, .. }
        | Factor::CreditVolNonQ { bucket, .. }
        | Factor::Equity { bucket, .. }
        | Factor::EquityVol { bucket, .. } => push_bucket_word(fields, *bucket),
        Factor::Commodity { bucket, .. } | Factor::CommodityVol { bucket, .. } => {
            fields.push_number(bucket.get())
        }
        Factor::IrCurve { .. }
        | Factor::Inflation { .. }
        | Factor::XccyBasis { .. }
        | Factor::IrVol { .. }
        | Factor::InflationVol { .. }
        | Factor::BaseCorr { .. }
        | Factor::Fx { .. }
        | Factor::FxVol { .. } => fields.push_empty(),
    }
}

fn push_bucket_word(fields: &mut Fields, bucket: Bucket) -> Result<(), AllocError>
    ensures field { OnOk result (fields.new ≡ fields.old ++ bucket_text bucket ∷ []) }
    ensures part { OnOk result (IsBucket bucket) }
{
    match bucket {
        Bucket::Number(number) => fields.push_number(number.get()),
        Bucket::Residual => fields.push(b"Residual"),
    }
}

fn push_label1(fields: &mut Fields, factor: &Factor) -> Result<(), AllocError>
    ensures { OnOk result (fields.new ≡ fields.old ++ label1_text factor.now ∷ []) }
{
    match factor {
        Factor::IrCurve { tenor, .. }
        | Factor::IrVol { tenor, .. }
        | Factor::InflationVol { tenor, .. }
        | Factor::EquityVol { tenor, .. }
        | Factor::CommodityVol { tenor, .. }
        | Factor::FxVol { tenor, .. } => fields.push(tenor.word().as_bytes()),
        Factor::CreditQ { tenor, .. }
        | Factor::CreditVol { tenor, .. }
        | Factor::CreditNonQ { tenor, .. }
        | Factor::CreditVolNonQ { tenor, .. } => fields.push(tenor.word().as_bytes()),
        Factor::Inflation { .. }
        | Factor::XccyBasis { .. }
        | Factor::BaseCorr { .. }
        | Factor::Equity { .. }
        | Factor::Commodity { .. }
        | Factor::Fx { .. } => fields.push_empty(),
    }
}

fn push_label2(fields: &mut Fields, factor: &Factor) -> Result<(), AllocError>
    ensures field { OnOk result (fields.new ≡ fields.old ++ label2_text factor.now ∷ []) }
    ensures part { OnOk result (IsLabelled factor.now) }
{
    match factor {
        Factor::IrCurve { sub, .. } => fields.push(sub.word().as_bytes()),
        Factor::CreditQ { label2, .. }
        | Factor::CreditVol { label2, .. }
        | Factor::CreditNonQ { label2, .. }
        | Factor::CreditVolNonQ { label2, .. } => fields.push(label2.bytes()),
        Factor::Inflation { .. }
        | Factor::XccyBasis { .. }
        | Factor::IrVol { .. }
        | Factor::InflationVol { .. }
        | Factor::BaseCorr { .. }
        | Factor::Equity { .. }
        | Factor::EquityVol { .. }
        | Factor::Commodity { .. }
        | Factor::CommodityVol { .. }
        | Factor::Fx { .. }
        | Factor::FxVol { .. } => fields.push_empty(),
    }
}
