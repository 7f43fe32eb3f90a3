//! The fields of a risk factor: qualifier, bucket, tenor, sub-curve and second label.
ghost use Rattle.std.specs.Prelude.{◌≡◌, ◌++◌, [], OnOk, decimal};
ghost use Rattle.simm_kinds.specs.Bucket.{bucket_text};
ghost use Rattle.simm_kinds.specs.Tenors.{tenor_word, tenor_at};
ghost use Rattle.fault_text.specs.Fields.{field};
ghost use Rattle.breakdown_text.specs.Factors.{parts, factor_fields};

use fault_text::{push_field, push_number};
use mh_units::Text;
use simm_kinds::{Bucket, BucketNumber, CreditTenor, Currency, CurrencyPair, Factor};
use std::alloc::AllocError;

/// Adds the fields of a factor: qualifier, bucket, tenor, sub-curve and second label, each
/// followed by another.
pub fn push_factor(text: &mut Text, factor: &Factor) -> Result<(), AllocError>
    ensures { OnOk result (text.new ≡ text.old ++ factor_fields factor.now) }
{
    match factor {
        Factor::IrCurve {
            currency,
            tenor,
            sub,
        } => push_rate(text, currency, tenor.word(), sub.word()),
        Factor::Inflation { currency } | Factor::XccyBasis { currency } => {
            push_rate(text, currency, "", "")
        }
        Factor::IrVol { currency, tenor } | Factor::InflationVol { currency, tenor } => {
            push_rate(text, currency, tenor.word(), "")
        }
        Factor::CreditQ {
            issuer,
            bucket,
            tenor,
            label2,
        }
        | Factor::CreditVol {
            issuer,
            bucket,
            tenor,
            label2,
        }
        | Factor::CreditNonQ {
            issuer,
            bucket,
            tenor,
            label2,
        }
        | Factor::CreditVolNonQ {
            issuer,
            bucket,
            tenor,
            label2,
        } => push_credit(text, issuer.bytes(), *bucket, *tenor, label2.bytes()),
        Factor::BaseCorr { index } => push_factor_parts(text, index.bytes(), b"", "", "", b""),
        Factor::Equity { issuer, bucket } => push_equity(text, issuer.bytes(), *bucket, ""),
        Factor::EquityVol {
            issuer,
            bucket,
            tenor,
        } => push_equity(text, issuer.bytes(), *bucket, tenor.word()),
        Factor::Commodity { name, bucket } => push_commodity(text, name.bytes(), *bucket, ""),
        Factor::CommodityVol {
            name,
            bucket,
            tenor,
        } => push_commodity(text, name.bytes(), *bucket, tenor.word()),
        Factor::Fx { currency } => push_factor_parts(text, currency.letters(), b"", "", "", b""),
        Factor::FxVol { pair, tenor } => push_pair(text, *pair, tenor.word()),
    }
}

/// Adds the five fields of a factor as they are: qualifier, bucket, tenor, sub-curve and
/// second label.
pub fn push_factor_parts(
    text: &mut Text,
    qualifier: &[u8],
    bucket: &[u8],
    tenor: &str,
    sub: &str,
    label: &[u8],
) -> Result<(), AllocError>
    ensures { OnOk result
        (text.new ≡ text.old ++ parts qualifier.now bucket.now tenor.now sub.now label.now) }
{
    push_field(text, qualifier)?;
    push_field(text, bucket)?;
    push_points(text, tenor, sub, label)
}

// Tenor, sub-curve and second label.
fn push_points(text: &mut Text, tenor: &str, sub: &str, label: &[u8]) -> Result<(), AllocError>
    ensures { OnOk result
        (text.new ≡ text.old ++ field tenor.now ++ field sub.now ++ field label.now) }
{
    push_field(text, tenor.as_bytes())?;
    push_field(text, sub.as_bytes())?;
    push_field(text, label)
}

fn push_rate(text: &mut Text, currency: &Currency, tenor: &str, sub: &str) -> Result<(), AllocError>
    ensures { OnOk result
        (text.new ≡ text.old ++ parts currency.now currency.now tenor.now sub.now []) }
{
    push_factor_parts(
        text,
        currency.letters(),
        currency.letters(),
        tenor,
        sub,
        b"",
    )
}

fn push_bucket(text: &mut Text, bucket: Bucket) -> Result<(), AllocError>
    ensures { OnOk result (text.new ≡ text.old ++ field (bucket_text bucket)) }
{
    match bucket {
        Bucket::Number(number) => push_number(text, number.get()),
        Bucket::Residual => push_field(text, b"Residual"),
    }
}

fn push_credit(
    text: &mut Text,
    issuer: &[u8],
    bucket: Bucket,
    tenor: CreditTenor,
    label: &[u8],
) -> Result<(), AllocError>
    ensures { OnOk result (text.new ≡ text.old ++ parts issuer.now (bucket_text bucket)
        (tenor_word (tenor_at tenor)) [] label.now) }
{
    push_field(text, issuer)?;
    push_bucket(text, bucket)?;
    push_points(text, tenor.word(), "", label)
}

fn push_equity(
    text: &mut Text,
    issuer: &[u8],
    bucket: Bucket,
    tenor: &str,
) -> Result<(), AllocError>
    ensures { OnOk result
        (text.new ≡ text.old ++ parts issuer.now (bucket_text bucket) tenor.now [] []) }
{
    push_field(text, issuer)?;
    push_bucket(text, bucket)?;
    push_points(text, tenor, "", b"")
}

fn push_commodity(
    text: &mut Text,
    name: &[u8],
    bucket: BucketNumber,
    tenor: &str,
) -> Result<(), AllocError>
    ensures { OnOk result (text.new ≡ text.old ++ parts name.now (decimal bucket) tenor.now [] []) }
{
    push_field(text, name)?;
    push_number(text, bucket.get())?;
    push_points(text, tenor, "", b"")
}

// The six letters of a pair.
fn push_pair(text: &mut Text, pair: CurrencyPair, tenor: &str) -> Result<(), AllocError>
    ensures { OnOk result
        (text.new ≡ text.old ++ parts (pair.first ++ pair.second) [] tenor.now [] []) }
{
    text.extend(pair.first().letters())?;
    push_field(text, pair.second().letters())?;
    push_field(text, b"")?;
    push_points(text, tenor, "", b"")
}
