//! The fields of lines that name a factor: type, qualifier, bucket, tenor, sub-curve and second
//! label.
ghost use Rattle.std.specs.Prelude.{◌≡◌, ◌++◌, ℕ, [], List, OnOk};
ghost use Rattle.measured_bucket.specs.SimmKinds.Factors.{bucket_id_of};
ghost use Rattle.class_credit.specs.Points.{credit_view};
ghost use Rattle.class_rates.specs.Rates.{rule_rate};
ghost use Rattle.class_rates.specs.Volatilities.{rule_volatility};
ghost use Rattle.explain_text.specs.Lines.{bucket_word};
ghost use Rattle.explain_text.specs.Names.{currency_name, index_name, name_fields, pair_name};
ghost use Rattle.explain_text.specs.Names.{point_name, price_name, rate_name, volatility_name};

use crate::place_lines::push_bucket_word;
use breakdown_text::fault_text::push_field;
use breakdown_text::push_factor_parts;
use class_credit::{IndexNet, PointNet};
use class_exchange::CurrencyNet;
use class_priced::NameNet;
use class_rates::{Rate, RateNet, Volatility, VolatilityNet};
use measured_bucket::TenorSum;
use measured_bucket::mh_units::Text;
use measured_bucket::simm_kinds::{Bucket, Currency, CurrencyPair, FullName, RiskType};
use std::alloc::AllocError;

/// A net sensitivity whose factor has a name in lines.
pub trait Named {
    /// What the factors of a bucket have alike in their names.
    type Within;

    /// The fields of the name.
    ghost name: { Self.Within → Self → List ℕ };

    /// Adds the fields of the name, each followed by another. Want of memory is the only error.
    fn push_name(&self, text: &mut Text, within: &Self::Within) -> Result<(), AllocError>
        ensures { OnOk result (text.new ≡ text.old ++ name within.now self.now) };
}

/// A bucket that files list: the type of its factors, and its number.
#[derive(Clone, Copy)]
pub struct ListedType {
    /// The type.
    pub kind: RiskType,
    /// The bucket.
    pub bucket: Bucket,
}

impl Named for RateNet {
    type Within = Currency;

    ghost name = { λ currency net. rate_name currency (rule_rate net.rate) };

    fn push_name(&self, text: &mut Text, within: &Currency) -> Result<(), AllocError> {
        match self.rate {
            Rate::Curve { tenor, sub } => {
                push_of_currency(text, RiskType::IrCurve, within, tenor.word(), sub.word())
            }
            Rate::Inflation => push_of_currency(text, RiskType::Inflation, within, "", ""),
            Rate::Basis => push_of_currency(text, RiskType::XccyBasis, within, "", ""),
        }
    }
}

impl Named for VolatilityNet {
    type Within = Currency;

    ghost name = { λ currency net. volatility_name currency (rule_volatility net.volatility) };

    fn push_name(&self, text: &mut Text, within: &Currency) -> Result<(), AllocError> {
        match self.volatility {
            Volatility::Rates { tenor } => {
                push_of_currency(text, RiskType::IrVol, within, tenor.word(), "")
            }
            Volatility::Inflation { tenor } => {
                push_of_currency(text, RiskType::InflationVol, within, tenor.word(), "")
            }
        }
    }
}

impl Named for PointNet<'_> {
    type Within = ListedType;

    ghost name = { λ within net. point_name within.kind within.bucket (credit_view net.point) };

    fn push_name(&self, text: &mut Text, within: &ListedType) -> Result<(), AllocError> {
        let point = self.point;
        push_listed(
            text,
            within,
            point.issuer,
            point.tenor.word(),
            point.label.bytes(),
        )
    }
}

impl Named for IndexNet<'_> {
    type Within = ();

    ghost name = { λ _ net. index_name net.index.now };

    fn push_name(&self, text: &mut Text, _within: &()) -> Result<(), AllocError> {
        push_alone(text, RiskType::BaseCorr, self.index.bytes())
    }
}

impl Named for NameNet<'_> {
    type Within = ListedType;

    ghost name = { λ within net. price_name within.kind within.bucket net.name.now };

    fn push_name(&self, text: &mut Text, within: &ListedType) -> Result<(), AllocError> {
        push_listed(text, within, self.name, "", b"")
    }
}

impl Named for TenorSum<&FullName> {
    type Within = ListedType;

    ghost name = { λ within sum. price_name within.kind within.bucket sum.of.now };

    fn push_name(&self, text: &mut Text, within: &ListedType) -> Result<(), AllocError> {
        push_listed(text, within, self.of, "", b"")
    }
}

impl Named for CurrencyNet {
    type Within = ();

    ghost name = { λ _ net. currency_name net.currency };

    fn push_name(&self, text: &mut Text, _within: &()) -> Result<(), AllocError> {
        push_alone(text, RiskType::Fx, self.currency.letters())
    }
}

impl Named for TenorSum<CurrencyPair> {
    type Within = ();

    ghost name = { λ _ sum. pair_name sum.of };

    fn push_name(&self, text: &mut Text, _within: &()) -> Result<(), AllocError> {
        push_field(text, RiskType::FxVol.word().as_bytes())?;
        text.extend(self.of.first().letters())?;
        push_factor_parts(text, self.of.second().letters(), b"", "", "", b"")
    }
}

// Adds the name of a factor of a currency, which is qualifier and bucket.
fn push_of_currency(
    text: &mut Text,
    kind: RiskType,
    currency: &Currency,
    tenor: &str,
    sub: &str,
) -> Result<(), AllocError>
    ensures { OnOk result (text.new ≡ text.old
        ++ name_fields kind currency.now currency.now tenor.now sub.now []) }
{
    push_field(text, kind.word().as_bytes())?;
    push_factor_parts(
        text,
        currency.letters(),
        currency.letters(),
        tenor,
        sub,
        b"",
    )
}

// Adds the name of a factor of a bucket that files list.
fn push_listed(
    text: &mut Text,
    within: &ListedType,
    qualifier: &FullName,
    tenor: &str,
    label: &[u8],
) -> Result<(), AllocError>
    ensures { let bucket = bucket_word (bucket_id_of within.now.bucket) in
        OnOk result (text.new ≡ text.old
        ++ name_fields within.now.kind qualifier.now bucket tenor.now [] label.now) }
{
    push_field(text, within.kind.word().as_bytes())?;
    push_field(text, qualifier.bytes())?;
    push_bucket_word(text, &within.bucket.id())?;
    push_field(text, tenor.as_bytes())?;
    push_field(text, b"")?;
    push_field(text, label)
}

// Adds the name of a factor that its qualifier alone tells.
fn push_alone(text: &mut Text, kind: RiskType, qualifier: &[u8]) -> Result<(), AllocError>
    ensures { OnOk result (text.new ≡ text.old ++ name_fields kind qualifier.now [] [] [] []) }
{
    push_field(text, kind.word().as_bytes())?;
    push_factor_parts(text, qualifier, b"", "", "", b"")
}
