//! The kinds of the standard: product classes, risk classes, risk types, tenors, sub-curves,
//! buckets; and their words.
ghost use Rattle.std.specs.Prelude.{◌≡◌};
ghost use Rattle.simm_kinds.specs.Factors.{listed_id};
ghost use Rattle.simm_kinds.specs.Kinds.{product_word, class_word, kind_word, sub_word};
ghost use Rattle.simm_kinds.specs.Kinds.{product_named, class_named, kind_named, sub_named};
ghost use Rattle.simm_kinds.specs.Tenors.{tenor_word, tenor_named};

use crate::words::{Worded, first_worded, is_word};
use crate::{Bucket, BucketNumber, Currency};

/// The product class of a trade. Margins of different product classes never net.
#[derive(Clone, Copy, Debug, PartialEq, Eq, PartialOrd, Ord, Hash)]
pub enum ProductClass {
    /// Interest rates and foreign exchange.
    RatesFX,
    /// Credit.
    Credit,
    /// Equity.
    Equity,
    /// Commodities.
    Commodity,
}

impl ProductClass {
    /// All product classes, in their order.
    pub const ALL: [ProductClass; 4] = [
        ProductClass::RatesFX,
        ProductClass::Credit,
        ProductClass::Equity,
        ProductClass::Commodity,
    ];

    /// The word of the class in files and printed text.
    pub fn word(self) -> &'static str
        ensures { result.now ≡ product_word self }
    {
        match self {
            ProductClass::RatesFX => "RatesFX",
            ProductClass::Credit => "Credit",
            ProductClass::Equity => "Equity",
            ProductClass::Commodity => "Commodity",
        }
    }

    /// The product class that a text names: its word in any case, or `Rates` or `FX`, which are
    /// one class together. `None` for another text.
    pub fn read(text: &[u8]) -> Option<ProductClass>
        ensures { result ≡ product_named text.now }
    {
        if is_word("Rates", text) || is_word("FX", text) {
            return Some(ProductClass::RatesFX);
        }
        first_worded(&ProductClass::ALL, text)
    }
}

impl Worded for ProductClass {
    ghost use Rattle.simm_kinds.specs.Kinds.{product_word};

    ghost word_of = { product_word };

    fn file_word(&self) -> &'static str {
        self.word()
    }
}

/// The risk class that a sensitivity belongs to.
#[derive(Clone, Copy, Debug, PartialEq, Eq, PartialOrd, Ord, Hash)]
pub enum RiskClass {
    /// Interest rates, with inflation and cross-currency basis.
    IR,
    /// Credit that qualifies.
    CreditQ,
    /// Credit that does not qualify.
    CreditNonQ,
    /// Equity.
    Equity,
    /// Commodities.
    Commodity,
    /// Foreign exchange.
    FX,
}

impl RiskClass {
    /// All risk classes, in their order.
    pub const ALL: [RiskClass; 6] = [
        RiskClass::IR,
        RiskClass::CreditQ,
        RiskClass::CreditNonQ,
        RiskClass::Equity,
        RiskClass::Commodity,
        RiskClass::FX,
    ];

    /// The word of the class in printed text.
    pub fn word(self) -> &'static str
        ensures { result.now ≡ class_word self }
    {
        match self {
            RiskClass::IR => "IR",
            RiskClass::CreditQ => "CreditQ",
            RiskClass::CreditNonQ => "CreditNonQ",
            RiskClass::Equity => "Equity",
            RiskClass::Commodity => "Commodity",
            RiskClass::FX => "FX",
        }
    }

    /// The risk class that a text names: its word in any case. `None` for another text.
    pub fn read(text: &[u8]) -> Option<RiskClass>
        ensures { result ≡ class_named text.now }
    {
        first_worded(&RiskClass::ALL, text)
    }
}

impl Worded for RiskClass {
    ghost use Rattle.simm_kinds.specs.Kinds.{class_word};

    ghost word_of = { class_word };

    fn file_word(&self) -> &'static str {
        self.word()
    }
}

/// What part of a class's margin a sum is for.
#[derive(Clone, Copy)]
pub enum Measure {
    /// Changes of the values themselves.
    Delta,
    /// Changes of volatilities.
    Vega,
    /// What second-order changes add, worked out from the volatility sensitivities.
    Curvature,
    /// Changes of base correlations, in credit that qualifies alone.
    BaseCorr,
}

/// The side of a risk class that a sensitivity is on: the value's own change, its volatility's, or
/// that of a base correlation. Vega and curvature are both margins of the volatility side.
#[derive(Clone, Copy, PartialEq, Eq, PartialOrd, Ord)]
pub enum Side {
    /// The value's own change.
    Delta,
    /// The change of a volatility.
    Volatility,
    /// The change of a base correlation.
    BaseCorr,
}

/// The risk type of a CRIF record, in the order of the standard's table. `Pv` never stands in a
/// row that is kept.
#[derive(Clone, Copy, Debug, PartialEq, Eq, PartialOrd, Ord)]
pub enum RiskType {
    /// A point of an interest rate curve.
    IrCurve,
    /// The inflation of a currency.
    Inflation,
    /// The cross-currency basis of a currency.
    XccyBasis,
    /// A volatility of an interest rate.
    IrVol,
    /// A volatility of inflation.
    InflationVol,
    /// A point of a credit curve that qualifies.
    CreditQ,
    /// A volatility of credit that qualifies.
    CreditVol,
    /// A point of a credit curve that does not qualify.
    CreditNonQ,
    /// A volatility of credit that does not qualify.
    CreditVolNonQ,
    /// The base correlation of an index.
    BaseCorr,
    /// An equity price.
    Equity,
    /// A volatility of an equity.
    EquityVol,
    /// A commodity price.
    Commodity,
    /// A volatility of a commodity.
    CommodityVol,
    /// An exchange rate.
    Fx,
    /// A volatility of a pair of currencies.
    FxVol,
    /// The notional of a trade, for an add-on.
    Notional,
    /// A parameter: the share of a qualifier's notional that is added on.
    AddOnNotionalFactor,
    /// A parameter: a fixed amount that is added on.
    AddOnFixedAmount,
    /// A parameter: what the margin of a product class is multiplied by.
    ProductClassMultiplier,
    /// A present value, which no margin reads.
    Pv,
}

impl RiskType {
    /// All risk types, in their order.
    pub const ALL: [RiskType; 21] = [
        RiskType::IrCurve,
        RiskType::Inflation,
        RiskType::XccyBasis,
        RiskType::IrVol,
        RiskType::InflationVol,
        RiskType::CreditQ,
        RiskType::CreditVol,
        RiskType::CreditNonQ,
        RiskType::CreditVolNonQ,
        RiskType::BaseCorr,
        RiskType::Equity,
        RiskType::EquityVol,
        RiskType::Commodity,
        RiskType::CommodityVol,
        RiskType::Fx,
        RiskType::FxVol,
        RiskType::Notional,
        RiskType::AddOnNotionalFactor,
        RiskType::AddOnFixedAmount,
        RiskType::ProductClassMultiplier,
        RiskType::Pv,
    ];

    /// The word of the type in files and printed text.
    pub fn word(self) -> &'static str
        ensures { result.now ≡ kind_word self }
    {
        match self {
            RiskType::IrCurve => "Risk_IRCurve",
            RiskType::Inflation => "Risk_Inflation",
            RiskType::XccyBasis => "Risk_XCcyBasis",
            RiskType::IrVol => "Risk_IRVol",
            RiskType::InflationVol => "Risk_InflationVol",
            RiskType::CreditQ => "Risk_CreditQ",
            RiskType::CreditVol => "Risk_CreditVol",
            RiskType::CreditNonQ => "Risk_CreditNonQ",
            RiskType::CreditVolNonQ => "Risk_CreditVolNonQ",
            RiskType::BaseCorr => "Risk_BaseCorr",
            RiskType::Equity => "Risk_Equity",
            RiskType::EquityVol => "Risk_EquityVol",
            RiskType::Commodity => "Risk_Commodity",
            RiskType::CommodityVol => "Risk_CommodityVol",
            RiskType::Fx => "Risk_FX",
            RiskType::FxVol => "Risk_FXVol",
            RiskType::Notional => "Notional",
            RiskType::AddOnNotionalFactor => "Param_AddOnNotionalFactor",
            RiskType::AddOnFixedAmount => "Param_AddOnFixedAmount",
            RiskType::ProductClassMultiplier => "Param_ProductClassMultiplier",
            RiskType::Pv => "PV",
        }
    }

    /// The risk type that a text names: its word in any case. `None` for another text.
    pub fn read(text: &[u8]) -> Option<RiskType>
        ensures { result ≡ kind_named text.now }
    {
        first_worded(&RiskType::ALL, text)
    }
}

impl Worded for RiskType {
    ghost use Rattle.simm_kinds.specs.Kinds.{kind_word};

    ghost word_of = { kind_word };

    fn file_word(&self) -> &'static str {
        self.word()
    }
}

/// A vertex of the standard's grid of maturities: weeks, months, years.
#[derive(Clone, Copy, Debug, PartialEq, Eq, PartialOrd, Ord, Hash)]
pub enum Tenor {
    /// Two weeks.
    W2,
    /// One month.
    M1,
    /// Three months.
    M3,
    /// Six months.
    M6,
    /// One year.
    Y1,
    /// Two years.
    Y2,
    /// Three years.
    Y3,
    /// Five years.
    Y5,
    /// Ten years.
    Y10,
    /// Fifteen years.
    Y15,
    /// Twenty years.
    Y20,
    /// Thirty years.
    Y30,
}

impl Tenor {
    /// All tenors, shortest first.
    pub const ALL: [Tenor; 12] = [
        Tenor::W2,
        Tenor::M1,
        Tenor::M3,
        Tenor::M6,
        Tenor::Y1,
        Tenor::Y2,
        Tenor::Y3,
        Tenor::Y5,
        Tenor::Y10,
        Tenor::Y15,
        Tenor::Y20,
        Tenor::Y30,
    ];

    /// The word of the tenor in files and printed text.
    pub fn word(self) -> &'static str
        ensures { result.now ≡ tenor_word self }
    {
        match self {
            Tenor::W2 => "2w",
            Tenor::M1 => "1m",
            Tenor::M3 => "3m",
            Tenor::M6 => "6m",
            Tenor::Y1 => "1y",
            Tenor::Y2 => "2y",
            Tenor::Y3 => "3y",
            Tenor::Y5 => "5y",
            Tenor::Y10 => "10y",
            Tenor::Y15 => "15y",
            Tenor::Y20 => "20y",
            Tenor::Y30 => "30y",
        }
    }

    /// The tenor that a text names: its word in any case, or `12m` for the year. `None` for
    /// another text.
    pub fn read(text: &[u8]) -> Option<Tenor>
        ensures { result ≡ tenor_named text.now }
    {
        if is_word("12m", text) {
            return Some(Tenor::Y1);
        }
        first_worded(&Tenor::ALL, text)
    }
}

impl Worded for Tenor {
    ghost use Rattle.simm_kinds.specs.Tenors.{tenor_word};

    ghost word_of = { tenor_word };

    fn file_word(&self) -> &'static str {
        self.word()
    }
}

/// The sub-curve of an interest rate sensitivity.
#[derive(Clone, Copy, Debug, PartialEq, Eq, PartialOrd, Ord, Hash)]
pub enum SubCurve {
    /// Overnight index swaps.
    Ois,
    /// The one-month rate.
    Libor1m,
    /// The three-month rate.
    Libor3m,
    /// The six-month rate.
    Libor6m,
    /// The twelve-month rate.
    Libor12m,
    /// The prime rate, of the US dollar.
    Prime,
    /// The municipal rate, of the US dollar.
    Municipal,
}

impl SubCurve {
    /// All sub-curves, in their order.
    pub const ALL: [SubCurve; 7] = [
        SubCurve::Ois,
        SubCurve::Libor1m,
        SubCurve::Libor3m,
        SubCurve::Libor6m,
        SubCurve::Libor12m,
        SubCurve::Prime,
        SubCurve::Municipal,
    ];

    /// The word of the sub-curve in files and printed text.
    pub fn word(self) -> &'static str
        ensures { result.now ≡ sub_word self }
    {
        match self {
            SubCurve::Ois => "OIS",
            SubCurve::Libor1m => "Libor1m",
            SubCurve::Libor3m => "Libor3m",
            SubCurve::Libor6m => "Libor6m",
            SubCurve::Libor12m => "Libor12m",
            SubCurve::Prime => "Prime",
            SubCurve::Municipal => "Municipal",
        }
    }

    /// The sub-curve that a text names: its word in any case. `None` for another text.
    pub fn read(text: &[u8]) -> Option<SubCurve>
        ensures { result ≡ sub_named text.now }
    {
        first_worded(&SubCurve::ALL, text)
    }
}

impl Worded for SubCurve {
    ghost use Rattle.simm_kinds.specs.Kinds.{sub_word};

    ghost word_of = { sub_word };

    fn file_word(&self) -> &'static str {
        self.word()
    }
}

/// The bucket that a sensitivity is summed in: one of the numbered ones, the residual one, that of
/// a currency (interest rates), or the one bucket of a class that has no others.
#[derive(Clone, Copy, PartialEq, Eq, PartialOrd, Ord, Hash)]
pub enum BucketId {
    /// A bucket with a number, from 1.
    Number(BucketNumber),
    /// The bucket of what fits in no other.
    Residual,
    /// The bucket of a currency, in interest rates.
    Currency(Currency),
    /// The one bucket of exchange rates, and of base correlations.
    Single,
}

impl BucketId {
    /// The bucket of this id, if it is one of those that files list.
    pub fn listed(self) -> Option<Bucket>
        ensures { result ≡ listed_id self }
    {
        match self {
            BucketId::Number(number) => Some(Bucket::Number(number)),
            BucketId::Residual => Some(Bucket::Residual),
            BucketId::Currency(_) | BucketId::Single => None,
        }
    }
}
