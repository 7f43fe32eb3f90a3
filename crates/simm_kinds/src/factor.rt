ghost use Rattle.std.specs.Prelude.{◌≡◌, IfOk};
ghost use Rattle.simm_kinds.specs.Factors.{kind_of, class_of, side_of, bucket_of, bucket_id_of};

use crate::{
    Bucket, BucketId, BucketNumber, CreditTenor, Currency, CurrencyPair, FullName, Name, RiskClass,
    RiskType, Side, SubCurve, Tenor,
};
use std::alloc::{AllocError, Global};

/// A risk factor: a variant for each risk type of a sensitivity, in the order of the standard's
/// table, with just the parts that this type has. Factors are ordered by their variants, and those
/// of one variant part by part.
#[derive(Drop, PartialEq, Eq, PartialOrd, Ord, Hash)]
pub enum Factor {
    /// Yield curve of a currency at a tenor.
    IrCurve {
        currency: Currency,
        tenor: Tenor,
        sub: SubCurve,
    },
    /// Inflation rate of a currency.
    Inflation {
        currency: Currency,
    },
    /// Cross-currency basis of a currency.
    XccyBasis {
        currency: Currency,
    },
    /// Volatility of a currency's interest rates.
    IrVol {
        currency: Currency,
        tenor: Tenor,
    },
    /// Volatility of a currency's inflation rate.
    InflationVol {
        currency: Currency,
        tenor: Tenor,
    },
    /// Credit spread of a qualifying issuer.
    CreditQ {
        issuer: FullName,
        bucket: Bucket,
        tenor: CreditTenor,
        label2: Name,
    },
    /// Volatility of a qualifying issuer's credit spread.
    CreditVol {
        issuer: FullName,
        bucket: Bucket,
        tenor: CreditTenor,
        label2: Name,
    },
    /// Credit spread of a non-qualifying issuer.
    CreditNonQ {
        issuer: FullName,
        bucket: Bucket,
        tenor: CreditTenor,
        label2: Name,
    },
    /// Volatility of a non-qualifying issuer's credit spread.
    CreditVolNonQ {
        issuer: FullName,
        bucket: Bucket,
        tenor: CreditTenor,
        label2: Name,
    },
    /// Base correlation of a credit index.
    BaseCorr {
        index: FullName,
    },
    /// Price of an equity.
    Equity {
        issuer: FullName,
        bucket: Bucket,
    },
    /// Volatility of an equity's price.
    EquityVol {
        issuer: FullName,
        bucket: Bucket,
        tenor: Tenor,
    },
    /// Price of a commodity.
    Commodity {
        name: FullName,
        bucket: BucketNumber,
    },
    /// Volatility of a commodity's price.
    CommodityVol {
        name: FullName,
        bucket: BucketNumber,
        tenor: Tenor,
    },
    /// Exchange rate of a currency.
    Fx {
        currency: Currency,
    },
    /// Volatility of the exchange rate of two currencies.
    FxVol {
        pair: CurrencyPair,
        tenor: Tenor,
    },
}

impl Factor {
    /// The risk type.
    pub fn kind(&self) -> RiskType
        ensures { result ≡ kind_of self.now }
    {
        match self {
            Factor::IrCurve { .. } => RiskType::IrCurve,
            Factor::Inflation { .. } => RiskType::Inflation,
            Factor::XccyBasis { .. } => RiskType::XccyBasis,
            Factor::IrVol { .. } => RiskType::IrVol,
            Factor::InflationVol { .. } => RiskType::InflationVol,
            Factor::CreditQ { .. } => RiskType::CreditQ,
            Factor::CreditVol { .. } => RiskType::CreditVol,
            Factor::CreditNonQ { .. } => RiskType::CreditNonQ,
            Factor::CreditVolNonQ { .. } => RiskType::CreditVolNonQ,
            Factor::BaseCorr { .. } => RiskType::BaseCorr,
            Factor::Equity { .. } => RiskType::Equity,
            Factor::EquityVol { .. } => RiskType::EquityVol,
            Factor::Commodity { .. } => RiskType::Commodity,
            Factor::CommodityVol { .. } => RiskType::CommodityVol,
            Factor::Fx { .. } => RiskType::Fx,
            Factor::FxVol { .. } => RiskType::FxVol,
        }
    }

    /// The risk class.
    pub fn class(&self) -> RiskClass
        ensures { result ≡ class_of self.now }
    {
        match self {
            Factor::IrCurve { .. }
            | Factor::Inflation { .. }
            | Factor::XccyBasis { .. }
            | Factor::IrVol { .. }
            | Factor::InflationVol { .. } => RiskClass::IR,
            Factor::CreditQ { .. } | Factor::CreditVol { .. } | Factor::BaseCorr { .. } =>
                RiskClass::CreditQ,
            Factor::CreditNonQ { .. } | Factor::CreditVolNonQ { .. } => RiskClass::CreditNonQ,
            Factor::Equity { .. } | Factor::EquityVol { .. } => RiskClass::Equity,
            Factor::Commodity { .. } | Factor::CommodityVol { .. } => RiskClass::Commodity,
            Factor::Fx { .. } | Factor::FxVol { .. } => RiskClass::FX,
        }
    }

    /// The side of its class that the factor is on.
    pub fn side(&self) -> Side
        ensures { result ≡ side_of self.now }
    {
        match self {
            Factor::IrCurve { .. }
            | Factor::Inflation { .. }
            | Factor::XccyBasis { .. }
            | Factor::CreditQ { .. }
            | Factor::CreditNonQ { .. }
            | Factor::Equity { .. }
            | Factor::Commodity { .. }
            | Factor::Fx { .. } => Side::Delta,
            Factor::IrVol { .. }
            | Factor::InflationVol { .. }
            | Factor::CreditVol { .. }
            | Factor::CreditVolNonQ { .. }
            | Factor::EquityVol { .. }
            | Factor::CommodityVol { .. }
            | Factor::FxVol { .. } => Side::Volatility,
            Factor::BaseCorr { .. } => Side::BaseCorr,
        }
    }

    /// The bucket that sensitivities to the factor are summed in: that of its currency for an
    /// interest rate, the one that it has for credit, equity and commodity, and the only one for
    /// exchange rates and base correlations.
    pub fn bucket(&self) -> BucketId
        ensures { result ≡ bucket_of self.now }
    {
        match self {
            Factor::IrCurve { currency, .. }
            | Factor::Inflation { currency }
            | Factor::XccyBasis { currency }
            | Factor::IrVol { currency, .. }
            | Factor::InflationVol { currency, .. } => BucketId::Currency(*currency),
            Factor::CreditQ { bucket, .. }
            | Factor::CreditVol { bucket, .. }
            | Factor::CreditNonQ { bucket, .. }
            | Factor::CreditVolNonQ { bucket, .. }
            | Factor::Equity { bucket, .. }
            | Factor::EquityVol { bucket, .. } => bucket.id(),
            Factor::Commodity { bucket, .. } | Factor::CommodityVol { bucket, .. } => {
                BucketId::Number(*bucket)
            }
            Factor::BaseCorr { .. } | Factor::Fx { .. } | Factor::FxVol { .. } => BucketId::Single,
        }
    }

    /// An equal factor. The only error is want of memory, and a factor of interest or exchange
    /// rates takes none.
    pub fn copy(&self, alloc: Global) -> Result<Factor, AllocError>
        ensures { IfOk result (λ copy. copy ≡ self.now) }
    {
        Ok(match self {
            Factor::IrCurve {
                currency,
                tenor,
                sub,
            } => Factor::IrCurve {
                currency: *currency,
                tenor: *tenor,
                sub: *sub,
            },
            Factor::Inflation { currency } => Factor::Inflation {
                currency: *currency,
            },
            Factor::XccyBasis { currency } => Factor::XccyBasis {
                currency: *currency,
            },
            Factor::IrVol { currency, tenor } => Factor::IrVol {
                currency: *currency,
                tenor: *tenor,
            },
            Factor::InflationVol { currency, tenor } => Factor::InflationVol {
                currency: *currency,
                tenor: *tenor,
            },
            Factor::CreditQ {
                issuer,
                bucket,
                tenor,
                label2,
            } => Factor::CreditQ {
                issuer: issuer.copy(alloc)?,
                bucket: *bucket,
                tenor: *tenor,
                label2: label2.copy(alloc)?,
            },
            Factor::CreditVol {
                issuer,
                bucket,
                tenor,
                label2,
            } => Factor::CreditVol {
                issuer: issuer.copy(alloc)?,
                bucket: *bucket,
                tenor: *tenor,
                label2: label2.copy(alloc)?,
            },
            Factor::CreditNonQ {
                issuer,
                bucket,
                tenor,
                label2,
            } => Factor::CreditNonQ {
                issuer: issuer.copy(alloc)?,
                bucket: *bucket,
                tenor: *tenor,
                label2: label2.copy(alloc)?,
            },
            Factor::CreditVolNonQ {
                issuer,
                bucket,
                tenor,
                label2,
            } => Factor::CreditVolNonQ {
                issuer: issuer.copy(alloc)?,
                bucket: *bucket,
                tenor: *tenor,
                label2: label2.copy(alloc)?,
            },
            Factor::BaseCorr { index } => Factor::BaseCorr {
                index: index.copy(alloc)?,
            },
            Factor::Equity { issuer, bucket } => Factor::Equity {
                issuer: issuer.copy(alloc)?,
                bucket: *bucket,
            },
            Factor::EquityVol {
                issuer,
                bucket,
                tenor,
            } => Factor::EquityVol {
                issuer: issuer.copy(alloc)?,
                bucket: *bucket,
                tenor: *tenor,
            },
            Factor::Commodity { name, bucket } => Factor::Commodity {
                name: name.copy(alloc)?,
                bucket: *bucket,
            },
            Factor::CommodityVol {
                name,
                bucket,
                tenor,
            } => Factor::CommodityVol {
                name: name.copy(alloc)?,
                bucket: *bucket,
                tenor: *tenor,
            },
            Factor::Fx { currency } => Factor::Fx {
                currency: *currency,
            },
            Factor::FxVol { pair, tenor } => Factor::FxVol {
                pair: *pair,
                tenor: *tenor,
            },
        })
    }
}
