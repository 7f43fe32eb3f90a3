//! The risk factor of a record: each risk type reads the parts that it has.
ghost use Rattle.std.specs.Prelude.{◌≡◌};
ghost use Rattle.crif_reader.specs.declared.fault.RowFault.TheVariants as faults;
ghost use Rattle.crif_reader.specs.Reads.{GivesRow};
ghost use Rattle.crif_reader.specs.Fields.{texts};
ghost use Rattle.crif_reader.specs.Factor.{factor_of, ir_curve_of, ir_vol_of};
ghost use Rattle.crif_reader.specs.Factor.{inflation_vol_of, credit_point_of, equity_of};
ghost use Rattle.crif_reader.specs.Factor.{equity_vol_of, commodity_of, commodity_vol_of};
ghost use Rattle.crif_reader.specs.Factor.{fx_vol_of, currency_of, full_name_of};

use crate::RowFault;
use crate::fields::Fields;
use crate::names::{read_full_name, read_name};
use crate::row_stop::RowStop;
use crif_records::simm_kinds::{
    Bucket, BucketNumber, CreditTenor, Currency, CurrencyPair, Factor, FullName, Name, RiskType,
    SubCurve, Tenor,
};
use std::alloc::Global;

/// A point of an issuer's credit curve.
#[derive(Drop)]
struct CreditPoint {
    issuer: FullName,
    bucket: Bucket,
    tenor: CreditTenor,
    label2: Name,
}

impl CreditPoint {
    fn qualifying(self) -> Factor
        ensures { result ≡ Factor.CreditQ self.issuer self.bucket self.tenor self.label2 }
    {
        Factor::CreditQ {
            issuer: self.issuer,
            bucket: self.bucket,
            tenor: self.tenor,
            label2: self.label2,
        }
    }

    fn qualifying_volatility(self) -> Factor
        ensures { result ≡ Factor.CreditVol self.issuer self.bucket self.tenor self.label2 }
    {
        Factor::CreditVol {
            issuer: self.issuer,
            bucket: self.bucket,
            tenor: self.tenor,
            label2: self.label2,
        }
    }

    fn non_qualifying(self) -> Factor
        ensures { result ≡ Factor.CreditNonQ self.issuer self.bucket self.tenor self.label2 }
    {
        Factor::CreditNonQ {
            issuer: self.issuer,
            bucket: self.bucket,
            tenor: self.tenor,
            label2: self.label2,
        }
    }

    fn non_qualifying_volatility(self) -> Factor
        ensures { result ≡ Factor.CreditVolNonQ self.issuer self.bucket self.tenor self.label2 }
    {
        Factor::CreditVolNonQ {
            issuer: self.issuer,
            bucket: self.bucket,
            tenor: self.tenor,
            label2: self.label2,
        }
    }
}

fn currency_of(fields: &Fields) -> Result<Currency, RowFault>
    ensures { result ≡ currency_of (texts fields.now) }
{
    Currency::read(fields.qualifier).ok_or(RowFault::Qualifier)
}

#[tactic(auto, unfolding(crate::specs::Factor::ir_curve_of))]
fn ir_curve_of(fields: &Fields) -> Result<Factor, RowFault>
    ensures { result ≡ ir_curve_of (texts fields.now) }
{
    Ok(Factor::IrCurve {
        currency: currency_of(fields)?,
        tenor: Tenor::read(fields.label1).ok_or(RowFault::Label1)?,
        sub: SubCurve::read(fields.label2).ok_or(RowFault::Label2)?,
    })
}

#[tactic(auto, unfolding(crate::specs::Factor::ir_vol_of))]
fn ir_vol_of(fields: &Fields) -> Result<Factor, RowFault>
    ensures { result ≡ ir_vol_of (texts fields.now) }
{
    Ok(Factor::IrVol {
        currency: currency_of(fields)?,
        tenor: Tenor::read(fields.label1).ok_or(RowFault::Label1)?,
    })
}

#[tactic(auto, unfolding(crate::specs::Factor::inflation_vol_of))]
fn inflation_vol_of(fields: &Fields) -> Result<Factor, RowFault>
    ensures { result ≡ inflation_vol_of (texts fields.now) }
{
    Ok(Factor::InflationVol {
        currency: currency_of(fields)?,
        tenor: Tenor::read(fields.label1).ok_or(RowFault::Label1)?,
    })
}

#[tactic(auto, unfolding(crate::specs::Factor::credit_point_of))]
fn credit_point_of(alloc: Global, fields: &Fields) -> Result<CreditPoint, RowStop>
    ensures { GivesRow (λ p. p) result (credit_point_of (texts fields.now)) }
{
    let issuer = read_full_name(alloc, RowFault::Qualifier, fields.qualifier)?;
    let bucket = Bucket::read(fields.bucket).ok_or(RowFault::Bucket)?;
    let tenor = CreditTenor::read(fields.label1).ok_or(RowFault::Label1)?;
    let label2 = read_name(alloc, RowFault::Label2, fields.label2)?;
    Ok(CreditPoint {
        issuer,
        bucket,
        tenor,
        label2,
    })
}

#[tactic(auto, unfolding(crate::specs::Factor::equity_of))]
fn equity_of(alloc: Global, fields: &Fields) -> Result<Factor, RowStop>
    ensures { GivesRow (λ f. f) result (equity_of (texts fields.now)) }
{
    let issuer = read_full_name(alloc, RowFault::Qualifier, fields.qualifier)?;
    let bucket = Bucket::read(fields.bucket).ok_or(RowFault::Bucket)?;
    Ok(Factor::Equity { issuer, bucket })
}

#[tactic(auto, unfolding(crate::specs::Factor::equity_vol_of))]
fn equity_vol_of(alloc: Global, fields: &Fields) -> Result<Factor, RowStop>
    ensures { GivesRow (λ f. f) result (equity_vol_of (texts fields.now)) }
{
    let issuer = read_full_name(alloc, RowFault::Qualifier, fields.qualifier)?;
    let bucket = Bucket::read(fields.bucket).ok_or(RowFault::Bucket)?;
    let tenor = Tenor::read(fields.label1).ok_or(RowFault::Label1)?;
    Ok(Factor::EquityVol {
        issuer,
        bucket,
        tenor,
    })
}

#[tactic(auto, unfolding(crate::specs::Factor::commodity_of))]
fn commodity_of(alloc: Global, fields: &Fields) -> Result<Factor, RowStop>
    ensures { GivesRow (λ f. f) result (commodity_of (texts fields.now)) }
{
    let name = read_full_name(alloc, RowFault::Qualifier, fields.qualifier)?;
    let bucket = BucketNumber::read(fields.bucket).ok_or(RowFault::Bucket)?;
    Ok(Factor::Commodity { name, bucket })
}

#[tactic(auto, unfolding(crate::specs::Factor::commodity_vol_of))]
fn commodity_vol_of(alloc: Global, fields: &Fields) -> Result<Factor, RowStop>
    ensures { GivesRow (λ f. f) result (commodity_vol_of (texts fields.now)) }
{
    let name = read_full_name(alloc, RowFault::Qualifier, fields.qualifier)?;
    let bucket = BucketNumber::read(fields.bucket).ok_or(RowFault::Bucket)?;
    let tenor = Tenor::read(fields.label1).ok_or(RowFault::Label1)?;
    Ok(Factor::CommodityVol {
        name,
        bucket,
        tenor,
    })
}

#[tactic(auto, unfolding(crate::specs::Factor::fx_vol_of))]
fn fx_vol_of(fields: &Fields) -> Result<Factor, RowFault>
    ensures { result ≡ fx_vol_of (texts fields.now) }
{
    Ok(Factor::FxVol {
        pair: CurrencyPair::read(fields.qualifier).ok_or(RowFault::Qualifier)?,
        tenor: Tenor::read(fields.label1).ok_or(RowFault::Label1)?,
    })
}

/// The risk factor of a record of this risk type.
pub fn factor_of(alloc: Global, kind: RiskType, fields: &Fields) -> Result<Factor, RowStop>
    ensures { GivesRow (λ f. f) result (factor_of kind (texts fields.now)) }
{
    match kind {
        RiskType::IrCurve => Ok(ir_curve_of(fields)?),
        RiskType::Inflation => Ok(Factor::Inflation {
            currency: currency_of(fields)?,
        }),
        RiskType::XccyBasis => Ok(Factor::XccyBasis {
            currency: currency_of(fields)?,
        }),
        RiskType::IrVol => Ok(ir_vol_of(fields)?),
        RiskType::InflationVol => Ok(inflation_vol_of(fields)?),
        RiskType::CreditQ => Ok(credit_point_of(alloc, fields)?.qualifying()),
        RiskType::CreditVol => Ok(credit_point_of(alloc, fields)?.qualifying_volatility()),
        RiskType::CreditNonQ => Ok(credit_point_of(alloc, fields)?.non_qualifying()),
        RiskType::CreditVolNonQ => Ok(credit_point_of(alloc, fields)?.non_qualifying_volatility()),
        RiskType::BaseCorr => Ok(Factor::BaseCorr {
            index: read_full_name(alloc, RowFault::Qualifier, fields.qualifier)?,
        }),
        RiskType::Equity => equity_of(alloc, fields),
        RiskType::EquityVol => equity_vol_of(alloc, fields),
        RiskType::Commodity => commodity_of(alloc, fields),
        RiskType::CommodityVol => commodity_vol_of(alloc, fields),
        RiskType::Fx => Ok(Factor::Fx {
            currency: currency_of(fields)?,
        }),
        RiskType::FxVol => Ok(fx_vol_of(fields)?),
        RiskType::Notional
        | RiskType::AddOnNotionalFactor
        | RiskType::AddOnFixedAmount
        | RiskType::ProductClassMultiplier
        | RiskType::Pv => Err(RowStop::Fault(RowFault::RiskType)),
    }
}
