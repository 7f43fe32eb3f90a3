//! The names of a bucket of equity or of commodities, as a book lends them at its place: the net
//! to each, and what the nets to its volatilities come to over their tenors.
ghost use Rattle.std.specs.Prelude.{◌≡◌, ◌*◌, ◌^◌, ◌≤◌, ◌≤ℤ◌, ℤ, IfOk};
ghost use Rattle.std.specs.Prelude.{map, option_map, pos, sum_by, unsigned_abs};
ghost use Rattle.std.specs.List.Sorted.{IsStrictlySortedBy};
ghost use Rattle.measured_bucket.specs.SimmKinds.Order.{name_cmp};
ghost use Rattle.measured_bucket.specs.SimmRules.Risks.{risk};
ghost use Rattle.measured_bucket.specs.Runs.{AreTotals};
ghost use Rattle.class_priced.specs.Names.{as_name, as_name_volatility, name_nets};
ghost use Rattle.class_priced.specs.Names.{name_volatility_cmp, names_view, volatility_nets};
ghost use Rattle.class_priced.specs.Names.{AreNameVolatilities};
ghost use Rattle.class_priced.specs.Sums.{name_sums, name_totals, tenor_view, volatility_view};

use measured_bucket::factor_book::PlaceFactors;
use measured_bucket::simm_kinds::{Factor, FactorKey, FullName, Tenor};
use measured_bucket::{TenorNet, TenorScale, TenorSum, tenor_sums};
use std::alloc::{AllocError, Global};

/// The net sensitivity to a name.
#[derive(Clone, Copy)]
pub struct NameNet<'a> {
    /// The name.
    pub name: &'a FullName,
    /// In cents.
    pub net: i128,
}

/// The volatility of a name at a tenor.
#[derive(Clone, Copy)]
struct NameVolatility<'a> {
    name: &'a FullName,
    tenor: Tenor,
}

/// The nets to the names of a place, in their order. Want of memory is the only error.
pub fn delta_names<'a>(
    alloc: Global,
    lent: &'a PlaceFactors,
) -> Result<Vec<NameNet<'a>>, AllocError>
    ensures { IfOk result (λ nets. names_view nets.items ≡ name_nets lent.now.factors) }
{
    let mut nets = Vec::with_capacity(alloc, lent.len())?;
    for (key, holding) in lent.iter() {
        if let Some(name) = name_of(key) {
            nets.push(NameNet {
                name,
                net: holding.net,
            })?;
        }
    }
    Ok(nets)
}

fn name_of(key: &FactorKey) -> Option<&FullName>
    ensures { option_map (λ name. name.now) result ≡ as_name (risk key.now.factor) }
{
    match &key.factor {
        Factor::Equity { issuer, .. } => Some(issuer),
        Factor::Commodity { name, .. } => Some(name),
        _ => None,
    }
}

/// What the nets to the volatilities of each name of a place, which are in order, come to over its
/// tenors, in the order of the names. The sizes of the nets come to no more than those of 200,000
/// amounts that a batch can have. Where these volatilities can be measured, so can what they come
/// to. Want of memory is the only error.
pub fn volatile_names<'a>(
    alloc: Global,
    lent: &'a PlaceFactors,
    scale: TenorScale,
) -> Result<Vec<TenorSum<&'a FullName>>, AllocError>
    requires order { let nets = volatility_nets lent.now.factors in
        IsStrictlySortedBy name_volatility_cmp (map (λ a. a.of) nets) }
    requires sizes { sum_by (λ a. unsigned_abs a.amount) (volatility_nets lent.now.factors)
        ≤ 2 * 10 ^ 20 }
    ensures sums { IfOk result (λ sums.
        name_sums sums.items ≡ name_totals scale (volatility_nets lent.now.factors)) }
    ensures measured { IfOk result (λ sums. (sigma : ℤ) → pos 0 ≤ℤ sigma
        → AreNameVolatilities sigma (volatility_nets lent.now.factors)
        → AreTotals name_cmp scale (λ _. sigma) (name_sums sums.items)) }
{
    let nets = tenors_among(alloc, lent)?;
    tenor_sums(alloc, scale, nets.as_slice())
}

fn tenors_among<'a>(
    alloc: Global,
    lent: &'a PlaceFactors,
) -> Result<Vec<TenorNet<&'a FullName>>, AllocError>
    ensures { IfOk result (λ nets. map tenor_view nets.items ≡ volatility_nets lent.now.factors) }
{
    let mut nets = Vec::with_capacity(alloc, lent.len())?;
    for (key, holding) in lent.iter() {
        if let Some(volatility) = volatility_of(key) {
            nets.push(TenorNet {
                of: volatility.name,
                tenor: volatility.tenor,
                net: holding.net,
            })?;
        }
    }
    Ok(nets)
}

fn volatility_of(key: &FactorKey) -> Option<NameVolatility>
    ensures { option_map volatility_view result ≡ as_name_volatility (risk key.now.factor) }
{
    match &key.factor {
        Factor::EquityVol { issuer, tenor, .. } => Some(NameVolatility {
            name: issuer,
            tenor: *tenor,
        }),
        Factor::CommodityVol { name, tenor, .. } => Some(NameVolatility {
            name,
            tenor: *tenor,
        }),
        _ => None,
    }
}
