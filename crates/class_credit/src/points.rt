//! The points of a bucket of credit, or their volatilities, as a book lends them at a place.
ghost use Rattle.std.specs.Prelude.{◌≡◌, IfOk, option_map};
ghost use Rattle.measured_bucket.specs.SimmRules.Risks.{risk};
ghost use Rattle.class_credit.specs.Points.{as_point, credit_view, point_nets, points_view};

use measured_bucket::factor_book::PlaceFactors;
use measured_bucket::simm_kinds::{CreditTenor, Factor, FactorKey, FullName, Name};
use std::alloc::{AllocError, Global};

/// A point of an issuer's credit curve.
#[derive(Clone, Copy)]
pub struct Point<'a> {
    /// The issuer.
    pub issuer: &'a FullName,
    /// The tenor.
    pub tenor: CreditTenor,
    /// What else tells it from other points.
    pub label: &'a Name,
}

/// The net sensitivity to a point of a credit curve, or to its volatility.
#[derive(Clone, Copy)]
pub struct PointNet<'a> {
    /// The point.
    pub point: Point<'a>,
    /// In cents.
    pub net: i128,
}

/// The nets to the points of a place, or to their volatilities, in their order. Want of memory is
/// the only error.
pub fn points_among<'a>(
    alloc: Global,
    lent: &'a PlaceFactors,
) -> Result<Vec<PointNet<'a>>, AllocError>
    ensures { IfOk result (λ nets. points_view nets.items ≡ point_nets lent.now.factors) }
{
    let mut nets = Vec::with_capacity(alloc, lent.len())?;
    for (key, holding) in lent.iter() {
        if let Some(point) = point_of(key) {
            nets.push(PointNet {
                point,
                net: holding.net,
            })?;
        }
    }
    Ok(nets)
}

// The point that a key is a sensitivity to, or to whose volatility it is one.
fn point_of(key: &FactorKey) -> Option<Point>
    ensures { option_map credit_view result ≡ as_point (risk key.now.factor) }
{
    match &key.factor {
        Factor::CreditQ {
            issuer,
            tenor,
            label2,
            ..
        }
        | Factor::CreditVol {
            issuer,
            tenor,
            label2,
            ..
        }
        | Factor::CreditNonQ {
            issuer,
            tenor,
            label2,
            ..
        }
        | Factor::CreditVolNonQ {
            issuer,
            tenor,
            label2,
            ..
        } => Some(Point {
            issuer,
            tenor: *tenor,
            label: label2,
        }),
        _ => None,
    }
}
