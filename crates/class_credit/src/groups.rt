//! The points of a bucket of credit in concentration groups: an issuer's points in a bucket are
//! one group.
ghost use Rattle.std.specs.Prelude.{◌≡◌, ◌-◌, ◌<◌, IfOk, map, length};
ghost use Rattle.std.specs.List.Sorted.{IsStrictlySortedBy};
ghost use Rattle.measured_bucket.specs.WeightedBucket.Group.{group_net};
ghost use Rattle.class_credit.specs.Groups.{changes, issuers_view, weighed_in};
ghost use Rattle.class_credit.specs.Groups.{AreGrouped, AreWeighable, CanWeigh};
ghost use Rattle.class_credit.specs.Points.{point_cmp, points_view};
ghost use Rattle.class_credit.specs.Unweighed.{unweighed_point, weighing_in};

use crate::points::PointNet;
use measured_bucket::Weighing;
use measured_bucket::mh_units::Rate4;
use measured_bucket::weighted_bucket::{Grouped, Weighed, group_cr, group_nets, weigh};
use std::alloc::{AllocError, Global};

/// Nets in which an issuer's stand together, each in the group of its issuer. Groups are numbered
/// in the order of their issuers: names are compared here, once a point, and never pair by pair.
/// The threshold is in cents. Want of memory is the only error.
pub fn group_points(
    alloc: Global,
    threshold: i64,
    points: &[PointNet],
) -> Result<Vec<Grouped>, AllocError>
    ensures { IfOk result (λ grouped.
        AreGrouped threshold (issuers_view points.now) grouped.items) }
{
    let mut grouped = Vec::with_capacity(alloc, points.len())?;
    let mut group = 0;
    for place in 0..points.len() {
        group = group_at(points, place, group);
        grouped.push(Grouped {
            group,
            x: points[place].net,
            threshold,
        })?;
    }
    Ok(grouped)
}

// The group of the point at a place, where `before` is that of the point before.
fn group_at(points: &[PointNet], place: usize, before: usize) -> usize
    requires within { place < length points.now }
    requires before { before ≡ changes (issuers_view points.now) (place - 1) }
    ensures { result ≡ changes (issuers_view points.now) place }
{
    if place > 0 && points[place - 1].point.issuer != points[place].point.issuer {
        before + 1
    } else {
        before
    }
}

/// Each net, weighed by the concentration of its group. Want of memory is the only error.
pub fn weigh_points(
    alloc: Global,
    weight: Rate4,
    grouped: &[Grouped],
) -> Result<Vec<Weighed>, AllocError>
    requires { CanWeigh weight.0 grouped.now }
    ensures { IfOk result (λ weighed.
        weighed.items ≡ map (weighed_in weight.0 grouped.now) grouped.now) }
{
    let crs = group_cr(alloc, grouped)?;
    let mut weighed = Vec::with_capacity(alloc, grouped.len())?;
    for place in 0..grouped.len() {
        let cr = crs[place];
        weighed.push(Weighed {
            w: weigh(weight, grouped[place].x, cr),
            cr,
        })?;
    }
    Ok(weighed)
}

/// What each net is weighed from by this weight: itself, and the group of its issuer over the
/// threshold, in cents. Want of memory is the only error.
pub fn point_weighings(
    alloc: Global,
    weight: Rate4,
    threshold: i64,
    points: &[PointNet],
) -> Result<Vec<Weighing>, AllocError>
    requires ascends { IsStrictlySortedBy point_cmp (map (λ a. a.of) (points_view points.now)) }
    requires weighable { AreWeighable weight.0 threshold (points_view points.now) }
    ensures { let amounts = points_view points.now in IfOk result (λ weighings.
        weighings.items ≡ map (λ factor. factor.from)
        (map (unweighed_point weight.0 threshold amounts) amounts)) }
{
    let grouped = group_points(alloc, threshold, points)?;
    let amounts = grouped.as_slice();
    let nets = group_nets(alloc, amounts)?;
    group_weighings(alloc, weight, amounts, nets.as_slice())
}

// What each net is weighed from, where these are the nets of their groups.
fn group_weighings(
    alloc: Global,
    weight: Rate4,
    grouped: &[Grouped],
    nets: &[i128],
) -> Result<Vec<Weighing>, AllocError>
    requires { nets.now ≡ map (λ amount. group_net grouped.now amount.group) grouped.now }
    ensures { IfOk result (λ weighings.
        weighings.items ≡ map (weighing_in weight.0 grouped.now) grouped.now) }
{
    let mut weighings = Vec::with_capacity(alloc, grouped.len())?;
    for place in 0..grouped.len() {
        let amount = grouped[place];
        weighings.push(Weighing::in_group(weight, amount.x, nets[place], amount.threshold))?;
    }
    Ok(weighings)
}
