ghost use Rattle.std.specs.Prelude.{◌≡◌, ◌≢◌, ℕ, ◌-◌, ◌^◌, ◌<◌, All};
ghost use Rattle.std.specs.Prelude.{map, length, sum_by, IfOk, unsigned_abs};
ghost use Rattle.std.specs.Bool.{OnTrue, OnFalse};
ghost use Rattle.std.specs.List.Sorted.{IsNonDecreasingBy};
ghost use Rattle.weighted_bucket.specs.Group.{CanConcentrate, at, group_factor, group_net};

use concentration::cr;
use concentration::mh_units::Corr6;
use std::alloc::{AllocError, Global};

/// The amount of one factor, and its concentration group.
#[derive(Clone, Copy)]
pub struct Grouped {
    /// The number of the group among those of the bucket.
    pub group: usize,
    /// The amount, in cents.
    pub x: i128,
    /// The threshold of the group, in cents.
    pub threshold: i64,
}

/// The concentration factor of each amount's group, whose amounts stand together: that of the sum
/// of the group's amounts over the threshold. Want of memory is the only error.
pub fn group_cr(alloc: Global, amounts: &[Grouped]) -> Result<Vec<Corr6>, AllocError>
    requires ordered { IsNonDecreasingBy (λ amount. amount.group) amounts.now }
    requires in_range { sum_by (λ amount. unsigned_abs amount.x) amounts.now < 2 ^ 120 }
    requires concentrates { All (λ amount. CanConcentrate (group_net amounts.now amount.group)
        amount.threshold) amounts.now }
    ensures { IfOk result (λ crs.
        map (λ cr. cr.0) crs.items ≡ map (group_factor amounts.now) amounts.now) }
{
    let mut crs = Vec::with_capacity(alloc, amounts.len())?;
    let mut net = 0;
    for place in 0..amounts.len() {
        net = net_at(amounts, place, net);
        crs.push(cr(net, amounts[place].threshold))?;
    }
    Ok(crs)
}

/// The sum of the amounts of each amount's group, whose amounts stand together. Want of memory is
/// the only error.
pub fn group_nets(alloc: Global, amounts: &[Grouped]) -> Result<Vec<i128>, AllocError>
    requires ordered { IsNonDecreasingBy (λ amount. amount.group) amounts.now }
    requires in_range { sum_by (λ amount. unsigned_abs amount.x) amounts.now < 2 ^ 120 }
    ensures { IfOk result (λ nets.
        nets.items ≡ map (λ amount. group_net amounts.now amount.group) amounts.now) }
{
    let mut nets = Vec::with_capacity(alloc, amounts.len())?;
    let mut net = 0;
    for place in 0..amounts.len() {
        net = net_at(amounts, place, net);
        nets.push(net)?;
    }
    Ok(nets)
}

// The sum of the amounts of the group of the amount at this place, where `before` is that of the
// group of the amount before.
fn net_at(amounts: &[Grouped], place: usize, before: i128) -> i128
    requires ordered { IsNonDecreasingBy (λ amount. amount.group) amounts.now }
    requires in_range { sum_by (λ amount. unsigned_abs amount.x) amounts.now < 2 ^ 120 }
    requires within { place < length amounts.now }
    requires before { 0 < place
        → before ≡ group_net amounts.now (at amounts.now (place - 1)).group }
    ensures { result ≡ group_net amounts.now (at amounts.now place).group }
{
    if starts_group(amounts, place) {
        net_from(amounts, place)
    } else {
        before
    }
}

// Whether the amount is the first of its group.
fn starts_group(amounts: &[Grouped], place: usize) -> bool
    requires ordered { IsNonDecreasingBy (λ amount. amount.group) amounts.now }
    requires within { place < length amounts.now }
    ensures starts { OnTrue result
        ((k : ℕ) → k < place → (at amounts.now k).group ≢ (at amounts.now place).group) }
    ensures positive { OnFalse result (0 < place) }
    ensures follows { OnFalse result
        ((at amounts.now (place - 1)).group ≡ (at amounts.now place).group) }
{
    place == 0 || amounts[place - 1].group != amounts[place].group
}

// The sum of the amounts of the group that starts at this place.
fn net_from(amounts: &[Grouped], start: usize) -> i128
    requires ordered { IsNonDecreasingBy (λ amount. amount.group) amounts.now }
    requires in_range { sum_by (λ amount. unsigned_abs amount.x) amounts.now < 2 ^ 120 }
    requires within { start < length amounts.now }
    requires starts { (k : ℕ) → k < start
        → (at amounts.now k).group ≢ (at amounts.now start).group }
    ensures { result ≡ group_net amounts.now (at amounts.now start).group }
{
    let group = amounts[start].group;
    let mut net = 0;
    for place in start..amounts.len() {
        let amount = amounts[place];
        if amount.group != group {
            return net;
        }
        net += amount.x;
    }
    net
}
