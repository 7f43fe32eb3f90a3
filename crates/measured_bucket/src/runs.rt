//! Nets to volatilities, of which those of one thing stand together by tenor: the tenors of a
//! name, or of a pair of currencies, are one factor, whose nets add up.
ghost use Rattle.std.specs.Prelude.{◌≡◌, ◌+◌, ◌*◌, ◌^◌, ◌≤◌, IfOk, map, sum_by, unsigned_abs};
ghost use Rattle.measured_bucket.specs.Runs.{plus, scaled_net, sum_view, summed};

use crate::tenor_scale::TenorScale;
use simm_params::simm_kinds::Tenor;
use std::alloc::{AllocError, Global};

/// The net change for one unit of the volatility of a thing at a tenor.
#[derive(Clone, Copy)]
pub struct TenorNet<K> {
    /// The thing.
    pub of: K,
    /// The tenor.
    pub tenor: Tenor,
    /// In cents.
    pub net: i128,
}

/// What the net changes for one unit of the volatility of a thing come to over its tenors.
#[derive(Clone, Copy)]
pub struct TenorSum<K> {
    /// The thing.
    pub of: K,
    /// In cents, each net times what its tenor counts.
    pub sum: i128,
}

/// A sum for each run of nets to one thing, in their order. The sizes of the nets come to no more
/// than those of 200,000 amounts that a batch can have. Want of memory is the only error.
pub fn tenor_sums<K: Copy + PartialEq>(
    alloc: Global,
    scale: TenorScale,
    nets: &[TenorNet<K>],
) -> Result<Vec<TenorSum<K>>, AllocError>
    requires { sum_by (λ n. unsigned_abs n.net) nets.now ≤ 2 * 10 ^ 20 }
    ensures { IfOk result (λ sums.
        map sum_view sums.items ≡ summed K.eq (map (scaled_net scale) nets.now)) }
{
    let mut sums = Vec::with_capacity(alloc, nets.len())?;
    if nets.is_empty() {
        return Ok(sums);
    }
    let mut run = scaled(scale, nets[0]);
    for place in 1..nets.len() {
        let net = scaled(scale, nets[place]);
        if run.of == net.of {
            run = joined(run, net);
        } else {
            sums.push(run)?;
            run = net;
        }
    }
    sums.push(run)?;
    Ok(sums)
}

// A net, times what its tenor counts.
fn scaled<K: Copy>(scale: TenorScale, net: TenorNet<K>) -> TenorSum<K>
    requires { unsigned_abs net.net ≤ 2 * 10 ^ 20 }
    ensures { sum_view result ≡ scaled_net scale net }
{
    TenorSum {
        of: net.of,
        sum: scale.scaled(net.tenor, net.net),
    }
}

// Two nets to one thing.
fn joined<K: Copy>(run: TenorSum<K>, net: TenorSum<K>) -> TenorSum<K>
    requires { unsigned_abs run.sum + unsigned_abs net.sum ≤ 219 * 10 ^ 22 }
    ensures { sum_view result ≡ plus (sum_view run) (sum_view net) }
{
    TenorSum {
        of: net.of,
        sum: run.sum + net.sum,
    }
}
