ghost use Rattle.std.specs.Prelude.{◌≡◌, IfOk, map};
ghost use Rattle.measured_bucket.specs.Explained.{unweighed_view, weighted_from, weighted_view};

use crate::measured::Measured;
use crate::weighing::Weighing;
use std::alloc::{AllocError, Global};
use weighted_bucket::Weighed;

/// A factor of a bucket, with all that its weighted value is made of.
#[derive(Clone, Copy)]
pub struct Explained<N> {
    /// The net sensitivity to it, with what it is of.
    pub net: N,
    /// What it is weighed from.
    pub from: Weighing,
    /// Its weighted value and its concentration factor, as the value of the bucket has them.
    pub weighed: Weighed,
}

/// The factors of the bucket, in their order, each with what it is weighed from. They are weighed
/// by the very steps that make the bucket's value. Want of memory is the only error.
pub fn explain<M: Measured>(
    alloc: Global,
    measured: &M,
) -> Result<Vec<Explained<M::Net>>, AllocError>
    requires { M.ready measured.now }
    ensures from { IfOk result (λ factors.
        map (unweighed_view M.of) factors.items ≡ M.unweighed measured.now) }
    ensures weighted { IfOk result (λ factors.
        map (weighted_view M.of) factors.items ≡ M.weighted measured.now) }
    ensures made { M.weighted measured.now
        ≡ map (weighted_from M.weigh) (M.unweighed measured.now) }
{
    let weighings = measured.weighings(alloc)?;
    let column = measured.column(alloc)?;
    let nets = measured.nets();
    let mut factors = Vec::with_capacity(alloc, nets.len())?;
    for place in 0..nets.len() {
        factors.push(Explained {
            net: nets[place],
            from: weighings[place],
            weighed: column.factors[place],
        })?;
    }
    Ok(factors)
}
