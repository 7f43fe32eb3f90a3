//! A factor that is a concentration group by itself.
ghost use Rattle.std.specs.Prelude.{◌≡◌, ◌*◌, ◌^◌, ◌≤◌, unsigned_abs};
ghost use Rattle.weighted_bucket.specs.Group.{CanConcentrate};
ghost use Rattle.measured_bucket.specs.Alone.{weighed_alone};

use simm_params::mh_units::Rate4;
use weighted_bucket::concentration::cr;
use weighted_bucket::{Weighed, weigh};

/// An amount in cents, weighed by its own concentration over the threshold, in cents.
pub fn weigh_alone(weight: Rate4, threshold: i64, amount: i128) -> Weighed
    requires concentrates { CanConcentrate amount threshold }
    requires small { unsigned_abs amount * unsigned_abs weight.0 ≤ 10 ^ 28 }
    ensures { result ≡ weighed_alone weight.0 threshold amount }
{
    let cr = cr(amount, threshold);
    Weighed {
        w: weigh(weight, amount, cr),
        cr,
    }
}
