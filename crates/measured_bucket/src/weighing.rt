ghost use Rattle.std.specs.Prelude.{◌≡◌};
ghost use Rattle.measured_bucket.specs.Explained.{from_group, from_itself, without_group};

use simm_params::mh_units::Rate4;

/// A concentration group of a factor.
#[derive(Clone, Copy)]
pub struct Group {
    /// The sum of the amounts of its factors, in cents.
    pub net: i128,
    /// Its threshold, in cents.
    pub threshold: i64,
}

/// What the weighted value of a factor is made of.
#[derive(Clone, Copy)]
pub struct Weighing {
    /// The amount that is weighed: in cents; in curvature in 21,900ths of a cent, each net times
    /// what its tenor counts.
    pub amount: i128,
    /// The concentration group; `None` where no concentration scales the factor.
    pub group: Option<Group>,
    /// The risk weight; in curvature the volatility.
    pub weight: Rate4,
}

impl Weighing {
    /// An amount that no concentration scales.
    pub fn ungrouped(weight: Rate4, amount: i128) -> Weighing
        ensures { result ≡ without_group weight.0 amount }
    {
        Weighing {
            amount,
            group: None,
            weight,
        }
    }

    /// An amount of a group of this net over this threshold, in cents.
    pub fn in_group(weight: Rate4, amount: i128, net: i128, threshold: i64) -> Weighing
        ensures { result ≡ from_group weight.0 threshold net amount }
    {
        Weighing {
            amount,
            group: Some(Group { net, threshold }),
            weight,
        }
    }

    /// An amount that is a group by itself, over this threshold, in cents.
    pub fn of_itself(weight: Rate4, threshold: i64, amount: i128) -> Weighing
        ensures { result ≡ from_itself weight.0 threshold amount }
    {
        Weighing::in_group(weight, amount, amount, threshold)
    }
}
