ghost use Rattle.std.specs.Prelude.{◌≡◌, ◌*◌, ◌^◌, ◌≤◌, ◌*ℤ◌, unsigned_abs};
ghost use Rattle.simm_params.specs.SimmRules.Curvature.{scale_of};
ghost use Rattle.measured_bucket.specs.Scale.{scale_by};

use simm_params::simm_kinds::Tenor;

/// How much the net sensitivity to a volatility counts by its tenor.
#[derive(Clone, Copy)]
pub enum TenorScale {
    /// Each tenor counts once: vega.
    Even,
    /// A tenor counts the more, the nearer it is, in 21,900ths: curvature.
    Curved,
}

impl TenorScale {
    /// What a net at this tenor is multiplied with.
    pub fn of(self, tenor: Tenor) -> i128
        ensures value { result ≡ scale_by self tenor }
        ensures size { unsigned_abs result ≤ 10950 }
    {
        match self {
            TenorScale::Even => 1,
            TenorScale::Curved => curved(tenor),
        }
    }

    /// A net at this tenor, in cents, times what the tenor counts. A net is no more than 200,000
    /// amounts come to that a batch can have.
    pub fn scaled(self, tenor: Tenor, net: i128) -> i128
        requires { unsigned_abs net ≤ 2 * 10 ^ 20 }
        ensures { result ≡ scale_by self tenor *ℤ net }
    {
        self.of(tenor) * net
    }
}

// Half of 14 days over the tenor, and at most a half, in 21,900ths; twelve months have 365 days.
fn curved(tenor: Tenor) -> i128
    ensures value { result ≡ scale_of tenor }
    ensures size { unsigned_abs result ≤ 10950 }
{
    match tenor {
        Tenor::W2 => 10_950,
        Tenor::M1 => 5_040,
        Tenor::M3 => 1_680,
        Tenor::M6 => 840,
        Tenor::Y1 => 420,
        Tenor::Y2 => 210,
        Tenor::Y3 => 140,
        Tenor::Y5 => 84,
        Tenor::Y10 => 42,
        Tenor::Y15 => 28,
        Tenor::Y20 => 21,
        Tenor::Y30 => 14,
    }
}
