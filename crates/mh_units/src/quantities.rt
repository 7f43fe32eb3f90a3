ghost use Rattle.std.specs.Prelude.{◌≡◌, ◌≤◌, pos, ◌*ℤ◌, unsigned_abs};

/// An amount in whole USD cents.
#[derive(Clone, Copy, Debug, PartialEq, Eq)]
pub struct Cents(pub i128);

/// A rate in units of 1/10,000: a weight, a volatility, a haircut, a multiplier.
#[derive(Clone, Copy, Debug, PartialEq, Eq)]
pub struct Rate4(pub i64);

impl Rate4 {
    /// A correlation, at most 1 in size, in millionths.
    pub fn in_millionths(self) -> Corr6
        requires { unsigned_abs self.0 ≤ 10000 }
        ensures value { result.0 ≡ pos 100 *ℤ self.0 }
        ensures size { unsigned_abs result.0 ≤ 1000000 }
    {
        Corr6(100 * self.0)
    }
}

/// A figure in units of 1/1,000,000: a concentration, a correlation.
#[derive(Clone, Copy, Debug, PartialEq, Eq)]
pub struct Corr6(pub i64);

impl Corr6 {
    /// A concentration or a correlation of 1.
    pub const ONE: Corr6 = Corr6(1_000_000);
}
