ghost use Rattle.std.specs.Prelude.{◌≡◌, Some, pos, unsigned_abs};
ghost use Rattle.class_combine.specs.Summed.{CanGrow, CanShrink, IsSmall, first, grown, shrunk};

use simm_params::mh_units::Cents;

/// What the notionals of one qualifier come to.
#[derive(Clone, Copy)]
pub struct NotionalSum {
    /// The sum of the sizes of their amounts, in cents.
    pub size: i128,
    /// How many there are, at least 1.
    pub rows: u32,
}

impl NotionalSum {
    /// One notional of this amount.
    pub fn first(amount: Cents) -> NotionalSum
        requires { IsSmall amount.0 }
        ensures { result ≡ first amount.0 }
    {
        NotionalSum {
            size: size(amount),
            rows: 1,
        }
    }

    /// These and one of this amount.
    pub fn grown(self, amount: Cents) -> NotionalSum
        requires room { CanGrow self }
        requires amount { IsSmall amount.0 }
        ensures { result ≡ grown (Some self) amount.0 }
    {
        NotionalSum {
            size: self.size + size(amount),
            rows: self.rows + 1,
        }
    }

    /// These without one of this amount; `None` where it was the last.
    pub fn shrunk(self, amount: Cents) -> Option<NotionalSum>
        requires some { CanShrink self }
        requires amount { IsSmall amount.0 }
        ensures { result ≡ shrunk (Some self) amount.0 }
    {
        if self.rows == 1 {
            None
        } else {
            Some(NotionalSum {
                size: self.size - size(amount),
                rows: self.rows - 1,
            })
        }
    }
}

fn size(amount: Cents) -> i128
    requires { IsSmall amount.0 }
    ensures { result ≡ pos (unsigned_abs amount.0) }
{
    amount.0.abs()
}
