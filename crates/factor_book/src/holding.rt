ghost use Rattle.std.specs.Prelude.{◌≡◌, Some, pos, unsigned_abs};
ghost use Rattle.factor_book.specs.Holdings.{CanJoin, CanShrink, IsSmall, first, joined, shrunk};

use simm_rules::mh_units::Cents;

/// What the sensitivities of one key come to.
#[derive(Clone, Copy)]
pub struct Holding {
    /// The sum of their amounts, in cents.
    pub net: i128,
    /// The sum of the sizes of their amounts, in cents: what they are gross.
    pub size: i128,
    /// How many there are, at least 1.
    pub rows: u32,
}

impl Holding {
    /// One sensitivity of this amount.
    pub(crate) fn first(amount: Cents) -> Holding
        requires { IsSmall amount.0 }
        ensures { result ≡ first amount.0 }
    {
        Holding {
            net: amount.0,
            size: size(amount),
            rows: 1,
        }
    }

    /// These and others of the key.
    pub(crate) fn joined(self, others: Holding) -> Holding
        requires { CanJoin self others }
        ensures { result ≡ joined (Some self) others }
    {
        Holding {
            net: self.net + others.net,
            size: self.size + others.size,
            rows: self.rows + others.rows,
        }
    }

    /// These without one of this amount; `None` where it was the last.
    pub(crate) fn shrunk(self, amount: Cents) -> Option<Holding>
        requires some { CanShrink self }
        requires amount { IsSmall amount.0 }
        ensures { result ≡ shrunk (Some self) amount.0 }
    {
        if self.rows == 1 {
            None
        } else {
            Some(Holding {
                net: self.net - amount.0,
                size: self.size - size(amount),
                rows: self.rows - 1,
            })
        }
    }
}

fn size(amount: Cents) -> i128
    requires { IsSmall amount.0 }
    ensures { result ≡ pos (unsigned_abs amount.0) }
{
    amount.0.abs()
}
