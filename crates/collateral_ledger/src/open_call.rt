ghost use Rattle.std.specs.Prelude.{◌≡◌, ◌^◌, ◌≤◌, unsigned_abs};
ghost use Rattle.collateral_ledger.specs.Holdings.{IsCallAmount};
ghost use Rattle.collateral_ledger.specs.Booked.{settled_at};

use csa_terms::Flow;
use std::marker::Model;

/// A call that is outstanding, without its number: which way it flows, and its amount, 1 to
/// 10^18 cents.
#[derive(Drop)]
pub struct OpenCall {
    flow: Flow,
    amount: i64,
}

impl Model for OpenCall {
    ghost use Rattle.collateral_ledger.specs.Kept.{Open};
    ghost use Rattle.collateral_ledger.specs.Holdings.{IsCallAmount};

    ghost Value = { Open };

    ghost view = { λ c. record { flow = c.flow; amount = c.amount } };

    ghost invariant = { λ c. IsCallAmount c.amount };
}

impl OpenCall {
    /// A call of this amount.
    pub fn new(flow: Flow, amount: i64) -> OpenCall
        requires { IsCallAmount amount }
        ensures { result ≡ record { flow = flow; amount = amount } }
    {
        OpenCall { flow, amount }
    }

    /// What is booked for the call, in cents, as if it were settled.
    pub fn settled(&self) -> i128
        ensures value { result ≡ settled_at self.now.flow self.now.amount }
        ensures size { unsigned_abs result ≤ 10 ^ 18 }
    {
        let amount = i128::from(self.amount);
        match self.flow {
            Flow::Delivery => amount,
            Flow::Return => -amount,
        }
    }
}
