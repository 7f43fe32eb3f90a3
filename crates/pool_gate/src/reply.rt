use csa_calls::CallAmount;

/// What a message is replied. Amounts are in cents.
#[derive(Clone, Copy)]
pub(crate) enum Reply {
    /// The set got the amount, and holds this now.
    Got { held: u64 },
    /// This is left, which is below the amount.
    Short { rest: u64 },
    /// The set gave the amount back, and holds this now.
    Gave { held: u64 },
    /// The set holds this, which is below the amount. Nothing moved.
    Over { held: u64 },
    /// What is called for at the threshold that the set holds.
    Called(CallAmount),
}
