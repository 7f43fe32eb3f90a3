use collateral_ledger::csa_terms::Flow;

/// A call for collateral. Amounts are in cents.
#[derive(Clone, Copy)]
pub struct CallNote {
    /// The call's number on its side of its set, from 1.
    pub number: u32,
    /// Whether it is for a delivery or for a return.
    pub flow: Flow,
    /// What is called for, above 0.
    pub amount: i64,
    /// The day on which it is due, counted from 1970-01-01.
    pub due: i32,
    /// The margin of the current trades on that side.
    pub margin: i128,
    /// What was booked on that side: the lots and the calls that were outstanding.
    pub booked: i128,
}
