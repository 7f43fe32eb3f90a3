use csa_terms::simm_kinds::Name;
use csa_terms::{LotCurrency, Moment};

/// What is asked of a netting set about its lots of collateral, its calls and its margin. Values
/// are in cents.
#[derive(Drop)]
pub enum SideEvent {
    /// Puts a lot of a class, with its value, in the agreement's currency or another.
    PutLot {
        lot: Name,
        class: Name,
        value: i64,
        currency: LotCurrency,
    },
    /// Takes a lot out.
    TakeLot {
        lot: Name,
    },
    /// Gives a lot another value.
    MarkLot {
        lot: Name,
        value: i64,
    },
    /// Closes an outstanding call, as it was settled.
    CloseCall {
        number: u32,
    },
    /// Asks the margin of all current trades.
    AskMargin,
    /// Demands collateral at a local time: a call is made where the margin and what is booked
    /// want one.
    AskCall {
        moment: Moment,
    },
}
