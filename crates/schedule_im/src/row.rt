use crate::class::{ScheduleClass, ScheduleKind};
use crate::end_date::EndDate;
use simm_rules::simm_kinds::Name;

/// What a file tells of a trade under the schedule: its notional or its present value.
#[derive(Drop)]
pub struct ScheduleRow {
    /// The name of the trade.
    pub trade: Name,
    /// Its product class.
    pub class: ScheduleClass,
    /// Whether the amount is the notional or the present value.
    pub kind: ScheduleKind,
    /// The amount in USD cents.
    pub amount: i64,
    /// The day on which the trade ends, where the rate hangs on it.
    pub end: Option<EndDate>,
}
