ghost use Rattle.std.specs.Prelude.{◌≡◌};
ghost use Rattle.schedule_reader.specs.Columns.{column_name};

/// A column of a CRIF file that the schedule reads; each file has all of them.
#[derive(Clone, Copy, PartialEq, Eq)]
pub enum ScheduleColumn {
    /// `TradeID`.
    TradeId,
    /// `ProductClass`.
    ProductClass,
    /// `RiskType`.
    RiskType,
    /// `Amount`.
    Amount,
    /// `AmountCurrency`.
    AmountCurrency,
    /// `AmountUSD`.
    AmountUsd,
    /// `IMModel`.
    ImModel,
    /// `EndDate`.
    EndDate,
}

impl ScheduleColumn {
    /// The column's name, as the standard spells it.
    pub fn name(self) -> &'static str
        ensures { result.now ≡ column_name self }
    {
        match self {
            ScheduleColumn::TradeId => "TradeID",
            ScheduleColumn::ProductClass => "ProductClass",
            ScheduleColumn::RiskType => "RiskType",
            ScheduleColumn::Amount => "Amount",
            ScheduleColumn::AmountCurrency => "AmountCurrency",
            ScheduleColumn::AmountUsd => "AmountUSD",
            ScheduleColumn::ImModel => "IMModel",
            ScheduleColumn::EndDate => "EndDate",
        }
    }
}
