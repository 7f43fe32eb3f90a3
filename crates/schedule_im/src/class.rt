ghost use Rattle.std.specs.Prelude.{◌≡◌};
ghost use Rattle.schedule_im.specs.Classes.{class_word};

/// The product class of a trade, as the standard schedule parts them.
#[derive(Clone, Copy, PartialEq, Eq)]
pub enum ScheduleClass {
    /// Interest rates.
    Rates,
    /// Credit.
    Credit,
    /// Equity.
    Equity,
    /// Commodities.
    Commodity,
    /// Foreign exchange.
    Fx,
    /// All other products.
    Other,
}

impl ScheduleClass {
    /// All classes, in their order.
    pub const ALL: [ScheduleClass; 6] = [
        ScheduleClass::Rates,
        ScheduleClass::Credit,
        ScheduleClass::Equity,
        ScheduleClass::Commodity,
        ScheduleClass::Fx,
        ScheduleClass::Other,
    ];

    /// The word of the class in files and printed text.
    pub fn word(self) -> &'static str
        ensures { result.now ≡ class_word self }
    {
        match self {
            ScheduleClass::Rates => "Rates",
            ScheduleClass::Credit => "Credit",
            ScheduleClass::Equity => "Equity",
            ScheduleClass::Commodity => "Commodity",
            ScheduleClass::Fx => "FX",
            ScheduleClass::Other => "Other",
        }
    }
}

/// What a row tells of its trade.
#[derive(Clone, Copy, PartialEq, Eq)]
pub enum ScheduleKind {
    /// The notional.
    Notional,
    /// The present value.
    Pv,
}
