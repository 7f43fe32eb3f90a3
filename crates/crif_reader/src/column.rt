ghost use Rattle.std.specs.Prelude.{◌≡◌};
ghost use Rattle.crif_reader.specs.Columns.{column_name};

/// A column of a CRIF file that is read: ten that each file has, and the margin model, which it
/// may lack.
#[derive(Clone, Copy, PartialEq, Eq)]
pub enum Column {
    /// `TradeID`.
    TradeId,
    /// `ProductClass`.
    ProductClass,
    /// `RiskType`.
    RiskType,
    /// `Qualifier`.
    Qualifier,
    /// `Bucket`.
    Bucket,
    /// `Label1`.
    Label1,
    /// `Label2`.
    Label2,
    /// `Amount`.
    Amount,
    /// `AmountCurrency`.
    AmountCurrency,
    /// `AmountUSD`.
    AmountUsd,
    /// `IMModel`.
    ImModel,
}

impl Column {
    /// The column's name, as the standard spells it.
    pub fn name(self) -> &'static str
        ensures { result.now ≡ column_name self }
    {
        match self {
            Column::TradeId => "TradeID",
            Column::ProductClass => "ProductClass",
            Column::RiskType => "RiskType",
            Column::Qualifier => "Qualifier",
            Column::Bucket => "Bucket",
            Column::Label1 => "Label1",
            Column::Label2 => "Label2",
            Column::Amount => "Amount",
            Column::AmountCurrency => "AmountCurrency",
            Column::AmountUsd => "AmountUSD",
            Column::ImModel => "IMModel",
        }
    }
}
