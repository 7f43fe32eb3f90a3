//! The risk classes that the rule treats alike.
ghost use Rattle.std.specs.Prelude.{◌≡◌};
ghost use Rattle.simm_rules.specs.RiskClasses.{credit_risk_class, priced_risk_class};

use simm_kinds::RiskClass;

/// A class of credit.
#[derive(Clone, Copy)]
pub enum CreditClass {
    /// Credit that qualifies.
    Qualifying,
    /// Credit that does not qualify.
    NonQualifying,
}

impl CreditClass {
    /// Which of all risk classes it is.
    pub fn risk_class(self) -> RiskClass
        ensures { result ≡ credit_risk_class self }
    {
        match self {
            CreditClass::Qualifying => RiskClass::CreditQ,
            CreditClass::NonQualifying => RiskClass::CreditNonQ,
        }
    }
}

/// A class of names that have a price.
#[derive(Clone, Copy)]
pub enum PricedClass {
    /// Equity.
    Equities,
    /// Commodities.
    Commodities,
}

impl PricedClass {
    /// Which of all risk classes it is.
    pub fn risk_class(self) -> RiskClass
        ensures { result ≡ priced_risk_class self }
    {
        match self {
            PricedClass::Equities => RiskClass::Equity,
            PricedClass::Commodities => RiskClass::Commodity,
        }
    }
}
