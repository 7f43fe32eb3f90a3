/// Whether a lot of collateral is in the agreement's currency.
/// (ISDA 2016 Credit Support Annex for Initial Margin: FX Haircut Percentage.)
#[derive(Clone, Copy)]
pub enum LotCurrency {
    /// The agreement's currency.
    Same,
    /// Another currency, which takes the FX haircut beside its class's.
    Other,
}
