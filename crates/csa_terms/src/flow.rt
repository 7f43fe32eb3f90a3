/// Which way the collateral of a call flows.
/// (ISDA 2016 Credit Support Annex for Initial Margin: Delivery Amount, Return Amount.)
#[derive(Clone, Copy)]
pub enum Flow {
    /// Collateral is to be delivered.
    Delivery,
    /// Collateral is to be returned.
    Return,
}
