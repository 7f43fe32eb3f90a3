use crate::classes::{BaseParams, CreditParams, PricedParams};
use crate::fx::FxParams;
use crate::ir::IrParams;
use crate::matrix::Matrix;
use simm_rules::mh_units::Corr6;
use simm_rules::simm_kinds::Currency;

/// The parameters of the risk classes that have buckets.
#[derive(Drop)]
pub struct ClassTables {
    /// Credit that qualifies.
    pub credit_q: CreditParams,
    /// Credit that does not qualify.
    pub credit_nq: CreditParams,
    /// Equity.
    pub equity: PricedParams,
    /// Commodities.
    pub commodity: PricedParams,
}

/// All that a file says, each value in its range.
#[derive(Drop)]
pub struct Tables {
    /// The currency that margins are calculated in; exchange rates of it have no risk.
    pub calculation_currency: Currency,
    /// The base of the curvature scale, in millionths.
    pub lambda_base: Corr6,
    /// The correlations of the risk classes, in their order.
    pub psi: Matrix,
    /// Interest rates.
    pub ir: IrParams,
    /// Foreign exchange.
    pub fx: FxParams,
    /// The classes that have buckets.
    pub classes: ClassTables,
    /// Base correlations.
    pub base: BaseParams,
}
