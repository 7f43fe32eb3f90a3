//! The ledgers of a netting set, one of each side of the margin.
ghost use Rattle.std.specs.Prelude.{◌≡◌, []};
ghost use Rattle.set_core.specs.Ledger.{ledger_on, ledgers};
ghost use Rattle.set_core.specs.Lending.{LendsLedger};
ghost use Rattle.std.specs.Borrow.{sem};

use collateral_ledger::Ledger;
use collateral_ledger::csa_terms::BothTerms;
use collateral_ledger::simm_kinds::MarginSide;
use std::alloc::Global;

/// What a netting set holds as collateral, and its calls: each side of the margin has lots, calls
/// and terms of its own.
#[derive(Drop)]
pub(crate) struct Ledgers {
    pub collect: Ledger,
    pub post: Ledger,
}

impl Ledgers {
    /// Ledgers with no lots and no calls. It takes no memory.
    pub fn new(alloc: Global, terms: BothTerms) -> Ledgers
        ensures { result ≡ ledgers terms [] }
    {
        let (collect, post) = terms.into_sides();
        Ledgers {
            collect: Ledger::new(alloc, collect),
            post: Ledger::new(alloc, post),
        }
    }

    /// Lends the ledger of a side.
    pub fn on(&self, side: MarginSide) -> &Ledger
        ensures { result.now ≡ ledger_on side self.now }
    {
        match side {
            MarginSide::Collect => &self.collect,
            MarginSide::Post => &self.post,
        }
    }

    /// Lends the ledger of a side, to change it.
    pub fn on_mut(&mut self, side: MarginSide) -> &mut Ledger
        ensures value { result.now ≡ ledger_on side self.old }
        ensures* writes_back { sem 𝓛 (LendsLedger self.entry side result) }
    {
        match side {
            MarginSide::Collect => &mut self.collect,
            MarginSide::Post => &mut self.post,
        }
    }
}
