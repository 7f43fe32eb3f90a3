ghost use Rattle.std.specs.Prelude.{◌≡◌, IfOk};
ghost use Rattle.simm_kinds.specs.Batch.{IsBatch, MakesBatch};

use crate::batch_faults::first_fault;
use crate::{Listed, MakeFault, TradeRows};
use std::alloc::{AllocError, Global};
use std::marker::Model;
use std::sync::Arc;

/// The rows of one file, by trade: 1 to 100,000 rows, trades with different names and at least one
/// row each, parameters of add-ons under the empty name alone, at most one multiplier of a product
/// class and one factor of a qualifier, and each amount in its range. They stand once for all that
/// hold the batch. Contracts see the list of trades.
#[derive(Drop)]
pub struct Batch {
    trades: Arc<Listed<TradeRows>, Global>,
}

impl Model for Batch {
    ghost use Rattle.std.specs.Prelude.{List};
    ghost use Rattle.std.specs.Arc.{arc_value};
    ghost use Rattle.simm_kinds.specs.declared.row.TradeRows.{TradeRows};
    ghost use Rattle.simm_kinds.specs.Batch.{IsBatch};

    ghost Value = { List TradeRows };

    ghost view = { λ b. arc_value b.trades };

    ghost invariant = { λ b. IsBatch (arc_value b.trades) };
}

impl Batch {
    /// The batch of these trades. The faults are tested in the order of `MakeFault`; the tests and
    /// the batch take memory.
    pub fn make(alloc: Global, trades: Listed<TradeRows>) -> Result<Batch, MakeFault>
        ensures { MakesBatch trades result }
    {
        match first_fault(alloc, trades.as_slice())? {
            Some(fault) => Err(fault),
            None => Ok(Batch::from_trades(alloc, trades)?),
        }
    }

    /// These trades, which the caller knows to be a batch. The only error is want of memory.
    pub fn from_trades(alloc: Global, trades: Listed<TradeRows>) -> Result<Batch, AllocError>
        requires { IsBatch trades }
        ensures { IfOk result (λ batch. batch ≡ trades) }
    {
        let trades = Arc::new(alloc, trades)?;
        Ok(Batch { trades })
    }

    /// The same batch for one more holder. It takes no memory. The only error comes at
    /// 2^63 holders.
    pub fn share(&self) -> Result<Batch, AllocError>
        ensures { IfOk result (λ batch. batch ≡ self.now) }
    {
        let trades = Arc::try_clone(&self.trades)?;
        Ok(Batch { trades })
    }

    /// Lends the trades. It takes no memory.
    pub fn trades(&self) -> &[TradeRows]
        ensures value { result.now ≡ self.now }
        ensures batch { IsBatch self.now }
    {
        self.trades.as_slice()
    }
}
