ghost use Rattle.std.specs.Prelude.{◌≡◌, length};
ghost use Rattle.collateral_ledger.specs.SimmKinds.Batch.{IsBatch, rows_of};
ghost use Rattle.set_core.specs.Room.{event_rows};
ghost use Rattle.set_core.specs.Events.{IsEvent};

use collateral_ledger::simm_kinds::{Batch, Listed, MarginSide, Name, TradeRows};
use params_file::ParamText;
use side_events::SideEvent;

/// What the journal counts for tables, in rows.
const TABLES_ROWS: usize = 10_000;

/// What a caller asks of a netting set.
#[derive(Drop)]
pub enum Event {
    /// Gives each trade that the batch names just the rows that it has there. A known trade keeps
    /// its place.
    Submit(Batch),
    /// Takes out each trade that is named.
    Withdraw(Listed<Name>),
    /// Puts tables in the place of those by which margins are worked out.
    Tables(ParamText),
    /// Something beside the trades, of a side of the margin: of a lot, of a call, or of the margin.
    OnSide { side: MarginSide, event: SideEvent },
}

impl Event {
    /// What each event keeps: the trades of a submit are a batch. It does nothing.
    pub fn facts(&self)
        ensures { IsEvent self.now }
    {
        if let Event::Submit(batch) = self {
            let _trades = batch.trades();
        }
    }

    /// How many rows the journal counts for it: those of a submit, 10,000 for tables, and none for
    /// every other event. It takes no memory.
    pub fn row_count(&self) -> usize
        ensures { result ≡ event_rows self.now }
    {
        match self {
            Event::Submit(batch) => count_rows(batch.trades()),
            Event::Tables(_) => TABLES_ROWS,
            Event::Withdraw(_) | Event::OnSide { .. } => 0,
        }
    }
}

fn count_rows(trades: &[TradeRows]) -> usize
    requires { IsBatch trades.now }
    ensures { result ≡ length (rows_of trades.now) }
{
    let mut count = 0;
    for trade in trades {
        count += trade.rows.len();
    }
    count
}
