//! What a ledger makes of an event of a lot, or of a call that is closed.
ghost use Rattle.std.specs.Prelude.{◌≡◌, Some, Err, IfOk, IsOk, OnErr};
ghost use Rattle.set_core.specs.Ledger.{Replies, refusal_of};
ghost use Rattle.collateral_ledger.specs.SimmKinds.declared.margin_side.MarginSide.{MarginSide};
ghost use Rattle.set_core.specs.Live.{Traded, DoesOn};
ghost use Rattle.side_events.specs.declared.side_event.SideEvent.TheVariants as events;

use crate::{Refusal, Reply};
use collateral_ledger::csa_terms::LotCurrency;
use collateral_ledger::simm_kinds::Name;
use collateral_ledger::{Ledger, LedgerFault};
use std::alloc::{AllocError, Global};

pub(crate) fn put(
    alloc: Global,
    ledger: &mut Ledger,
    lot: &Name,
    class: &Name,
    value: i64,
    currency: LotCurrency,
) -> Result<Reply, AllocError>
    ensures does { IfOk result (λ reply. (side : MarginSide) (l : Traded) → DoesOn side l l
        ledger.old ledger.new (events.PutLot lot.now class.now value currency) reply) }
    ensures unchanged { OnErr result (ledger.new ≡ ledger.old) }
{
    let change = ledger.put_lot(alloc, lot, class, value, currency);
    reply_to(change)
}

pub(crate) fn take(ledger: &mut Ledger, lot: &Name) -> Result<Reply, AllocError>
    ensures does { IfOk result (λ reply. (side : MarginSide) (l : Traded)
        → DoesOn side l l ledger.old ledger.new (events.TakeLot lot.now) reply) }
    ensures at_once { IsOk result }
{
    let change = ledger.take_lot(lot);
    reply_to(change)
}

pub(crate) fn mark(ledger: &mut Ledger, lot: &Name, value: i64) -> Result<Reply, AllocError>
    ensures does { IfOk result (λ reply. (side : MarginSide) (l : Traded)
        → DoesOn side l l ledger.old ledger.new (events.MarkLot lot.now value) reply) }
    ensures at_once { IsOk result }
{
    let change = ledger.mark_lot(lot, value);
    reply_to(change)
}

pub(crate) fn close(ledger: &mut Ledger, number: u32) -> Result<Reply, AllocError>
    ensures does { IfOk result (λ reply. (side : MarginSide) (l : Traded)
        → DoesOn side l l ledger.old ledger.new (events.CloseCall number) reply) }
    ensures at_once { IsOk result }
{
    let change = ledger.close_call(number);
    reply_to(change)
}

/// The reply to a change of a ledger.
fn reply_to(change: Result<(), LedgerFault>) -> Result<Reply, AllocError>
    ensures reply { IfOk result (λ reply. Replies change reply) }
    ensures memory { OnErr result (change ≡ Err LedgerFault.Memory) }
{
    match change {
        Ok(()) => Ok(Reply::Accepted),
        Err(fault) => Ok(Reply::Refused(refusal_of(fault)?)),
    }
}

/// The refusal that a fault is; want of memory is none.
fn refusal_of(fault: LedgerFault) -> Result<Refusal, AllocError>
    ensures why { IfOk result (λ why. refusal_of fault ≡ Some why) }
    ensures memory { OnErr result (fault ≡ LedgerFault.Memory) }
{
    match fault {
        LedgerFault::LotKnown => Ok(Refusal::LotKnown),
        LedgerFault::LotUnknown => Ok(Refusal::LotUnknown),
        LedgerFault::ClassUnknown => Ok(Refusal::ClassUnknown),
        LedgerFault::CallUnknown => Ok(Refusal::CallUnknown),
        LedgerFault::LotRange(value) => Ok(Refusal::LotRange(value)),
        LedgerFault::LotsFull(count) => Ok(Refusal::LotsFull(count)),
        LedgerFault::Memory => Err(AllocError),
    }
}
