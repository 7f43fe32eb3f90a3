//! The fault of a batch that is refused.
ghost use Rattle.std.specs.Prelude.{List};
ghost use Rattle.simm_kinds.specs.declared.row.TradeRows.{TradeRows};
ghost use Rattle.simm_rules.specs.Params.{Params};
ghost use Rattle.margin_calc.specs.Calc.{TellsRefusal, Says, BatchFails};

use crate::refused_batch::refusal_line;
use command_files::Fault;
use set_core::Refusal;
use set_core::bucket_cache::BookFault;
use std::alloc::Global;

/// The fault that a batch comes to which has no margin: that it is refused, as a set's first
/// submit is, with the line that tells why; want of memory, for that line too.
pub fn batch_fault<'a>(alloc: Global, fault: BookFault) -> Fault<'a>
    ensures { (p : Params) (trades : List TradeRows) → Says p trades fault
        → BatchFails p trades result }
{
    match fault {
        BookFault::BucketUnknown { trade, row } => {
            refused(alloc, Refusal::BucketUnknown { trade, row })
        }
        BookFault::Range(fault) => refused(alloc, Refusal::Range(fault)),
        BookFault::Memory => Fault::Memory,
    }
}

// That of a refusal; want of memory where there is none for its line.
fn refused<'a>(alloc: Global, refusal: Refusal) -> Fault<'a>
    ensures { TellsRefusal refusal result }
{
    match refusal_line(alloc, refusal) {
        Ok(line) => Fault::Refused(line),
        Err(_) => Fault::Memory,
    }
}
