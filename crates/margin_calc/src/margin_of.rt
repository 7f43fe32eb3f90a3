ghost use Rattle.command_files.specs.Files.{KeepsCounts};
ghost use Rattle.margin_calc.specs.Calc.{BatchEnds, MarginEnds};

use crate::files::read_both;
use crate::refusal::batch_fault;
use command_files::Fault;
use mh_io::Folder;
use set_core::bucket_cache::batch_margin;
use simm_kinds::Batch;
use simm_params::Params;
use simm_rules::Breakdown;
use std::alloc::Global;

/// Works out the margin of a batch.
fn margin_of_batch<'a>(
    alloc: Global,
    params: &Params,
    batch: &Batch,
) -> Result<Breakdown, Fault<'a>>
    ensures { BatchEnds params.now batch.now result }
{
    match batch_margin(alloc, params, batch.trades()) {
        Ok(margin) => Ok(margin),
        Err(fault) => Err(batch_fault(alloc, fault)),
    }
}

/// Reads both files, and works out the margin of the batch.
pub(crate) fn margin_of_files<'a, F: Folder>(
    alloc: Global,
    params: &'a str,
    crif: &'a str,
    folder: &mut F,
) -> Result<Breakdown, Fault<'a>>
    ensures counts { KeepsCounts (F.seen folder.old) (F.seen folder.new) }
    ensures ends { MarginEnds params.now crif.now (F.seen folder.old) (F.seen folder.new) result }
{
    let input = read_both(alloc, params, crif, folder)?;
    margin_of_batch(alloc, &input.params, &input.batch)
}
