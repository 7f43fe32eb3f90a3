ghost use Rattle.margin_calc.specs.CommandFiles.Files.{KeepsCounts};
ghost use Rattle.margin_explain.specs.Explain.{TextEnds, ExplainedEnds};

use explain_text::bucket_cache::batch_figures;
use explain_text::explained_lines;
use explain_text::mh_units::Text;
use explain_text::simm_kinds::Batch;
use explain_text::simm_params::Params;
use margin_calc::command_files::Fault;
use margin_calc::{batch_fault, read_both};
use mh_io::Folder;
use std::alloc::Global;

/// Works out the lines of a batch.
fn text_of_batch<'a>(alloc: Global, params: &Params, batch: &Batch) -> Result<Text, Fault<'a>>
    ensures { TextEnds params.now batch.now result }
{
    let trades = batch.trades();
    let figures = match batch_figures(alloc, params, trades) {
        Ok(figures) => figures,
        Err(fault) => return Err(batch_fault(alloc, fault)),
    };
    match explained_lines(alloc, params, trades, &figures) {
        Ok(text) => Ok(text),
        Err(_) => Err(Fault::Memory),
    }
}

/// Reads both files, and works out the lines of the batch.
pub(crate) fn text_of_files<'a, F: Folder>(
    alloc: Global,
    params: &'a str,
    crif: &'a str,
    folder: &mut F,
) -> Result<Text, Fault<'a>>
    ensures counts { KeepsCounts (F.seen folder.old) (F.seen folder.new) }
    ensures ends { ExplainedEnds params.now crif.now (F.seen folder.old)
        (F.seen folder.new) result }
{
    let input = read_both(alloc, params, crif, folder)?;
    text_of_batch(alloc, &input.params, &input.batch)
}
