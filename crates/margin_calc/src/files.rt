//! The parameters and the batch of a calculation, read from both files.
ghost use Rattle.std.specs.Prelude.{◌≡◌};
ghost use Rattle.command_files.specs.Files.{KeepsCounts};
ghost use Rattle.margin_calc.specs.Calc.{BothEnd};

use command_files::{Fault, InputFile, read_crif_file, read_param_file};
use mh_io::Folder;
use simm_kinds::Batch;
use simm_params::Params;
use std::alloc::Global;

/// What both files of a calculation have.
#[derive(Drop)]
pub struct CalcInput {
    /// The parameters.
    pub params: Params,
    /// The batch.
    pub batch: Batch,
}

/// Reads both files, the parameter file first, and hands each back to the folder.
///
/// # Errors
///
/// The fault of the first file that gives no value, by the causes of a calculation.
pub fn read_both<'a, F: Folder>(
    alloc: Global,
    params: &'a str,
    crif: &'a str,
    folder: &mut F,
) -> Result<CalcInput, Fault<'a>>
    ensures counts { KeepsCounts (F.seen folder.old) (F.seen folder.new) }
    ensures ends { BothEnd params.now crif.now (F.seen folder.old) (F.seen folder.new) result }
{
    let values = match read_param_file(alloc, folder, params) {
        Ok(values) => values,
        Err(why) => return Err(Fault::OfFile {
            file: InputFile::Params,
            name: params,
            why,
        }),
    };
    match read_crif_file(alloc, folder, b"CRIF", crif) {
        Ok(batch) => Ok(CalcInput {
            params: values,
            batch,
        }),
        Err(why) => Err(Fault::OfFile {
            file: InputFile::Crif,
            name: crif,
            why,
        }),
    }
}
