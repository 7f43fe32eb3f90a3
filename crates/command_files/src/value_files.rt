//! Files read whole by their grammars.
ghost use Rattle.command_files.specs.Files.{KeepsCounts, ValueEnds};
ghost use Rattle.command_files.specs.Grammars.{GivesParams, RefusesParams, GivesTrades};
ghost use Rattle.command_files.specs.Grammars.{RefusesTrades, GivesTerms, RefusesTerms};

use crate::fault::FileFault;
use crate::file::read_file;
use crif_reader::read_batch;
use csa_terms::{Terms, read_terms};
use fault_text::{crif_line, params_line, terms_line};
use mh_io::Folder;
use params_file::read_params;
use simm_kinds::Batch;
use simm_params::Params;
use std::alloc::Global;

/// Reads the parameter file of this name, and hands it back to the folder.
///
/// # Errors
///
/// The file is missing, unread or too long, or its grammar refuses it, each only where it is so,
/// the last with the line that tells the first fault; or memory ran out.
pub fn read_param_file<F: Folder>(
    alloc: Global,
    folder: &mut F,
    name: &str,
) -> Result<Params, FileFault>
    ensures counts { KeepsCounts (F.seen folder.old) (F.seen folder.new) }
    ensures ends { ValueEnds GivesParams RefusesParams (F.seen folder.old)
        (F.seen folder.new) name.now result }
{
    let bytes = read_file(alloc, folder, name)?;
    match read_params(alloc, bytes.as_slice()) {
        Ok(params) => Ok(params),
        Err(fault) => Err(FileFault::Refused(params_line(alloc, &fault)?)),
    }
}

/// Reads the CRIF file of this name, and hands it back to the folder. Records that the grammar
/// passes over are not told. The word names the file in the line of its fault.
///
/// # Errors
///
/// As `read_param_file`.
pub fn read_crif_file<F: Folder>(
    alloc: Global,
    folder: &mut F,
    word: &[u8],
    name: &str,
) -> Result<Batch, FileFault>
    ensures counts { KeepsCounts (F.seen folder.old) (F.seen folder.new) }
    ensures ends { ValueEnds GivesTrades (RefusesTrades word.now) (F.seen folder.old)
        (F.seen folder.new) name.now result }
{
    let bytes = read_file(alloc, folder, name)?;
    match read_batch(alloc, bytes.as_slice()) {
        Ok(read) => Ok(read.batch),
        Err(fault) => Err(FileFault::Refused(crif_line(alloc, word, &fault)?)),
    }
}

/// Reads the terms file of this name, and hands it back to the folder.
///
/// # Errors
///
/// As `read_param_file`.
pub fn read_terms_file<F: Folder>(
    alloc: Global,
    folder: &mut F,
    name: &str,
) -> Result<Terms, FileFault>
    ensures counts { KeepsCounts (F.seen folder.old) (F.seen folder.new) }
    ensures ends { ValueEnds GivesTerms RefusesTerms (F.seen folder.old)
        (F.seen folder.new) name.now result }
{
    let bytes = read_file(alloc, folder, name)?;
    match read_terms(alloc, bytes.as_slice()) {
        Ok(terms) => Ok(terms),
        Err(fault) => Err(FileFault::Refused(terms_line(alloc, &fault)?)),
    }
}
