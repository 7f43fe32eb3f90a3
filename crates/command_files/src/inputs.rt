//! The parameter file and the terms file of a command, one after the other.
ghost use Rattle.command_files.specs.Files.{KeepsCounts};
ghost use Rattle.command_files.specs.Inputs.{InputsEnd};

use crate::fault::{Fault, InputFile};
use crate::value_files::{read_param_file, read_terms_file};
use csa_terms::Terms;
use mh_io::Folder;
use simm_params::Params;
use std::alloc::Global;

/// What both files say.
#[derive(Drop)]
pub struct Inputs {
    /// The parameters of all sets.
    pub params: Params,
    /// The terms of the sets, in their order.
    pub terms: Terms,
}

/// Reads the parameter file of this name and then the terms file, and hands both back to
/// the folder.
///
/// # Errors
///
/// As `read_param_file`, of the first file that gives nothing.
pub fn read_inputs<'a, F: Folder>(
    alloc: Global,
    folder: &mut F,
    params_name: &'a str,
    terms_name: &'a str,
) -> Result<Inputs, Fault<'a>>
    ensures counts { KeepsCounts (F.seen folder.old) (F.seen folder.new) }
    ensures ends { InputsEnd params_name.now terms_name.now (F.seen folder.old)
        (F.seen folder.new) result }
{
    let params = match read_param_file(alloc, folder, params_name) {
        Ok(params) => params,
        Err(why) => return Err(Fault::OfFile {
            file: InputFile::Params,
            name: params_name,
            why,
        }),
    };
    match read_terms_file(alloc, folder, terms_name) {
        Ok(terms) => Ok(Inputs { params, terms }),
        Err(why) => Err(Fault::OfFile {
            file: InputFile::Terms,
            name: terms_name,
            why,
        }),
    }
}
