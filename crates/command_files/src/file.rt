ghost use Rattle.command_files.specs.Files.{KeepsCounts, FileEnds};

use crate::fault::FileFault;
use mh_io::{Folder, read_all};
use mh_units::Bytes;
use std::alloc::Global;

/// Reads the whole file of this name, and hands it back to the folder.
///
/// # Errors
///
/// The file is missing, unread or too long, each only where it is so; or memory ran out.
pub fn read_file<F: Folder>(alloc: Global, folder: &mut F, name: &str) -> Result<Bytes, FileFault>
    ensures counts { KeepsCounts (F.seen folder.old) (F.seen folder.new) }
    ensures ends { FileEnds (F.seen folder.old) (F.seen folder.new) name.now result }
{
    let mut source = folder.find(alloc, name)?;
    let outcome = read_all(alloc, &mut source);
    folder.done(source);
    Ok(outcome?)
}
