ghost use Rattle.std.specs.Prelude.{◌≤◌};
ghost use Rattle.feed_files.specs.CommandFiles.Complete.{EndsWell};
ghost use Rattle.feed_files.specs.CommandFiles.Files.{KeepsCounts};
ghost use Rattle.margin_verify.specs.Complete.{IsWellVerify};
ghost use Rattle.margin_verify.specs.Verify.{VerifyEnds};

use crate::judging::judge_files;
use crate::verdict_lines::print_verdict;
use feed_files::command_files::{Status, end_at_fault};
use mh_io::{Folder, Sink};
use std::alloc::Global;

/// The files of a verification.
#[derive(Clone, Copy)]
pub struct VerifyFiles<'a> {
    /// The name of the parameter file.
    pub params: &'a str,
    /// The name of the terms file.
    pub terms: &'a str,
    /// The name of the audit file.
    pub audit: &'a str,
}

/// Reads an audit file, works out each reply anew by the written rule over the entries before it,
/// and prints whether all are right: `VERIFIED` with how many sets and entries there are, or
/// `WRONG` with the set and the number of the first entry whose reply isn't the rule's. It waits
/// for nobody.
///
/// With status `Done` the sink got the line that all are right, and what the file tells of each
/// set, in the order of the terms, is a legal journal, with the written rule's reply in every
/// reply line; with `Write` the sink got a front of that line, since it failed; with `Wrong` the
/// line that tells the wrong entry, or a front of it where the sink failed. At every other status
/// but `Memory` the sink got one fault line, or a front of it where the sink failed, and nothing
/// else: `Params` and `Terms` exactly where a file that was read is too long or refused, `Find`
/// and `Read` only where the folder's count of such faults rose. `Memory` for want of memory; then
/// there is no verdict.
pub fn verify<F: Folder, K: Sink>(
    alloc: Global,
    files: VerifyFiles,
    folder: &mut F,
    out: &mut K,
) -> Status
    ensures counts { KeepsCounts (F.seen folder.old) (F.seen folder.new) }
    ensures count { (K.seen out.old).faults ≤ (K.seen out.new).faults }
    ensures ends { VerifyEnds files.entry.params.now files.entry.terms.now files.entry.audit.now
        (F.seen folder.old) (F.seen folder.new) (K.seen out.old) (K.seen out.new) result }
    // Where all is well the file is verified, or memory ran out.
    ensures complete { IsWellVerify files.entry.params.now files.entry.terms.now
        files.entry.audit.now (F.seen folder.old) (F.seen folder.new) (K.seen out.old)
        (K.seen out.new) → EndsWell result }
{
    match judge_files(alloc, files, folder) {
        Ok(judged) => print_verdict(alloc, out, &judged.terms, judged.verdict),
        Err(fault) => end_at_fault(out, &fault),
    }
}
