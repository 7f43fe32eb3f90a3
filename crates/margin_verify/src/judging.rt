//! The verdict of an audit file of a folder.
ghost use Rattle.feed_files.specs.CommandFiles.Files.{KeepsCounts};
ghost use Rattle.margin_verify.specs.Verify.{VerdictEnds, JudgedEnds};

use crate::command::VerifyFiles;
use crate::fault_lines::file_fault;
use audit_file::{Verdict, yes_means_legal};
use csa_terms::Terms;
use feed_files::command_files::{Fault, FileFault, InputFile, Inputs, read_inputs};
use mh_io::{Folder, lines_of};
use std::alloc::Global;

/// What the files of a verification come to: the verdict on the sets of the terms.
#[derive(Drop)]
pub(crate) struct Judged {
    pub terms: Terms,
    pub verdict: Verdict,
}

/// Finds the audit file of this name, works out its verdict, and hands the file back to the folder.
fn judge_file<F: Folder>(
    alloc: Global,
    inputs: &Inputs,
    folder: &mut F,
    name: &str,
) -> Result<Verdict, FileFault>
    ensures counts { KeepsCounts (F.seen folder.old) (F.seen folder.new) }
    ensures ends { VerdictEnds inputs.now.params inputs.now.terms (F.seen folder.old)
        (F.seen folder.new) name.now result }
{
    let source = folder.find(alloc, name)?;
    let mut lines = match lines_of(alloc, source) {
        Ok(lines) => lines,
        Err(memory) => {
            folder.done(memory.back);
            return Err(FileFault::Memory);
        }
    };
    let answer = audit_file::verify(alloc, &inputs.params, &inputs.terms, &mut lines);
    folder.done(lines.give_back());
    match answer {
        Ok(verdict) => {
            yes_means_legal();
            Ok(verdict)
        }
        Err(fault) => Err(file_fault(alloc, fault)),
    }
}

/// Reads parameters and terms, and works out the verdict of the audit file by them.
pub(crate) fn judge_files<'a, F: Folder>(
    alloc: Global,
    files: VerifyFiles<'a>,
    folder: &mut F,
) -> Result<Judged, Fault<'a>>
    ensures counts { KeepsCounts (F.seen folder.old) (F.seen folder.new) }
    ensures ends { JudgedEnds files.entry.params.now files.entry.terms.now files.entry.audit.now
        (F.seen folder.old) (F.seen folder.new) result }
{
    let inputs = read_inputs(alloc, folder, files.params, files.terms)?;
    match judge_file(alloc, &inputs, folder, files.audit) {
        Ok(verdict) => Ok(Judged {
            terms: inputs.terms,
            verdict,
        }),
        Err(why) => Err(Fault::OfFile {
            file: InputFile::Audit,
            name: files.audit,
            why,
        }),
    }
}
