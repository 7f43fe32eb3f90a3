ghost use Rattle.std.specs.Prelude.{◌≡◌, true, IfOk};
ghost use Rattle.std.specs.List.{list_all};
ghost use Rattle.margin_calc.specs.CommandFiles.Files.{KeepsCounts};
ghost use Rattle.margin_whatif.specs.Words.{is_trade_word, words_in};
ghost use Rattle.margin_whatif.specs.WhatIf.{TellsRefusal, TextEnds, RefusalEnds};

use crate::asked::what_if_text;
use crate::fault_line::what_if_line;
use crate::files::WhatIfFiles;
use crate::live::live_of_batch;
use margin_calc::command_files::{Fault, InputFile, read_crif_file};
use margin_calc::read_both;
use mh_io::Folder;
use std::alloc::{AllocError, Global};
use whatif::WhatIfFault;
use whatif::bucket_cache::LiveMargin;
use whatif::bucket_cache::simm_rules::mh_units::Text;
use whatif::bucket_cache::simm_rules::simm_kinds::{Batch, Name};

/// Reads the three files, and works out the lines of the what-if.
pub(crate) fn text_of_files<'a, F: Folder>(
    alloc: Global,
    files: WhatIfFiles<'a>,
    folder: &mut F,
) -> Result<Text, Fault<'a>>
    requires names { list_all is_trade_word (words_in files.names.now) ≡ true }
    ensures counts { KeepsCounts (F.seen folder.old) (F.seen folder.new) }
    ensures ends { TextEnds files.entry.params.now files.entry.crif.now
        files.entry.candidate.now (words_in files.entry.names.now)
        (F.seen folder.old) (F.seen folder.new) result }
{
    let input = read_both(alloc, files.params, files.crif, folder)?;
    let live = live_of_batch(alloc, input.params, &input.batch)?;
    let candidate = match read_crif_file(alloc, folder, b"CANDIDATE", files.candidate) {
        Ok(candidate) => candidate,
        Err(why) => return Err(Fault::OfFile {
            file: InputFile::Candidate,
            name: files.candidate,
            why,
        }),
    };
    text_of_live(alloc, &live, files.names, &candidate)
}

// The lines of the what-if of a live margin.
fn text_of_live<'a>(
    alloc: Global,
    live: &LiveMargin,
    words: &[String],
    candidate: &Batch,
) -> Result<Text, Fault<'a>>
    requires { list_all is_trade_word (words_in words.now) ≡ true }
    ensures { RefusalEnds live.now.params live.now.book (words_in words.now) candidate.now result }
{
    let Ok(names) = trade_names(alloc, words) else {
        return Err(Fault::Memory);
    };
    match what_if_text(alloc, live, names.as_slice(), candidate) {
        Ok(text) => Ok(text),
        Err(fault) => Err(refused(alloc, fault)),
    }
}

// The fault of a what-if that is refused: its line, or want of memory.
fn refused<'a>(alloc: Global, fault: WhatIfFault) -> Fault<'a>
    ensures { TellsRefusal fault result }
{
    match what_if_line(alloc, fault) {
        Ok(line) => Fault::Refused(line),
        Err(_) => Fault::Memory,
    }
}

// The names that the words are. The only error is want of memory.
fn trade_names(alloc: Global, words: &[String]) -> Result<Vec<Name>, AllocError>
    requires { list_all is_trade_word (words_in words.now) ≡ true }
    ensures { IfOk result (λ names. names.items ≡ words_in words.now) }
{
    let mut names = Vec::with_capacity(alloc, words.len())?;
    for word in words {
        names.push(Name::of_bytes(alloc, word.as_bytes())?)?;
    }
    Ok(names)
}
