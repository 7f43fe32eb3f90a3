ghost use Rattle.std.specs.Prelude.{◌≡◌, ◌≤◌, true};
ghost use Rattle.std.specs.List.{list_all};
ghost use Rattle.margin_calc.specs.CommandFiles.Complete.{EndsWell};
ghost use Rattle.margin_calc.specs.CommandFiles.Files.{KeepsCounts};
ghost use Rattle.margin_whatif.specs.Words.{is_trade_word, words_in};
ghost use Rattle.margin_whatif.specs.Complete.{IsWellWhatIf};
ghost use Rattle.margin_whatif.specs.WhatIf.{WhatIfEnds};

use crate::files::WhatIfFiles;
use crate::text_of::text_of_files;
use margin_calc::command_files::{Status, end_at_fault, print_text};
use mh_io::{Folder, Sink};
use std::alloc::Global;

/// Prints the margin of a book before and after a candidate batch came to it and the named trades
/// left it, and for each name the total of the book without that trade alone. The files are read
/// in the order in which they are named: parameters, the book's CRIF file, the candidate's; the
/// book is submitted, and its margin asked once, before the candidate is read. It waits for
/// nobody.
///
/// With status `Done` the sink got the lines of the margins that the written rule gives of the
/// three files; with `Write` a front of them, since the sink failed. At every other status but
/// `Memory` the sink got one fault line, or a front of it where the sink failed, and nothing
/// else: `Params` and `Terms` exactly where a file that was read is too long or refused, `Terms`
/// also where the book or the what-if is, `Find` and `Read` only where the folder's count of such
/// faults rose. `Memory` for want of memory.
pub fn whatif<F: Folder, K: Sink>(
    alloc: Global,
    files: WhatIfFiles,
    folder: &mut F,
    out: &mut K,
) -> Status
    requires names { list_all is_trade_word (words_in files.names.now) ≡ true }
    ensures counts { KeepsCounts (F.seen folder.old) (F.seen folder.new) }
    ensures count { (K.seen out.old).faults ≤ (K.seen out.new).faults }
    ensures ends { WhatIfEnds files.entry.params.now files.entry.crif.now
        files.entry.candidate.now (words_in files.entry.names.now)
        (F.seen folder.old) (F.seen folder.new) (K.seen out.old) (K.seen out.new) result }
    // Where all is well the lines are printed, or memory ran out.
    ensures complete { IsWellWhatIf files.entry.params.now files.entry.crif.now
        files.entry.candidate.now (words_in files.entry.names.now) (F.seen folder.old)
        (F.seen folder.new) (K.seen out.old) (K.seen out.new) → EndsWell result }
{
    match text_of_files(alloc, files, folder) {
        Ok(text) => print_text(out, text.as_slice()),
        Err(fault) => end_at_fault(out, &fault),
    }
}
