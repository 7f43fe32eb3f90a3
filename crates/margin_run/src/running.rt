ghost use Rattle.std.specs.Prelude.{◌<◌, ◌≤◌, ◌^◌, length, map};
ghost use Rattle.std.specs.String.{string_bytes};
ghost use Rattle.std.specs.Vec.{vec_len};
ghost use Rattle.feed_files.specs.CommandFiles.Files.{KeepsCounts};
ghost use Rattle.margin_run.specs.Desks.{desks_of};
ghost use Rattle.margin_run.specs.Run.{RunEnds};
ghost use Rattle.feed_files.specs.CommandFiles.Complete.{EndsWell};
ghost use Rattle.margin_run.specs.Complete.{IsWellRun};

use crate::account::Account;
use crate::law::runs_can_be_verified;
use crate::run_ending::end_run;
use crate::run_files::{RunFiles, run_files};
use call_desk::Desk;
use feed_files::command_files::{Status, end_at_fault};
use feed_runs::Gate;
use mh_io::{Folder, Sink};
use std::alloc::Global;
use std::sync::Wait;
use std::thread::Threads;

/// Runs feeds at the same time on the netting sets of a terms file, prints each set's journal and
/// what became of each feed, or the audit text of each set, as the account says, and tells each
/// desk the calls of what the sets collect.
///
/// With status `Done` and `Desk` the sink got all of the text; with `Feed`, and with `Read` where
/// a feed couldn't be read to its end, the same or a front of it where the sink failed: the whole
/// messages before a feed's end were done. With `Write` and `Memory` it got a front. Where the run
/// didn't reach the feeds it got one fault line, and no desk was told.
///
/// The audit texts of the sets that a run leaves are together verified by the same parameters and
/// terms where they aren't longer than 33,554,432 bytes, whichever account is printed.
pub fn run<R: Threads + Wait + Sync, F: Folder, K: Sink, G: Gate>(
    rt: &R,
    alloc: Global,
    account: Account,
    files: RunFiles,
    folder: &mut F,
    out: &mut K,
    desks: &mut Vec<Box<dyn Desk>>,
    retired: &mut Vec<Box<dyn Desk>>,
    gate: &G,
) -> Status
    requires few_desks { vec_len desks.old < 2 ^ 32 }
    requires feeds { (1 ≤ length files.feeds.now) × (length files.feeds.now ≤ 32) }
    ensures counts { KeepsCounts (F.seen folder.old) (F.seen folder.new) }
    ensures count { (K.seen out.old).faults ≤ (K.seen out.new).faults }
    ensures ends { RunEnds account files.entry.params.now files.entry.terms.now
        (map string_bytes files.entry.feeds.now) (F.seen folder.old) (F.seen folder.new)
        (K.seen out.old) (K.seen out.new) (desks_of (λ desk. (Desk-box desk).seen desk.value)
        desks.old.items desks.new.items retired.old.items retired.new.items) result }
    // Where all is well the run is done and printed whole, or memory ran out.
    ensures complete { IsWellRun files.entry.params.now files.entry.terms.now
        (map string_bytes files.entry.feeds.now) (F.seen folder.old) (F.seen folder.new)
        (K.seen out.old) (K.seen out.new) (desks_of (λ desk. (Desk-box desk).seen desk.value)
        desks.old.items desks.new.items retired.old.items retired.new.items) → EndsWell result }
{
    match run_files(rt, alloc, files, folder, gate) {
        Ok(run) => {
            runs_can_be_verified();
            end_run(rt, alloc, account, out, desks, retired, &run)
        }
        Err(fault) => end_at_fault(out, &fault),
    }
}
