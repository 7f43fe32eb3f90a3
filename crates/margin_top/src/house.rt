ghost use Rattle.std.specs.Prelude.{◌<◌, ◌≤◌, ◌^◌, map};
ghost use Rattle.std.specs.String.{string_bytes};
ghost use Rattle.std.specs.Vec.{vec_len};
ghost use Rattle.margin_calc.specs.CommandFiles.Files.{KeepsCounts};
ghost use Rattle.margin_calc.specs.CommandFiles.Complete.{EndsWell};
ghost use Rattle.margin_top.specs.Complete.{IsWellHouse};
ghost use Rattle.margin_run.specs.Desks.{desks_of};
ghost use Rattle.margin_top.specs.House.{HouseEnds};

use crate::words::{Command, command_of};
use call_desk::Desk;
use feed_runs::Gate;
use margin_calc::calc;
use margin_calc::command_files::{FaultLine, Status, print_line};
use margin_explain::explain;
use margin_pool::pool;
use margin_run::{Account, run};
use margin_sample::sample;
use margin_schedule::schedule;
use margin_verify::verify;
use margin_whatif::whatif;
use mh_io::{Folder, Sink};
use std::alloc::Global;
use std::sync::Wait;
use std::thread::Threads;

/// All that the program does: `calc PARAMS CRIF` prints the margin of one batch, as `calc` says;
/// `explain PARAMS CRIF` prints how that margin comes about, as `explain` says;
/// `schedule DATE CRIF` prints the margin of a portfolio by the standard schedule on a day, as
/// `schedule` says; `whatif PARAMS CRIF CANDIDATE NAME..` prints the margin of a batch before and
/// after a candidate comes and 0 to 100 trades leave, as `whatif` says; `run PARAMS TERMS FEED..`
/// runs 1 to 32 feeds at the same time on the netting sets of the terms, prints the journals and
/// what became of the feeds, and tells each desk the calls of what they collect;
/// `audit PARAMS TERMS FEED..` does the same, and prints the audit text of each set in place of
/// these, which together are verified by the same parameters and terms where they aren't longer
/// than 33,554,432 bytes; `verify PARAMS TERMS AUDIT` works out each reply of an audit file anew,
/// as `verify` says: where all are right the file tells a legal journal of each set;
/// `pool TERMS TOTAL FEED..` runs 1 to 32 feeds at the same time on a total that the netting sets
/// of the terms share, and prints what each was replied, as `pool` says. Words that are no form of
/// a command are status `Words`, with one fault line; then the folder isn't asked for anything.
/// The gate is called before and after each call of a feed on a set.
///
/// `sample N SEED` runs 1 to 32 feeds that it makes itself, as `sample` says. It asks the folder
/// for nothing, and tells no desk.
///
/// A run that reached its feeds tells each desk the notices of all calls of what the sets collect,
/// set after set, each set's in the order of its journal, unless memory ran out for the text or
/// for the notices (`Memory`). A desk that fails is told nothing more and is moved to the end of
/// `retired`; the caller drops it. The status is then `Desk`, but for the first feed that didn't
/// end whole and for a sink that failed, whose statuses come first. At every other end no desk is
/// told anything, and both lists stand.
pub fn margin_house<R: Threads + Wait + Sync, F: Folder, K: Sink, G: Gate>(
    rt: &R,
    alloc: Global,
    words: &[String],
    folder: &mut F,
    out: &mut K,
    desks: &mut Vec<Box<dyn Desk>>,
    retired: &mut Vec<Box<dyn Desk>>,
    gate: &G,
) -> Status
    requires few_desks { vec_len desks.old < 2 ^ 32 }
    ensures counts { KeepsCounts (F.seen folder.old) (F.seen folder.new) }
    ensures count { (K.seen out.old).faults ≤ (K.seen out.new).faults }
    ensures ends { HouseEnds (map string_bytes words.now) (F.seen folder.old) (F.seen folder.new)
        (K.seen out.old) (K.seen out.new) (desks_of (λ desk. (Desk-box desk).seen desk.value)
        desks.old.items desks.new.items retired.old.items retired.new.items) result }
    // Where the words are a command for which all is well it is done and printed whole, or memory
    // ran out.
    ensures complete { IsWellHouse (map string_bytes words.now)
        (F.seen folder.old) (F.seen folder.new) (K.seen out.old) (K.seen out.new)
        (desks_of (λ desk. (Desk-box desk).seen desk.value) desks.old.items desks.new.items
        retired.old.items retired.new.items) → EndsWell result }
{
    match command_of(words) {
        Some(Command::Calc(files)) => calc(alloc, files.params, files.crif, folder, out),
        Some(Command::Explain(files)) => explain(alloc, files.params, files.crif, folder, out),
        Some(Command::Schedule(files)) => schedule(alloc, files.day, files.crif, folder, out),
        Some(Command::WhatIf(files)) => whatif(alloc, files, folder, out),
        Some(Command::Sample(plan)) => sample(rt, alloc, plan, out, gate),
        Some(Command::Run(files)) => run(
            rt,
            alloc,
            Account::Journals,
            files,
            folder,
            out,
            desks,
            retired,
            gate,
        ),
        Some(Command::Audit(files)) => run(
            rt,
            alloc,
            Account::Audits,
            files,
            folder,
            out,
            desks,
            retired,
            gate,
        ),
        Some(Command::Verify(files)) => verify(alloc, files, folder, out),
        Some(Command::Pool(files)) => pool(rt, alloc, files, folder, out, gate),
        None => {
            print_line(out, FaultLine::Whole(b"FAULT\tWORDS\n"));
            Status::Words
        }
    }
}
