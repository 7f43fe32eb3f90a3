ghost use Rattle.std.specs.Prelude.{◌≤◌, ◌^◌, length, map};
ghost use Rattle.std.specs.String.{string_bytes};
ghost use Rattle.feed_files.specs.CommandFiles.Files.{KeepsCounts};
ghost use Rattle.feed_files.specs.CommandFiles.Complete.{EndsWell};
ghost use Rattle.margin_pool.specs.Pool.{PoolEnds};
ghost use Rattle.margin_pool.specs.Complete.{IsWellPool};

use crate::pool_files::{PoolFiles, run_files};
use crate::pool_printing::end_pool;
use feed_files::command_files::{Status, end_at_fault};
use feed_runs::Gate;
use mh_io::{Folder, Sink};
use std::alloc::Global;
use std::sync::Wait;
use std::thread::Threads;

/// Runs feeds at the same time on a total that the netting sets of a terms file share, and prints
/// each feed's messages with their replies, what each set holds, and what is left. Feed `f` is the
/// desk of the `f`-th set.
///
/// With status `Done` the sink got all of the text; with `Feed`, and with `Read` where a feed
/// couldn't be read to its end, the same or a front of it where the sink failed: the messages
/// before a feed's end were replied to. With `Write` and `Memory` it got a front. Where the feeds
/// weren't run it got one fault line.
pub fn pool<R: Threads + Wait + Sync, F: Folder, K: Sink, G: Gate>(
    rt: &R,
    alloc: Global,
    files: PoolFiles,
    folder: &mut F,
    out: &mut K,
    gate: &G,
) -> Status
    requires total { (1 ≤ files.total) × (files.total ≤ 10 ^ 15) }
    requires feeds { (1 ≤ length files.feeds.now) × (length files.feeds.now ≤ 32) }
    ensures counts { KeepsCounts (F.seen folder.old) (F.seen folder.new) }
    ensures count { (K.seen out.old).faults ≤ (K.seen out.new).faults }
    ensures ends { PoolEnds files.entry.terms.now files.entry.total
        (map string_bytes files.entry.feeds.now)
        (F.seen folder.old) (F.seen folder.new) (K.seen out.old) (K.seen out.new) result }
    // Where all is well the feeds are run and printed whole, or memory ran out.
    ensures complete { IsWellPool files.entry.terms.now (map string_bytes files.entry.feeds.now)
        (F.seen folder.old) (F.seen folder.new) (K.seen out.old) (K.seen out.new)
        → EndsWell result }
{
    match run_files(rt, alloc, files, folder, gate) {
        Ok(run) => end_pool(alloc, out, run),
        Err(fault) => end_at_fault(out, &fault),
    }
}
