ghost use Rattle.std.specs.Prelude.{◌≤◌, IfOk};
ghost use Rattle.margin_sample.specs.Sample.{HasSampled, SampleEnds, IsWellSample};
ghost use Rattle.command_files.specs.Complete.{EndsWell};

use crate::plan::SamplePlan;
use crate::running::run_sample;
use crate::summary::summary;
use command_files::Status;
use feed_runs::Gate;
use mh_io::{Sink, put_all};
use mh_units::Text;
use std::alloc::{AllocError, Global};
use std::sync::Wait;
use std::thread::Threads;

/// The text of a sample.
fn sample_text<R: Threads + Wait + Sync, G: Gate>(
    rt: &R,
    alloc: Global,
    plan: SamplePlan,
    gate: &G,
) -> Result<Text, AllocError>
    requires { (1 ≤ plan.feeds) × (plan.feeds ≤ 32) }
    ensures { IfOk result (λ text. HasSampled plan.feeds plan.seed text) }
{
    let sets = run_sample(rt, alloc, plan, gate)?;
    summary(alloc, plan, sets)
}

/// Makes feeds, runs them at the same time on two netting sets, asks each set its margin once
/// more, and prints both answers. The gate is called before and after each call of a feed on
/// a set.
///
/// With status `Done` the sink got all of the text; with `Write` a front of it, since the sink
/// failed. `Memory` for want of memory, in a feed too; then nothing was printed.
pub fn sample<R: Threads + Wait + Sync, K: Sink, G: Gate>(
    rt: &R,
    alloc: Global,
    plan: SamplePlan,
    out: &mut K,
    gate: &G,
) -> Status
    requires { (1 ≤ plan.feeds) × (plan.feeds ≤ 32) }
    ensures count { (K.seen out.old).faults ≤ (K.seen out.new).faults }
    ensures ends { SampleEnds plan.feeds plan.seed (K.seen out.old) (K.seen out.new) result }
    ensures complete { IsWellSample (K.seen out.old) (K.seen out.new) → EndsWell result }
{
    let Ok(text) = sample_text(rt, alloc, plan, gate) else {
        return Status::Memory;
    };
    match put_all(out, text.as_slice()) {
        Ok(()) => Status::Done,
        Err(_) => Status::Write,
    }
}
