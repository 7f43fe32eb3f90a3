use command_files::Status;
use feed_runs::Gate;
use margin_sample::{SamplePlan, sample};
use mh_io::MemSink;
use std::alloc::AllocError;
use std::sync::atomic::{AtomicU32, Ordering};

/// Counts the calls of two feeds on two sets, once they were answered, and all others.
#[derive(Drop)]
struct CallCounts {
    first_on_first: AtomicU32,
    first_on_second: AtomicU32,
    second_on_first: AtomicU32,
    second_on_second: AtomicU32,
    others: AtomicU32,
}

impl CallCounts {
    fn new() -> CallCounts {
        CallCounts {
            first_on_first: AtomicU32::new(0),
            first_on_second: AtomicU32::new(0),
            second_on_first: AtomicU32::new(0),
            second_on_second: AtomicU32::new(0),
            others: AtomicU32::new(0),
        }
    }
}

impl Gate for CallCounts {
    fn before_call(&self, _feed: u32, _set: u32) {}

    fn after_call(&self, feed: u32, set: u32) {
        let count = match (feed, set) {
            (0, 0) => &self.first_on_first,
            (0, 1) => &self.first_on_second,
            (1, 0) => &self.second_on_first,
            (1, 1) => &self.second_on_second,
            _ => &self.others,
        };
        count.fetch_add(1, Ordering::SeqCst);
    }
}

#[test]
fn each_feed_of_a_sample_calls_each_set(rt: HostRuntime) -> Result<(), AllocError> {
    let gate = CallCounts::new();
    let mut out = MemSink::new(rt.alloc(), 1_000, 1_000, Vec::new(rt.alloc()))?;
    let plan = SamplePlan { feeds: 2, seed: 0 };
    let status = sample(&rt, rt.alloc(), plan, &mut out, &gate);
    assert!(rt; status == Status::Done);
    assert!(rt; gate.first_on_first.load(Ordering::SeqCst) == 50);
    assert!(rt; gate.first_on_second.load(Ordering::SeqCst) == 50);
    assert!(rt; gate.second_on_first.load(Ordering::SeqCst) == 50);
    assert!(rt; gate.second_on_second.load(Ordering::SeqCst) == 50);
    assert!(rt; gate.others.load(Ordering::SeqCst) == 0);
    Ok(())
}
