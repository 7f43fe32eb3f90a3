use feed_gate::FeedReport;
use feed_runs::FeedEnd;
use margin_text::push_report;
use mh_units::Text;
use simm_kinds::Listed;
use std::alloc::AllocError;

#[test]
fn a_want_of_memory_is_printed(rt: HostRuntime) -> Result<(), AllocError> {
    let report = FeedReport {
        done: 5,
        refused: Listed::new(rt.alloc()),
        end: FeedEnd::Memory { line: 8 },
    };
    let mut text = Text::new(rt.alloc());
    push_report(&mut text, 7, &[], &report)?;
    assert!(rt; text.as_slice() == "FEED\t7\t5\t0\tMEMORY\t8\n".as_bytes());
    Ok(())
}
