use call_desk::{Desk, DeskFault, Notice, SinkDesk, push_notice};
use csa_terms::Flow;
use mh_io::MemSink;
use mh_units::Text;
use simm_kinds::Name;
use std::alloc::AllocError;
use std::process::Abort;

/// A notice of the set ALPHA.
pub fn notice(rt: &(impl Abort + AllocGlobal), flow: Flow, amount: i64, due: i32) -> Notice {
    Notice {
        set: Name::read(rt.alloc(), b"ALPHA").ok().expect(rt, "a name"),
        number: 1,
        flow,
        amount,
        due,
    }
}

/// The call of a desk that is to come to nothing; there is no call 0.
pub fn calls(rt: &(impl Abort + AllocGlobal), number: u64) -> Vec<u64> {
    let mut numbers = Vec::new(rt.alloc());
    numbers.push(number).ok().expect(rt, "memory");
    numbers
}

// No demand is due in the year 10000.
#[test]
fn a_day_past_the_calendar_is_a_number(rt: HostRuntime) -> Result<(), AllocError> {
    let mut text = Text::new(rt.alloc());
    push_notice(&mut text, &notice(&rt, Flow::Return, 100, 2_932_897))?;
    assert!(rt; text.as_slice() == "NOTICE\tALPHA\t1\tRETURN\t1.00\t2932897\n".as_bytes());
    Ok(())
}

/// The put of the sink that fails, what the desk answers, and what the sink holds.
const WRITTEN: [(u64, Result<(), DeskFault>, &str); 3] = [
    (
        0,
        Ok(()),
        "NOTICE\tALPHA\t1\tDELIVERY\t2400.00\t2024-03-04\n",
    ),
    (1, Err(DeskFault::Failed), ""),
    (2, Err(DeskFault::Failed), "NOTICE\tALPHA\t1\tDEL"),
];

#[test]
fn a_desk_over_a_sink_writes_lines(rt: HostRuntime) -> Result<(), AllocError> {
    for (failing, answer, held) in WRITTEN {
        let sink = MemSink::new(rt.alloc(), 100, 18, calls(&rt, failing))?;
        let mut desk = SinkDesk::new(rt.alloc(), sink);
        let told = desk.tell(&notice(&rt, Flow::Delivery, 240_000, 19_786));
        assert!(rt; told == answer, "{held}");
        assert!(rt; desk.sink().bytes() == held.as_bytes(), "{held}");
        assert!(rt; desk.told_list().is_none());
        assert!(rt; desk.tellings() == u64::from(answer.is_ok()));
    }
    Ok(())
}
