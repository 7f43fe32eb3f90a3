use crate::call_desk_calls::{calls, notice};
use call_desk::{Desk, DeskFault, MemDesk, Notice, Published, publish};
use csa_terms::{Flow, push_day};
use mh_units::{Cents, Text, push_cents};
use std::alloc::{AllocError, Global};
use std::process::Abort;

/// A desk that leaves a message for each call in an outbox with so many places.
#[derive(Drop)]
struct Outbox {
    messages: Vec<Text>,
    places: usize,
    left: u64,
    faults: u64,
    wants: u64,
}

/// The set, what is to be delivered or returned, and by when.
fn message(alloc: Global, notice: &Notice) -> Result<Text, AllocError> {
    let mut text = Text::new(alloc);
    text.extend(notice.set.bytes())?;
    text.extend(match notice.flow {
        Flow::Delivery => b": please deliver ",
        Flow::Return => b": please return ",
    })?;
    push_cents(&mut text, Cents(i128::from(notice.amount)))?;
    text.extend(b" by ")?;
    push_day(&mut text, notice.due)?;
    Ok(text)
}

fn leave(messages: &mut Vec<Text>, notice: &Notice) -> Result<(), AllocError> {
    let text = message(*messages.allocator(), notice)?;
    messages.push(text)?;
    Ok(())
}

impl Desk for Outbox {
    ghost use Rattle.call_desk.specs.Desk.{counts_alone};

    ghost seen = { λ d. counts_alone d.faults d.wants d.left };

    fn tell(&mut self, notice: &Notice) -> Result<(), DeskFault> {
        if self.messages.len() >= self.places {
            self.faults = self.faults.saturating_add(1);
            return Err(DeskFault::Failed);
        }
        if leave(&mut self.messages, notice).is_err() {
            self.wants = self.wants.saturating_add(1);
            return Err(DeskFault::Memory);
        }
        self.left = self.left.saturating_add(1);
        Ok(())
    }

    fn tellings(&self) -> u64 {
        self.left
    }

    fn told_list(&self) -> Option<&[Notice]> {
        None
    }
}

fn empty_outbox(alloc: Global) -> Outbox {
    Outbox {
        messages: Vec::new(alloc),
        places: 1,
        left: 0,
        faults: 0,
        wants: 0,
    }
}

#[test]
fn a_full_outbox_fails(rt: HostRuntime) {
    let mut outbox = empty_outbox(rt.alloc());
    assert!(rt;
        outbox
            .tell(&notice(&rt, Flow::Return, 240_000, 19_786))
            .is_ok()
    );
    let text = "ALPHA: please return 2400.00 by 2024-03-04";
    assert!(rt;
        outbox
            .messages
            .iter()
            .all(|m| m.as_slice() == text.as_bytes())
    );
    let again = outbox.tell(&notice(&rt, Flow::Delivery, 240_000, 19_786));
    assert!(rt; again == Err(DeskFault::Failed));
    assert!(rt; outbox.messages.len() == 1 && outbox.faults == 1 && outbox.wants == 0);
    assert!(rt; outbox.tellings() == 1);
}

#[test]
fn a_full_outbox_is_retired(rt: HostRuntime) -> Result<(), AllocError> {
    let wanting = MemDesk::new(Vec::new(rt.alloc()), calls(&rt, 2));
    let sound = MemDesk::new(Vec::new(rt.alloc()), Vec::new(rt.alloc()));
    let mut desks: Vec<Box<dyn Desk>> = Vec::new(rt.alloc());
    desks.push(Box::new(rt.alloc(), empty_outbox(rt.alloc()))?)?;
    desks.push(Box::new(rt.alloc(), wanting)?)?;
    desks.push(Box::new(rt.alloc(), sound)?)?;
    let mut retired = Vec::new(rt.alloc());
    assert!(rt; desks.len() == 3);
    let notices = [
        notice(&rt, Flow::Return, 240_000, 19_786),
        notice(&rt, Flow::Delivery, 240_000, 19_786),
    ];
    let published = publish(&mut desks, &mut retired, &notices)?;
    let wanted = Published {
        told: 4,
        failed: 1,
        memory: 1,
    };
    assert!(rt; published == wanted);
    assert!(rt; desks.len() == 1 && retired.len() == 2);
    assert!(rt; desks.iter().all(|desk| desk.tellings() == 2));
    assert!(rt; retired.iter().all(|desk| desk.tellings() == 1));
    Ok(())
}
