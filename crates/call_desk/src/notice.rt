ghost use Rattle.std.specs.Prelude.{◌≡◌, ◌++◌, IfOk, OnOk};
ghost use Rattle.call_desk.specs.Text.{field, flow_word, notice_text};

use csa_terms::{Flow, push_day};
use itoa::Buffer;
use mh_units::{Cents, Text, push_cents};
use simm_kinds::Name;
use std::alloc::{AllocError, Global};

/// A call that was made, as a desk is told of it.
/// (ISDA 2016 Credit Support Annex for Initial Margin: demands for a Delivery Amount or a
/// Return Amount.)
#[derive(Drop)]
pub struct Notice {
    /// The netting set.
    pub set: Name,
    /// The number of the call in its set, among those of the side that the set collects.
    pub number: u32,
    /// Whether collateral is delivered or returned.
    pub flow: Flow,
    /// In cents.
    pub amount: i64,
    /// The day on which it is due, counted from 1970-01-01.
    pub due: i32,
}

impl Notice {
    /// An equal notice. The only error is want of memory.
    pub fn copy(&self, alloc: Global) -> Result<Notice, AllocError>
        ensures { IfOk result (λ copy. copy ≡ self.now) }
    {
        Ok(Notice {
            set: self.set.copy(alloc)?,
            number: self.number,
            flow: self.flow,
            amount: self.amount,
            due: self.due,
        })
    }
}

/// Adds the line of a notice to a text. The only error is want of memory; a front of it may have
/// been added then.
pub fn push_notice(text: &mut Text, notice: &Notice) -> Result<(), AllocError>
    ensures { OnOk result (text.new ≡ text.old ++ notice_text notice.now) }
{
    push_field(text, b"NOTICE")?;
    push_field(text, notice.set.bytes())?;
    push_field(text, Buffer::new().format(notice.number).as_bytes())?;
    push_field(text, flow_word(notice.flow))?;
    push_cents(text, Cents(i128::from(notice.amount)))?;
    text.push(b'\t')?;
    push_day(text, notice.due)?;
    text.push(b'\n')
}

/// Adds a field that another follows.
fn push_field(text: &mut Text, bytes: &[u8]) -> Result<(), AllocError>
    ensures { OnOk result (text.new ≡ text.old ++ field bytes.now) }
{
    text.extend(bytes)?;
    text.push(b'\t')
}

fn flow_word(flow: Flow) -> &'static [u8]
    ensures { result.now ≡ flow_word flow }
{
    match flow {
        Flow::Delivery => b"DELIVERY",
        Flow::Return => b"RETURN",
    }
}
