ghost use Rattle.std.specs.Prelude.{◌≡◌, IfOk};
ghost use Rattle.margin_calc.specs.RefusalLine.{refusal_fault};

use breakdown_text::fault_text::push_field;
use mh_units::Text;
use set_core::{Refusal, Reply, push_reply};
use std::alloc::{AllocError, Global};

/// The line of a batch that is refused.
///
/// # Errors
///
/// For want of memory.
pub(crate) fn refusal_line(alloc: Global, refusal: Refusal) -> Result<Text, AllocError>
    ensures { IfOk result (λ line. line ≡ refusal_fault refusal) }
{
    let mut line = Text::new(alloc);
    push_field(&mut line, b"FAULT")?;
    push_reply(&mut line, &Reply::Refused(refusal))?;
    line.push(b'\n')?;
    Ok(line)
}
