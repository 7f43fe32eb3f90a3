//! The line of a what-if that is refused.
ghost use Rattle.std.specs.Prelude.{◌≡◌, ◌≢◌, ◌++◌, IfOk, OnOk};
ghost use Rattle.whatif.specs.declared.fault.WhatIfFault.TheVariants as what;
ghost use Rattle.margin_whatif.specs.FaultLine.{what_if_fields, what_if_fault};

use breakdown_text::fault_text::{begun_line, push_last_number, push_number};
use std::alloc::{AllocError, Global};
use whatif::WhatIfFault;
use whatif::bucket_cache::simm_rules::mh_units::Text;

/// The line of a refusal.
///
/// # Errors
///
/// For want of memory, of the what-if too.
pub(crate) fn what_if_line(alloc: Global, fault: WhatIfFault) -> Result<Text, AllocError>
    ensures line { IfOk result (λ line. line ≡ what_if_fault fault) }
    ensures refused { OnOk result (fault ≢ what.Memory) }
{
    let mut line = begun_line(alloc, b"WHATIF")?;
    push_fields(&mut line, fault)?;
    Ok(line)
}

// Adds its number and what stands behind it, up to the end of the line.
fn push_fields(line: &mut Text, fault: WhatIfFault) -> Result<(), AllocError>
    ensures added { OnOk result (line.new ≡ line.old ++ what_if_fields fault) }
    ensures refused { OnOk result (fault ≢ what.Memory) }
{
    match fault {
        WhatIfFault::UnknownTrade { place } => {
            push_number(line, 1_u8)?;
            push_last_number(line, place)
        }
        WhatIfFault::BucketUnknown { trade, row } => {
            push_number(line, 2_u8)?;
            push_number(line, trade)?;
            push_last_number(line, row)
        }
        WhatIfFault::Range(fault) => {
            push_number(line, 3_u8)?;
            push_number(line, fault.which.number())?;
            push_number(line, fault.value)?;
            push_last_number(line, fault.limit)
        }
        WhatIfFault::Memory => Err(AllocError),
    }
}
