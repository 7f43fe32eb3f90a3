//! The line of an audit file that has no verdict.
ghost use Rattle.std.specs.Prelude.{◌≡◌, ◌≢◌, ◌++◌, IfOk, OnOk};
ghost use Rattle.audit_file.specs.declared.answer.AuditFault.TheVariants as fault_of;
ghost use Rattle.margin_verify.specs.FaultLines.{audit_fields, audit_line};
ghost use Rattle.margin_verify.specs.Verify.{FaultGives};

use audit_file::AuditFault;
use csa_terms::mh_units::Text;
use fault_text::{begun_line, push_last_number, push_number};
use feed_files::command_files::FileFault;
use std::alloc::{AllocError, Global};

/// What an audit file that has no verdict is to a command: refused, with the line of its fault,
/// or unread.
pub(crate) fn file_fault(alloc: Global, fault: AuditFault) -> FileFault
    ensures { FaultGives fault result }
{
    if let AuditFault::ReadFault = fault {
        return FileFault::Unread;
    }
    match audit_line(alloc, fault) {
        Ok(line) => FileFault::Refused(line),
        Err(_) => FileFault::Memory,
    }
}

/// The line of a fault of the file.
///
/// # Errors
///
/// For want of memory, of the file's reader too.
fn audit_line(alloc: Global, fault: AuditFault) -> Result<Text, AllocError>
    ensures line { IfOk result (λ line. line ≡ audit_line fault) }
    ensures refused { OnOk result (fault ≢ fault_of.Memory) }
{
    let Some(number) = fault.number() else {
        return Err(AllocError);
    };
    let mut line = begun_line(alloc, b"AUDIT")?;
    push_audit_fields(&mut line, number, fault)?;
    Ok(line)
}

/// Adds the number of a fault and where it is, up to the end of the line.
fn push_audit_fields(line: &mut Text, code: u8, fault: AuditFault) -> Result<(), AllocError>
    ensures { OnOk result (line.new ≡ line.old ++ audit_fields code fault) }
{
    match fault {
        AuditFault::NotAudit { line: number } | AuditFault::Long { line: number } => {
            push_number(line, code)?;
            push_last_number(line, number)
        }
        AuditFault::Full { set, entry } => {
            push_number(line, code)?;
            push_number(line, set)?;
            push_last_number(line, entry)
        }
        AuditFault::TooLong { taken } => {
            push_number(line, code)?;
            push_last_number(line, taken)
        }
        AuditFault::ReadFault | AuditFault::Memory => push_last_number(line, code),
    }
}
