ghost use Rattle.std.specs.Prelude.{◌≡◌, ◌≤◌, ◌++◌};
ghost use Rattle.fault_text.specs.Fields.{last_field};
ghost use Rattle.command_files.specs.FaultLine.{line_text};
ghost use Rattle.command_files.specs.Printed.{GotLine, Prints};
ghost use Rattle.command_files.specs.Ending.{status_of, line_of};

use crate::fault::Fault;
use crate::fault_line::FaultLine;
use crate::status::Status;
use mh_io::{Sink, put_all};

/// Ends a command at a fault: its line is printed, and the command has its status.
pub fn end_at_fault<K: Sink>(out: &mut K, fault: &Fault) -> Status
    ensures count { (K.seen out.old).faults ≤ (K.seen out.new).faults }
    ensures status { result ≡ status_of fault.now }
    ensures printed { GotLine (K.seen out.old) (K.seen out.new) (line_of fault.now) }
{
    print_line(out, fault.line());
    fault.status()
}

/// Prints a text: `Done`, or `Write` where the sink fails, which has a front of it then. It takes
/// no memory.
pub fn print_text<K: Sink>(out: &mut K, text: &[u8]) -> Status
    ensures count { (K.seen out.old).faults ≤ (K.seen out.new).faults }
    ensures printed { Prints text.now (K.seen out.old) (K.seen out.new) result }
{
    match put_all(out, text) {
        Ok(()) => Status::Done,
        Err(_) => Status::Write,
    }
}

/// Prints the line of a fault, or a front of it where the sink fails. It takes no memory.
pub fn print_line<K: Sink>(out: &mut K, line: FaultLine)
    ensures count { (K.seen out.old).faults ≤ (K.seen out.new).faults }
    ensures printed { GotLine (K.seen out.old) (K.seen out.new) (line_text line.entry) }
{
    match line {
        FaultLine::Whole(bytes) => print_front(out, bytes),
        FaultLine::Named(fields, name) => print_named(out, fields, name),
    }
}

/// Prints these bytes, or a front of them where the sink fails.
fn print_front<K: Sink>(out: &mut K, bytes: &[u8])
    ensures count { (K.seen out.old).faults ≤ (K.seen out.new).faults }
    ensures printed { GotLine (K.seen out.old) (K.seen out.new) bytes.now }
{
    let _ = put_all(out, bytes);
}

/// Prints one line whose last field is a file's name, or a front of it.
fn print_named<K: Sink>(out: &mut K, fields: &[u8], name: &str)
    ensures count { (K.seen out.old).faults ≤ (K.seen out.new).faults }
    ensures printed { GotLine (K.seen out.old) (K.seen out.new)
        (fields.now ++ last_field name.now) }
{
    if put_all(out, fields).is_err() {
        return;
    }
    if put_all(out, name.as_bytes()).is_err() {
        return;
    }
    print_front(out, b"\n");
}
