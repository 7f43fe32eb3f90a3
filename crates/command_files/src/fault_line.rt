/// The one line of a command that ended with a fault.
#[derive(Clone, Copy)]
pub enum FaultLine<'a> {
    /// The whole line; for want of memory there is none.
    Whole(&'a [u8]),
    /// The first fields of the line, and a file's name as the last.
    Named(&'a [u8], &'a str),
}
