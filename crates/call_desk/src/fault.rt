/// Why a desk did not take a notice.
#[derive(Clone, Copy, PartialEq, Eq)]
pub enum DeskFault {
    /// The desk failed.
    Failed,
    /// The desk found no memory.
    Memory,
}
