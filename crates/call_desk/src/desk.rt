ghost use Rattle.std.specs.Prelude.{◌≡◌, option_map};
ghost use Rattle.call_desk.specs.Desk.{DeskSeen, Tells};

use crate::fault::DeskFault;
use crate::notice::Notice;

/// Where calls are told of.
///
/// A desk counts its faults, its wants of memory and the notices that it was told, each at most to
/// 2^64 - 1. A count never falls, and stays at that value once it is there. A desk may tell the
/// notices that it was told.
pub trait Desk: Drop {
    ghost seen: { Self → DeskSeen };

    /// Tells the desk of a call, which it counts. On a fault it was not told.
    ///
    /// # Errors
    ///
    /// `Failed` only where the count of faults rose in this call, `Memory` only where the count of
    /// wants did.
    fn tell(&mut self, notice: &Notice) -> Result<(), DeskFault>
        ensures { Tells (seen self.old) (seen self.new) notice.now result };

    /// How many notices the desk was told. It takes no memory.
    fn tellings(&self) -> u64
        ensures { result ≡ (seen self.now).tellings };

    /// Lends the notices that the desk was told, in order; None where it doesn't tell them. It
    /// takes no memory.
    fn told_list(&self) -> Option<&[Notice]>
        ensures { option_map (λ list. list.now) result ≡ (seen self.now).told };
}
