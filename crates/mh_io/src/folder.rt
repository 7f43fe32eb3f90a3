ghost use Rattle.std.specs.Prelude.{◌<◌};
ghost use Rattle.mh_io.specs.Folder.{FolderSeen, Finds, TakesBack};

use crate::source::Source;
use std::alloc::{AllocError, Global};

/// Why a folder gave no source.
#[derive(Clone, Copy)]
pub enum FindRefused {
    /// The file isn't there or can't be opened; the folder's count of find faults rose.
    Failed,
    /// Memory ran out.
    Memory,
}

impl From<AllocError> for FindRefused {
    ghost use Rattle.std.specs.Prelude.{◌≡◌};
    ghost use Rattle.mh_io.specs.declared.folder.FindRefused.TheVariants.{Memory};

    ghost from_gives = { λ _ refused. refused ≡ Memory };

    fn from(_error: AllocError) -> FindRefused {
        FindRefused::Memory
    }
}

/// Files by name, each found as a source and handed back when it is read.
///
/// A folder counts its faults at finds and those of the sources that came back, each at most to
/// 2^64 - 1. These counts never fall, and stay at that value once they are there. It counts the
/// sources that were found and have not come back too. A folder may tell its files, the names that
/// it was asked for, and what was read.
pub trait Folder {
    /// What a find gives.
    type Src: Source + Send;

    ghost seen: { Self → FolderSeen };

    /// Finds the file of this name, and makes the room that `done` will need.
    ///
    /// # Errors
    ///
    /// `Failed` only where the count of find faults rose in this call, as it does for a file that
    /// isn't there. `Memory` for want of memory; then the name isn't counted as asked for.
    fn find(&mut self, alloc: Global, name: &str) -> Result<Self::Src, FindRefused>
        ensures { Finds Self.Src.seen (seen self.old) (seen self.new) name.now result };

    /// Takes back a source that `find` gave. It takes no memory.
    fn done(&mut self, source: Self::Src)
        requires { 0 < (seen self.old).due }
        ensures { TakesBack (seen self.old) (seen self.new) (Self.Src.seen source) };
}
