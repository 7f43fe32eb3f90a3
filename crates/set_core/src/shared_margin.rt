ghost use Rattle.std.specs.Prelude.{◌≡◌, ◌<◌, IfOk, IsOk};
ghost use Rattle.set_core.specs.Reserved.{LeavesRoom};

use crate::put_by::PutBy;
use bucket_cache::simm_rules::Breakdown;
use std::alloc::{AllocError, Global};
use std::marker::Model;
use std::sync::Arc;

/// Where the parts of a margin stand.
#[derive(Drop)]
enum Home {
    /// Once for all that hold them.
    Shared(Arc<Breakdown, Global>),
    /// For one holder alone, in room that was put by.
    Own(Box<Breakdown, Global>),
}

/// A margin with its parts, 512 bytes, which stand once for all that hold it, or where there was
/// no memory for that, in room that was put by. Contracts see the parts.
#[derive(Drop)]
pub struct SharedMargin {
    home: Home,
}

impl Model for SharedMargin {
    ghost use Rattle.bucket_cache.specs.SimmRules.declared.values.Breakdown.{Breakdown};

    ghost Value = { Breakdown };

    ghost use Rattle.set_core.specs.Homes.{parts_in};

    ghost view = { λ margin. parts_in margin.home };
}

impl SharedMargin {
    /// A margin of these parts. For want of memory they stand in room that was put by.
    ///
    /// # Errors
    ///
    /// For want of memory alone, where no room was put by.
    pub(crate) fn make(
        alloc: Global,
        put_by: &mut PutBy,
        parts: Breakdown,
    ) -> Result<SharedMargin, AllocError>
        ensures value { IfOk result (λ margin. margin ≡ parts) }
        ensures room { 0 < put_by.old → IsOk result }
        ensures left { LeavesRoom 1 put_by.old put_by.new result }
    {
        match Arc::new(alloc, parts) {
            Ok(parts) => Ok(SharedMargin::shared(parts)),
            Err(_) => SharedMargin::of_room(put_by, parts),
        }
    }

    /// The same margin for one more holder. Parts that are shared take no memory up to 2^63
    /// holders; all others stand in room that was put by.
    ///
    /// # Errors
    ///
    /// For want of memory alone, where no room was put by.
    pub(crate) fn share(&self, put_by: &mut PutBy) -> Result<SharedMargin, AllocError>
        ensures value { IfOk result (λ margin. margin ≡ self.now) }
        ensures room { 0 < put_by.old → IsOk result }
        ensures left { LeavesRoom 1 put_by.old put_by.new result }
    {
        match &self.home {
            Home::Shared(parts) => match Arc::try_clone(parts) {
                Ok(parts) => Ok(SharedMargin::shared(parts)),
                Err(_) => SharedMargin::of_room(put_by, **parts),
            },
            Home::Own(parts) => SharedMargin::of_room(put_by, **parts),
        }
    }

    /// Lends the parts.
    pub fn parts(&self) -> &Breakdown
        ensures { result.now ≡ self.now }
    {
        match &self.home {
            Home::Shared(parts) => parts,
            Home::Own(parts) => parts,
        }
    }

    fn shared(parts: Arc<Breakdown, Global>) -> SharedMargin
        ensures { result ≡ parts.value }
    {
        SharedMargin {
            home: Home::Shared(parts),
        }
    }

    // A margin of these parts in room that was put by, where there is any.
    fn of_room(put_by: &mut PutBy, parts: Breakdown) -> Result<SharedMargin, AllocError>
        ensures value { IfOk result (λ margin. margin ≡ parts) }
        ensures room { 0 < put_by.old → IsOk result }
        ensures left { LeavesRoom 1 put_by.old put_by.new result }
    {
        match put_by.take(parts) {
            Some(parts) => Ok(SharedMargin {
                home: Home::Own(parts),
            }),
            None => Err(AllocError),
        }
    }
}
