ghost use Rattle.std.specs.Prelude.{◌≡◌, ◌<◌, IfOk};
ghost use Rattle.mh_io.specs.Memory.{is_named, opened};

use crate::mem_source::MemSource;
use mh_units::{Bytes, Text};
use std::alloc::{AllocError, Global};
use std::marker::Model;

/// A file of a folder over memory.
#[derive(Drop)]
pub(crate) struct MemFile {
    name: Text,
    bytes: Bytes,
    most: usize,
    failing: Vec<u64>,
}

impl Model for MemFile {
    ghost use Rattle.std.specs.Prelude.{◌<◌};
    ghost use Rattle.mh_io.specs.Memory.{MemoryFile};

    ghost Value = { MemoryFile };

    ghost view = { λ f.
        record { name = f.name; bytes = f.bytes; most = f.most; failing = f.failing.items } };

    ghost invariant = { λ f. 0 < f.most };
}

impl MemFile {
    /// A file of these bytes, whose sources give at most `most` of them at one call, and fail at
    /// these calls.
    pub(crate) fn new(name: Text, bytes: Bytes, most: usize, failing: Vec<u64>) -> Self
        requires { 0 < most }
        ensures { result
            ≡ record { name = name; bytes = bytes; most = most; failing = failing.items } }
    {
        MemFile {
            name,
            bytes,
            most,
            failing,
        }
    }

    /// Whether this is its name.
    pub(crate) fn is_named(&self, name: &str) -> bool
        ensures { result ≡ is_named name.now self.now }
    {
        self.name.as_slice() == name.as_bytes()
    }

    /// A source of the file, over a copy of its bytes.
    pub(crate) fn open(&self, alloc: Global) -> Result<MemSource, AllocError>
        ensures { IfOk result (λ source. source ≡ opened self.now) }
    {
        let name = Text::from_slice(alloc, self.name.as_slice())?;
        let bytes = Bytes::from_slice(alloc, self.bytes.as_slice())?;
        let failing = Vec::from_slice(alloc, self.failing.as_slice())?;
        Ok(MemSource::named(name, bytes, self.most, failing))
    }
}
