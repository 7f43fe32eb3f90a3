ghost use Rattle.std.specs.Prelude.{◌≡◌, None};

use crate::folder::{FindRefused, Folder};
use crate::sink::Sink;
use crate::source::{Failed, Source};
use std::alloc::Global;
use std::fs;
use std::io::{Read, Write};
use std::marker::Model;
use std::rt::Files;

/// A source over a reader, as an open file. It tells nothing of its bytes.
#[derive(Drop)]
pub struct RealSource<R: Read> {
    reader: R,
    faults: u64,
}

impl<R: Read> Model for RealSource<R> {
    ghost use Rattle.std.specs.Prelude.{ℕ};
    ghost use Rattle.mh_io.specs.Faults.{IsCount};

    /// How many faults it met.
    ghost Value = { ℕ };

    ghost view = { λ s. s.faults };

    ghost invariant = { λ s. IsCount s.faults };
}

impl<R: Read> RealSource<R> {
    /// A source over this reader that met no fault.
    pub fn new(reader: R) -> Self
        ensures { result ≡ 0 }
    {
        RealSource { reader, faults: 0 }
    }
}

impl<R: Read + Drop> Source for RealSource<R> {
    ghost use Rattle.std.specs.Prelude.{None};

    ghost seen = { λ s. record { faults = s; name = None; gave = None; left = None } };

    fn take(&mut self, buf: &mut [u8]) -> Result<usize, Failed> {
        match self.reader.read(buf) {
            Ok(taken) => Ok(taken),
            Err(_) => {
                self.faults = self.faults.saturating_add(1);
                Err(Failed)
            }
        }
    }
}

/// A sink over a writer, as standard output. It tells nothing of its bytes.
#[derive(Drop)]
pub struct RealSink<W: Write> {
    writer: W,
    faults: u64,
}

impl<W: Write> Model for RealSink<W> {
    ghost use Rattle.std.specs.Prelude.{ℕ};
    ghost use Rattle.mh_io.specs.Faults.{IsCount};

    /// How many faults it met.
    ghost Value = { ℕ };

    ghost view = { λ s. s.faults };

    ghost invariant = { λ s. IsCount s.faults };
}

impl<W: Write> RealSink<W> {
    /// A sink over this writer, which should hold nothing back, that met no fault.
    pub fn new(writer: W) -> Self
        ensures { result ≡ 0 }
    {
        RealSink { writer, faults: 0 }
    }
}

impl<W: Write> Sink for RealSink<W> {
    ghost use Rattle.std.specs.Prelude.{None};

    ghost seen = { λ s. record { faults = s; holds = None } };

    fn put(&mut self, bytes: &[u8]) -> Result<usize, Failed> {
        match self.writer.write(bytes) {
            Ok(taken) if taken > 0 || bytes.is_empty() => Ok(taken),
            _ => {
                self.faults = self.faults.saturating_add(1);
                Err(Failed)
            }
        }
    }
}

/// The files of the file system, found by their paths. It tells nothing of them.
#[derive(Drop)]
pub struct RealFolder<R: Files> {
    runtime: R,
    find_faults: u64,
    read_faults: u64,
    due: u64,
}

impl<R: Files> Model for RealFolder<R> {
    ghost use Rattle.std.specs.Prelude.{None};
    ghost use Rattle.mh_io.specs.Faults.{IsCount};
    ghost use Rattle.mh_io.specs.Folder.{FolderSeen};

    /// All that is seen of it.
    ghost Value = { FolderSeen };

    ghost view = { λ f. record {
      told = None;
      find_faults = f.find_faults;
      read_faults = f.read_faults;
      due = f.due;
    } };

    ghost invariant = { λ f. IsCount f.find_faults × IsCount f.read_faults };
}

impl<R: Files> RealFolder<R> {
    /// The files that this runtime reaches.
    pub fn new(runtime: R) -> Self
        ensures { result ≡ record { told = None; find_faults = 0; read_faults = 0; due = 0 } }
    {
        RealFolder {
            runtime,
            find_faults: 0,
            read_faults: 0,
            due: 0,
        }
    }
}

impl<R: Files> Folder for RealFolder<R>
where
    R::File: Send,
{
    type Src = RealSource<R::File>;

    ghost seen = { λ f. f };

    /// Opens the file of this path. It fails too where 2^64 - 1 sources are due.
    fn find(&mut self, _alloc: Global, name: &str) -> Result<RealSource<R::File>, FindRefused> {
        match fs::open(&self.runtime, name) {
            Ok(file) if self.due < u64::MAX => {
                self.due += 1;
                Ok(RealSource::new(file))
            }
            _ => {
                self.find_faults = self.find_faults.saturating_add(1);
                Err(FindRefused::Failed)
            }
        }
    }

    /// Closes the source.
    fn done(&mut self, source: RealSource<R::File>) {
        self.read_faults = self.read_faults.saturating_add(source.faults);
        self.due -= 1;
    }
}
