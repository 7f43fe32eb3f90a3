ghost use Rattle.std.specs.Prelude.{◌≡◌, ◌<◌, ◌≤◌, [], Some, Err};
ghost use Rattle.std.specs.Prelude.{false, true, option_map, IfOk, OnOk, OnErr};
ghost use Rattle.std.specs.Vec.{vec_len, vec_capacity};
ghost use Rattle.mh_io.specs.Folder.{Finds, TakesBack};
ghost use Rattle.mh_io.specs.Memory.{uncalled, with_file, files_but, opened, named_file};
ghost use Rattle.mh_io.specs.Memory.{find_fails, after_find, after_done, source_seen, folder_seen};

use crate::calls::Calls;
use crate::folder::{FindRefused, Folder};
use crate::mem_file::MemFile;
use crate::mem_source::MemSource;
use mh_units::{Bytes, Text};
use std::alloc::{AllocError, Global};
use std::marker::Model;

/// A folder over memory, for tests: its finds and the takings of its sources fail at the calls
/// that were told to fail.
///
/// It tells its files, the names that it was asked for, and what was read.
#[derive(Drop)]
pub struct MemFolder {
    files: Vec<MemFile>,
    asked: Vec<Text>,
    /// The sources that came back, with room for those that are due.
    reads: Vec<MemSource>,
    calls: Calls,
    read_faults: u64,
    due: usize,
}

impl Model for MemFolder {
    ghost use Rattle.std.specs.Prelude.{◌+◌, ◌≤◌, map};
    ghost use Rattle.std.specs.Vec.{vec_len, vec_capacity};
    ghost use Rattle.mh_io.specs.Faults.{IsCount};
    ghost use Rattle.mh_io.specs.Memory.{MemoryFolder, reading_of};

    ghost Value = { MemoryFolder };

    ghost view = { λ f. record {
      files = f.files.items;
      asked = f.asked.items;
      reads = map reading_of f.reads.items;
      calls = f.calls;
      read_faults = f.read_faults;
      due = f.due;
    } };

    ghost invariant = { λ f. (vec_len f.reads + f.due ≤ vec_capacity f.reads)
        × IsCount f.calls.faults × IsCount f.read_faults };
}

impl MemFolder {
    /// A folder with no files. `failing` holds the numbers of the finds that are to fail; the
    /// first find is number 1.
    pub fn new(failing: Vec<u64>) -> Self
        ensures { result ≡ record {
          files = [];
          asked = [];
          reads = [];
          calls = uncalled failing.items;
          read_faults = 0;
          due = 0;
        } }
    {
        let alloc = *failing.allocator();
        MemFolder {
            files: Vec::new(alloc),
            asked: Vec::new(alloc),
            reads: Vec::new(alloc),
            calls: Calls::new(failing),
            read_faults: 0,
            due: 0,
        }
    }

    /// Adds a file, or replaces the one of this name. Its sources give at most `most` bytes at one
    /// call, and fail at the calls whose numbers are in `failing`; the first call is number 1. For
    /// want of memory nothing changes.
    pub fn add(
        &mut self,
        alloc: Global,
        name: &str,
        bytes: Bytes,
        most: usize,
        failing: Vec<u64>,
    ) -> Result<(), AllocError>
        requires { 0 < most }
        ensures ok { OnOk result (self.new ≡ record self.old {
          files
              = with_file (record {
                name = name.now;
                bytes = bytes;
                most = most;
                failing = failing.items;
              }) self.old.files;
        }) }
        ensures err { OnErr result (self.new ≡ self.old) }
    {
        // What wants memory comes first, so that nothing has changed where there is none.
        let kept_name = Text::from_slice(alloc, name.as_bytes())?;
        let file = MemFile::new(kept_name, bytes, most, failing);
        self.files.reserve(1)?;
        drop_named(&mut self.files, name);
        self.files.insert(0, file).unwrap();
        Ok(())
    }

    /// A source of the file of this name, if there is one.
    fn open(&self, alloc: Global, name: &str) -> Result<Option<MemSource>, AllocError>
        ensures { IfOk result (λ source.
            source ≡ option_map opened (named_file self.now name.now)) }
    {
        match self.files.iter().find(|file| file.is_named(name)) {
            Some(file) => Ok(Some(file.open(alloc)?)),
            None => Ok(None),
        }
    }
}

/// Drops the files of this name.
fn drop_named(files: &mut Vec<MemFile>, name: &str)
    ensures others { files.new.items ≡ files_but name.now files.old.items }
    ensures len { vec_len files.new ≤ vec_len files.old }
    ensures capacity { vec_capacity files.new ≡ vec_capacity files.old }
{
    files.retain(|file| !file.is_named(name));
}

impl Folder for MemFolder {
    ghost use Rattle.mh_io.specs.Memory.{folder_seen};

    type Src = MemSource;

    ghost seen = { folder_seen };

    /// It fails exactly at the finds that are to fail and at names that aren't there.
    fn find(&mut self, alloc: Global, name: &str) -> Result<MemSource, FindRefused>
        ensures finds { Finds source_seen (folder_seen self.old)
            (folder_seen self.new) name.now result }
        ensures opens { IfOk result (λ source.
            option_map opened (named_file self.old name.now) ≡ Some source) }
        ensures works { OnOk result (find_fails self.old name.now ≡ false) }
        ensures fails { result ≡ Err FindRefused.Failed → find_fails self.old name.now ≡ true }
        ensures after { self.new ≡ after_find result name.now self.old }
    {
        // What wants memory comes first, so that nothing has changed where there is none.
        let found = self.open(alloc, name)?;
        let asked = Text::from_slice(alloc, name.as_bytes())?;
        self.reads.reserve(self.due + 1)?;
        self.asked.push(asked).map_err(AllocError::from)?;
        if self.calls.next_fails() {
            return Err(FindRefused::Failed);
        }
        match found {
            Some(source) => {
                self.due += 1;
                Ok(source)
            }
            None => {
                self.calls.count_fault();
                Err(FindRefused::Failed)
            }
        }
    }

    fn done(&mut self, source: MemSource)
        requires { 0 < self.old.due }
        ensures takes_back { TakesBack (folder_seen self.old)
            (folder_seen self.new) (source_seen source) }
        ensures after { self.new ≡ after_done source self.old }
    {
        self.read_faults = self.read_faults.saturating_add(source.faults());
        self.due -= 1;
        self.reads.push(source).unwrap();
    }
}
