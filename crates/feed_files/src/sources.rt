//! Feeds as files: found in the order of the words, and handed back in that order.
ghost use Rattle.std.specs.Prelude.{◌≤◌, map, IfOk, IfErr, OnErr};
ghost use Rattle.std.specs.String.{string_bytes};
ghost use Rattle.std.specs.Vec.{vec_len};
ghost use Rattle.command_files.specs.Files.{KeepsCounts};
ghost use Rattle.feed_files.specs.Sources.{FindsAll, TakesAllBack};
ghost use Rattle.feed_files.specs.Unrun.{FeedsFail};

use command_files::{Fault, FileFault, InputFile};
use mh_io::Folder;
use std::alloc::Global;
use std::collections::VecDeque;

/// Finds the feeds of these names in their order.
///
/// # Errors
///
/// A feed isn't there, or memory ran out. Those that were found are handed back.
pub fn find_feeds<'a, F: Folder>(
    alloc: Global,
    folder: &mut F,
    names: &'a [String],
) -> Result<Vec<F::Src>, Fault<'a>>
    ensures found { IfOk result (λ sources. FindsAll (F.seen folder.old) (F.seen folder.new)
        (map string_bytes names.now) (map F.Src.seen sources.items)) }
    ensures counts { OnErr result (KeepsCounts (F.seen folder.old) (F.seen folder.new)) }
    ensures fails { IfErr result
        (FeedsFail (map string_bytes names.now) (F.seen folder.old) (F.seen folder.new)) }
{
    let Ok(mut sources) = Vec::with_capacity(alloc, names.len()) else {
        return Err(Fault::Memory);
    };
    for name in names {
        match folder.find(alloc, name.as_str()) {
            Ok(source) => sources.push_reserved(source),
            Err(refused) => {
                take_all_back(folder, sources);
                return Err(Fault::OfFile {
                    file: InputFile::Feed,
                    name: name.as_str(),
                    why: FileFault::from(refused),
                });
            }
        }
    }
    Ok(sources)
}

/// Hands sources back in their order.
pub fn take_all_back<F: Folder>(folder: &mut F, sources: Vec<F::Src>)
    requires { vec_len sources ≤ (F.seen folder.old).due }
    ensures { TakesAllBack (F.seen folder.old) (F.seen folder.new) (map F.Src.seen sources.items) }
{
    let mut waiting = VecDeque::from_vec(sources);
    while let Some(source) = waiting.pop_front() {
        folder.done(source);
    }
}
