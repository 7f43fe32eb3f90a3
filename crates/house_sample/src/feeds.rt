//! The bytes of a feed.
ghost use Rattle.std.specs.Prelude.{◌≡◌, ◌<◌, [], ◌∷◌, ◌++◌, codes, true, IfOk, OnOk};
ghost use Rattle.feed_reader.specs.Feed.{Whole, feed};
ghost use Rattle.house_sample.specs.Feeds.{messages_of};

use crate::agreements::set_name;
use crate::draws::Draws;
use crate::trades::draw_batch;
use crif_writer::write_batch;
use simm_params::mh_units::Bytes;
use std::alloc::{AllocError, Global};

/// How many batches a feed has.
const BATCHES: u32 = 50;

/// Adds a batch as a block of the set of this name, and behind it a question to the set.
fn push_messages(text: &mut Bytes, set: &[u8], block: &[u8]) -> Result<(), AllocError>
    ensures { OnOk result (text.new ≡ text.old ++ ((codes "CRIF\t" ++ set.now)
        ++ (10 ∷ (block.now ++ (codes "END\nASK\t" ++ (set.now ++ 10 ∷ [])))))) }
{
    text.extend(b"CRIF\t")?;
    text.extend(set)?;
    text.push(b'\n')?;
    text.extend(block)?;
    text.extend(b"END\nASK\t")?;
    text.extend(set)?;
    text.push(b'\n')
}

/// The bytes of the feed of this number, which is below 32: fifty drawn batches, in turn for the
/// first and the second set, and behind each a question to its set.
///
/// # Errors
///
/// For want of memory alone.
pub fn sample_feed(alloc: Global, seed: u32, number: u32) -> Result<Bytes, AllocError>
    requires { number < 32 }
    ensures { IfOk result (λ bytes.
        feed bytes true ≡ record { items = messages_of seed number; stop = Whole }) }
{
    let mut draws = Draws::new(seed, number);
    let mut text = Bytes::new(alloc);
    for batch in 0..BATCHES {
        let trades = draw_batch(alloc, &mut draws, number, batch)?;
        let block = write_batch(alloc, &trades)?;
        push_messages(&mut text, set_name(batch % 2), block.as_slice())?;
    }
    Ok(text)
}
