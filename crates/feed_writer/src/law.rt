//! What is written reads back.
ghost use Rattle.std.specs.Prelude.{◌≡◌, ℕ, Bool, List, ◌++◌};
ghost use Rattle.std.specs.List.{AllByRecursion};
ghost use Rattle.crif_reader.specs.SimmKinds.declared.row.TradeRows.{TradeRows};
ghost use Rattle.crif_reader.specs.SimmKinds.Batch.{IsBatch};
ghost use Rattle.crif_writer.specs.Text.{batch_text, HasTradeParts};
ghost use Rattle.feed_reader.specs.MhIo.Lines.{Whole, lines};
ghost use Rattle.feed_reader.specs.Feed.{items_of, feed};
ghost use Rattle.feed_reader.specs.declared.message.Message.{Message};
ghost use Rattle.feed_writer.specs.Conditions.{IsBlock, CanWrite, IsWritable};
ghost use Rattle.feed_writer.specs.ReadsBack.{ReadsBack};

/// Each message of a feed that is written is read, wherever it stands in a feed, as just
/// that message.
pub fn messages_read_back()
    ensures { (m : Message) → CanWrite m → ReadsBack m }
{}

/// The text of each batch is a block that can be written.
pub fn batches_are_blocks()
    ensures { (trades : List TradeRows) → IsBatch trades → AllByRecursion HasTradeParts trades
        → IsBlock (batch_text trades) }
{}

/// Each message that a feed gives can be written, also one of the first lines of a feed alone, as
/// where it breaks off.
pub fn given_messages_can_be_written()
    ensures feeds { (taken : List ℕ) (ended : Bool)
        → AllByRecursion IsWritable (feed taken ended).items }
    ensures fronts { (taken : List ℕ) (ended : Bool) (before behind : List (List ℕ)) →
        (lines taken ended).lines ≡ before ++ behind →
        AllByRecursion IsWritable (items_of 1 0 before Whole).items }
{}
