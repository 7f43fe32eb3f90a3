//! How feeds ended, as a status of their command.
ghost use Rattle.std.specs.Prelude.{◌≡◌};
ghost use Rattle.feed_files.specs.Ends.{status_of_end};

use command_files::Status;
use feed_runs::FeedEnd;

/// The status of a feed's end.
pub fn status_of_end(end: FeedEnd) -> Status
    ensures { result ≡ status_of_end end }
{
    match end {
        FeedEnd::End => Status::Done,
        FeedEnd::Cut { .. } | FeedEnd::LineLong { .. } | FeedEnd::TooLong { .. } => Status::Feed,
        FeedEnd::ReadFault => Status::Read,
        FeedEnd::Memory { .. } => Status::Memory,
    }
}
