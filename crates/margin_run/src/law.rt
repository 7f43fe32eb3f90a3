//! What the audit texts of a run are worth.
ghost use Rattle.std.specs.Prelude.{ℕ, List, length, ◌≤◌};
ghost use Rattle.mh_io.specs.Folder.{FolderSeen};
ghost use Rattle.feed_gate.specs.SetCore.Set.{Set};
ghost use Rattle.feed_gate.specs.declared.report.FeedReport.{FeedReport};
ghost use Rattle.margin_run.specs.Audits.{CanBeVerified};
ghost use Rattle.margin_run.specs.Run.{HasRun};

use audit_file::{events_can_be_told, legal_texts_are_answered_yes};
use feed_writer::given_messages_can_be_written;

/// The audit texts of the sets that a run leaves are verified, where they aren't too long.
pub(crate) fn runs_can_be_verified()
    ensures { (params_name terms_name : List ℕ) (feed_names : List (List ℕ)) (old new : FolderSeen)
        (sets : List Set) (reports : List FeedReport)
        (run : HasRun params_name terms_name feed_names old new sets reports) →
        length feed_names ≤ 1024 → CanBeVerified run.p run.agreements sets }
{
    given_messages_can_be_written();
    events_can_be_told();
    legal_texts_are_answered_yes();
}
