ghost use Rattle.std.specs.Prelude.{◌≡◌, ℕ, Bool, ◌≤◌, List, length, true, Ok};
ghost use Rattle.std.specs.List.{AllByRecursion};
ghost use Rattle.mh_io.specs.Limits.{most_bytes};
ghost use Rattle.feed_reader.specs.declared.message.Message.{Message};
ghost use Rattle.feed_events.specs.SetCore.declared.event.Event.{Event};
ghost use Rattle.feed_events.specs.Events.{event_of, set_of};
ghost use Rattle.feed_writer.specs.Conditions.{CanWrite};
ghost use Rattle.audit_file.specs.Rules.{Base};
ghost use Rattle.audit_file.specs.Verdict.{verdict};
ghost use Rattle.audit_file.specs.Told.{told, AreAllSets};
ghost use Rattle.audit_file.specs.Written.{
  Journal,
  CanAudit,
  HoldsEvent,
  file_text,
  names_of,
  all_entries,
  message_of,
};
ghost use Rattle.audit_file.specs.Replays.{rule_of, AreJournals, TellsLegal};

use crate::answer::Verdict;

/// The audit text of legal journals, one for each set, is answered Yes where it isn't too long.
pub fn legal_texts_are_answered_yes()
    ensures { (base : Base) (js : List Journal) →
        AllByRecursion CanAudit js → AreJournals base js → length (file_text js) ≤ most_bytes →
        verdict (rule_of base) (names_of js) (file_text js) true
        ≡ Ok (Verdict.Yes (length js) (all_entries js)) }
{}

/// Where the answer is Yes, each set is told, in order: the events of the file with the replies of
/// the written rule are legal journals, and each reply line is that of its reply.
pub fn yes_means_legal()
    ensures legal { (base : Base) (names : List (List ℕ)) (taken : List ℕ)
        (ended : Bool) (sets entries : ℕ) →
        verdict (rule_of base) names taken ended ≡ Ok (Verdict.Yes sets entries) →
        TellsLegal base (told names taken ended) }
    ensures sets { (base : Base) (names : List (List ℕ)) (taken : List ℕ)
        (ended : Bool) (sets entries : ℕ) →
        verdict (rule_of base) names taken ended ≡ Ok (Verdict.Yes sets entries) →
        AreAllSets (length names) 0 (told names taken ended) }
{}

/// The event of a message can be told: it is such as a message of a feed gives, and where the
/// message can be written, so can the one in which an audit text tells the event.
pub fn events_can_be_told()
    ensures holds { (m : Message) (e : Event) → event_of m ≡ Ok e → HoldsEvent e }
    ensures writes { (m : Message) (e : Event) → CanWrite m → event_of m ≡ Ok e
        → CanWrite (message_of (set_of m) e) }
{}
