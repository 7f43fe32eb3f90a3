//! Texts that are put out one after another.
ghost use Rattle.std.specs.Prelude.{◌≤◌};
ghost use Rattle.std.specs.List.{flat_map};
ghost use Rattle.command_files.specs.Texts.{TextGoes};

use mh_io::{Sink, put_all};
use mh_units::Text;

/// How the text of a command went out.
#[derive(Clone, Copy)]
pub enum Printed {
    /// All of it did.
    Whole,
    /// A front of it did, and then the sink failed.
    Cut,
}

/// Puts texts out, one after another. It takes no memory.
pub fn put_texts<K: Sink>(out: &mut K, texts: &[Text]) -> Printed
    ensures count { (K.seen out.old).faults ≤ (K.seen out.new).faults }
    ensures goes { TextGoes (flat_map (λ t. t) texts.now) (K.seen out.old) (K.seen out.new) result }
{
    for text in texts {
        if put_all(out, text.as_slice()).is_err() {
            return Printed::Cut;
        }
    }
    Printed::Whole
}
