ghost use Rattle.std.specs.Prelude.{◌≡◌, ◌&&◌, ◌==◌, nat_le, [], ◌∷◌, IfOk};
ghost use Rattle.std.proofs.Common.{rules};
ghost use Rattle.std.specs.Cmp.{partial_order_from_own_ties};
ghost use Rattle.std.specs.Cmp.Rules.{comparing, hashing};
ghost use Rattle.std.specs.Cmp.Lexicographic.{slice_cmp, pointwise};
ghost use Rattle.std.specs.Ordering.{nat_cmp, as_partial_cmp};
ghost use Rattle.std.specs.List.{list_all};
ghost use Rattle.std.specs.Str.{is_utf8};
ghost use Rattle.simm_kinds.specs.NameText.{IsName, ReadsName};
ghost use Rattle.simm_kinds.specs.NameText.{name_fault, is_full_name, is_printable, is_trimmed};

use crate::NameFault;
use smallvec::SmallVec;
use std::alloc::{AllocError, Global};
use std::cmp::Ordering;
use std::hash::{Hash, Hasher};
use std::marker::Model;

/// A name in a file: at most 64 bytes of UTF-8, no control byte, no space at either end. It may be
/// empty unless a rule says otherwise. Names are equal, ordered and hashed by their bytes;
/// contracts see just these.
#[derive(Drop)]
pub struct Name {
    bytes: SmallVec<u8, INLINE>,
}

impl Model for Name {
    ghost use Rattle.std.specs.Prelude.{List, ℕ};
    ghost use Rattle.simm_kinds.specs.NameText.{IsName};

    ghost Value = { List ℕ };

    ghost view = { λ n. n.bytes.items };

    ghost invariant = { λ n. IsName n.bytes.items };
}

/// A name of at most so many bytes takes no memory beside itself. Most are as short.
const INLINE: usize = 16;

/// How many bytes a name has at most.
const LONGEST: usize = 64;

fn is_printable(byte: u8) -> bool
    ensures { result ≡ is_printable byte }
{
    !byte.is_ascii_control()
}

fn are_printable(bytes: &[u8]) -> bool
    ensures { result ≡ list_all is_printable bytes.now }
{
    bytes.iter().all(|byte| is_printable(*byte))
}

/// Whether no space stands at either end.
fn is_trimmed(bytes: &[u8]) -> bool
    ensures { result ≡ is_trimmed bytes.now }
{
    bytes.first() != Some(&b' ') && bytes.last() != Some(&b' ')
}

fn is_utf8(bytes: &[u8]) -> bool
    ensures { result ≡ is_utf8 bytes.now }
{
    std::str::from_utf8(bytes).is_ok()
}

/// Whether each byte is a printable one of ASCII, as in most names.
fn are_plain(bytes: &[u8]) -> bool
    ensures { result ≡ list_all (λ byte. nat_le 32 byte && nat_le byte 126) bytes.now }
{
    bytes.iter().all(|byte| (b' '..=b'~').contains(byte))
}

/// Whether the bytes are UTF-8 text that prints. Plain ones are, and need not be decoded.
fn is_printable_text(bytes: &[u8]) -> bool
    ensures { result ≡ (is_utf8 bytes.now && list_all is_printable bytes.now) }
{
    are_plain(bytes) || is_utf8(bytes) && are_printable(bytes)
}

impl Name {
    /// Why a text is no name: the first fault in the order of `NameFault`, or `None` for a name.
    /// It takes no memory.
    pub fn fault(text: &[u8]) -> Option<NameFault>
        ensures { result ≡ name_fault text.now }
    {
        if text.len() > LONGEST {
            Some(NameFault::Long)
        } else if is_printable_text(text) && is_trimmed(text) {
            None
        } else {
            Some(NameFault::Byte)
        }
    }

    /// Whether a text is a name that isn't empty. It takes no memory.
    pub fn is_full_name(text: &[u8]) -> bool
        ensures { result ≡ is_full_name text.now }
    {
        !text.is_empty() && Name::fault(text).is_none()
    }

    /// Reads a name. Where the text is none, the fault is the first in the order of `NameFault`;
    /// `Memory` comes last.
    pub fn read(alloc: Global, text: &[u8]) -> Result<Name, NameFault>
        ensures { ReadsName text.now result }
    {
        match Name::fault(text) {
            Some(fault) => Err(fault),
            None => Ok(Name::of_bytes(alloc, text)?),
        }
    }

    /// The name of these bytes, which the caller knows to be one. The only error is want of memory.
    pub fn of_bytes(alloc: Global, bytes: &[u8]) -> Result<Name, AllocError>
        requires { IsName bytes.now }
        ensures { IfOk result (λ name. name ≡ bytes.now) }
    {
        let bytes = SmallVec::from_slice(alloc, bytes)?;
        Ok(Name { bytes })
    }

    /// The empty name. It takes no memory.
    pub fn empty(alloc: Global) -> Name
        ensures { result ≡ [] }
    {
        Name {
            bytes: SmallVec::new(alloc),
        }
    }

    /// An equal name. The only error is want of memory.
    pub fn copy(&self, alloc: Global) -> Result<Name, AllocError>
        ensures { IfOk result (λ copy. copy ≡ self.now) }
    {
        Name::of_bytes(alloc, self.bytes.as_slice())
    }

    /// Lends the bytes. It takes no memory.
    pub fn bytes(&self) -> &[u8]
        ensures value { result.now ≡ self.now }
        ensures name { IsName self.now }
    {
        self.bytes.as_slice()
    }
}

impl PartialEq for Name {
    ghost eq = { pointwise ◌==◌ };

    ghost laws = { Prim.search (comparing, rules) };

    fn eq(&self, other: &Name) -> bool {
        self.bytes == other.bytes
    }
}

impl Eq for Name {
    ghost laws = { Prim.search (comparing, rules) };
}

impl Hash for Name {
    ghost hash_input = { λ bytes. bytes ∷ [] };

    ghost respects_eq = { Prim.search (hashing, rules) };

    // The bytes in one write, which costs a hasher less than one a byte.
    fn hash<H: Hasher>(&self, state: &mut H) {
        state.write(self.bytes.as_slice());
    }
}

impl Ord for Name {
    ghost cmp = { slice_cmp nat_cmp };

    ghost total = { Prim.search (comparing, rules) };

    ghost matches_partial_cmp = { Prim.search (comparing, rules) };

    ghost matches_eq = { Prim.search (comparing, rules) };

    fn cmp(&self, other: &Name) -> Ordering {
        // Few bytes, and often the same ones first: one by one is quicker than by groups.
        self.bytes
            .as_slice()
            .iter()
            .cmp(other.bytes.as_slice().iter())
    }
}

impl PartialOrd for Name {
    ghost partial_cmp = { as_partial_cmp (slice_cmp nat_cmp) };

    ghost laws = { partial_order_from_own_ties (Prim.search (comparing, rules))
        (Prim.search (comparing, rules)) };

    fn partial_cmp(&self, other: &Name) -> Option<Ordering> {
        Some(self.cmp(other))
    }
}
