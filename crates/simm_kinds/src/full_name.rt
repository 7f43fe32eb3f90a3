ghost use Rattle.std.specs.Prelude.{◌≡◌, true, IfOk, if◌then◌else◌, ◌==◌, length};
ghost use Rattle.simm_kinds.specs.NameText.{is_full_name};

use crate::Name;
use std::alloc::{AllocError, Global};
use std::marker::Model;

/// A name that isn't empty: of an issuer, an index, a commodity. Full names are equal, ordered and
/// hashed by their bytes; contracts see just these.
#[derive(Drop, PartialEq, Eq, PartialOrd, Ord, Hash)]
pub struct FullName {
    name: Name,
}

impl Model for FullName {
    ghost use Rattle.std.specs.Prelude.{◌≡◌, List, ℕ, true};
    ghost use Rattle.simm_kinds.specs.NameText.{is_full_name};

    ghost Value = { List ℕ };

    ghost view = { λ n. n.name };

    ghost invariant = { λ n. is_full_name n.name ≡ true };

    ghost inverse = { λ bytes. record { name = bytes } };
}

impl FullName {
    /// This name, or `None` where it is empty. It takes no memory.
    pub fn new(name: Name) -> Option<FullName>
        ensures { result ≡ (if length name == 0 then None else Some name) }
    {
        if name.bytes().is_empty() {
            None
        } else {
            Some(FullName { name })
        }
    }

    /// The name of these bytes, which the caller knows to be one that isn't empty. The only error
    /// is want of memory.
    pub fn of_bytes(alloc: Global, bytes: &[u8]) -> Result<FullName, AllocError>
        requires { is_full_name bytes.now ≡ true }
        ensures { IfOk result (λ name. name ≡ bytes.now) }
    {
        let name = Name::of_bytes(alloc, bytes)?;
        Ok(FullName { name })
    }

    /// An equal name. The only error is want of memory.
    pub fn copy(&self, alloc: Global) -> Result<FullName, AllocError>
        ensures { IfOk result (λ copy. copy ≡ self.now) }
    {
        let name = self.name.copy(alloc)?;
        Ok(FullName { name })
    }

    /// Lends the bytes. It takes no memory.
    pub fn bytes(&self) -> &[u8]
        ensures value { result.now ≡ self.now }
        ensures name { is_full_name self.now ≡ true }
    {
        self.name.bytes()
    }

    /// Lends it as a name. It takes no memory.
    pub fn name(&self) -> &Name
        ensures { result.now ≡ self.now }
    {
        &self.name
    }
}
