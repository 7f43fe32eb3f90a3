ghost use Rattle.std.specs.Prelude.{◌≡◌, IfOk};
ghost use Rattle.csa_terms.specs.Terms.{Agreement, IsOneSet, IsAgreement};

use crate::set_terms::SetTerms;
use std::alloc::{AllocError, Global};
use std::marker::Model;
use toml_values::simm_kinds::Name;

/// The terms of one netting set: those by which it collects margin, and those by which it posts.
/// The name, the notification minute and the holidays are the same in both. Contracts see the
/// plain record.
#[derive(Drop)]
pub struct BothTerms {
    collect: SetTerms,
    post: SetTerms,
}

impl Model for BothTerms {
    ghost use Rattle.csa_terms.specs.Terms.{Agreements, IsOneSet};

    ghost Value = { Agreements };

    ghost view = { λ t. record { collect = t.collect; post = t.post } };

    ghost invariant = { λ t. IsOneSet t.collect t.post };
}

impl BothTerms {
    /// These terms of one set.
    pub fn new(collect: SetTerms, post: SetTerms) -> BothTerms
        requires { IsOneSet collect post }
        ensures { result ≡ record { collect = collect; post = post } }
    {
        BothTerms { collect, post }
    }

    /// What both keep. It does nothing.
    pub fn facts(&self)
        ensures set { IsOneSet self.now.collect self.now.post }
        ensures collect { IsAgreement self.now.collect }
        ensures post { IsAgreement self.now.post }
    {
        self.collect.facts();
        self.post.facts();
    }

    /// Equal terms once more. The only error is want of memory.
    pub fn copy(&self, alloc: Global) -> Result<BothTerms, AllocError>
        ensures { IfOk result (λ t. t ≡ self.now) }
    {
        Ok(BothTerms {
            collect: self.collect.copy(alloc)?,
            post: self.post.copy(alloc)?,
        })
    }

    /// Lends the name of the netting set; it isn't empty.
    pub fn name(&self) -> &Name
        ensures { result.now ≡ self.now.collect.name }
    {
        self.collect.name()
    }

    /// Lends the terms by which the set collects margin.
    pub fn collect(&self) -> &SetTerms
        ensures { result.now ≡ self.now.collect }
    {
        &self.collect
    }

    /// Lends the terms by which it posts.
    pub fn post(&self) -> &SetTerms
        ensures { result.now ≡ self.now.post }
    {
        &self.post
    }

    /// The terms by which the set collects margin, and those by which it posts.
    pub fn into_sides(self) -> (SetTerms, SetTerms)
        ensures { result ≡ (self.collect, self.post) }
    {
        (self.collect, self.post)
    }
}
