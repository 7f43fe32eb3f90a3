//! The paths of values in the tables of a set's terms.
ghost use Rattle.std.specs.Prelude.{◌≡◌};
ghost use Rattle.toml_values.specs.Paths.{path_of};
ghost use Rattle.csa_terms.specs.declared.terms_path.TermsTable.TheVariants.{Own, Post};
ghost use Rattle.csa_terms.specs.Paths.{key_path, class_path};

use toml_values::Part;

/// A table with values of a set's terms. Sets are counted from 1.
#[derive(Clone, Copy)]
pub enum TermsTable {
    /// The set's own, as `set.2`.
    Own(usize),
    /// That of what it posts by, as `set.2.post`.
    Post(usize),
}

/// The path of a key of a set's own table.
#[tactic(auto, unfolding(crate::specs::Paths::key_path))]
pub fn own_key(set: usize, key: &str) -> [Part<'_>; 3]
    ensures { path_of result ≡ key_path (Own set) key.now }
{
    [Part::Key("set"), Part::Place(set), Part::Key(key)]
}

/// The path of a key of the table of what a set posts by.
#[tactic(auto, unfolding(crate::specs::Paths::key_path))]
pub fn post_key(set: usize, key: &str) -> [Part<'_>; 4]
    ensures { path_of result ≡ key_path (Post set) key.now }
{
    [
        Part::Key("set"),
        Part::Place(set),
        Part::Key("post"),
        Part::Key(key),
    ]
}

/// The path of a class of a set's own haircuts.
#[tactic(auto, unfolding(crate::specs::Paths::class_path))]
pub fn own_class(set: usize, class: &str) -> [Part<'_>; 4]
    ensures { path_of result ≡ class_path (Own set) class.now }
{
    [
        Part::Key("set"),
        Part::Place(set),
        Part::Key("haircuts"),
        Part::Key(class),
    ]
}

/// The path of a class of the haircuts that a set posts by.
#[tactic(auto, unfolding(crate::specs::Paths::class_path))]
pub fn post_class(set: usize, class: &str) -> [Part<'_>; 5]
    ensures { path_of result ≡ class_path (Post set) class.now }
{
    [
        Part::Key("set"),
        Part::Place(set),
        Part::Key("post"),
        Part::Key("haircuts"),
        Part::Key(class),
    ]
}
