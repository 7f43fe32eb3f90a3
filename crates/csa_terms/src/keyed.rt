ghost use Rattle.std.specs.Prelude.{◌≡◌, ◌<◌, ◌≤◌, length, IfOk, OnOk};
ghost use Rattle.toml.specs.Data.{get_member};
ghost use Rattle.toml.specs.View.{items_view, table_view};
ghost use Rattle.toml_values.specs.Answers.{Gives};
ghost use Rattle.toml_values.specs.Values.{array_of, table_of, rate_of};
ghost use Rattle.csa_terms.specs.Ranges.{IsWithin, shares};
ghost use Rattle.csa_terms.specs.Faults.{Gives as GivesTerms};
ghost use Rattle.csa_terms.specs.Values.{set_name_of, minute_of};
ghost use Rattle.csa_terms.specs.declared.terms_path.TermsTable.TheVariants.{Own};
ghost use Rattle.csa_terms.specs.Paths.{key_path};
ghost use Rattle.csa_terms.specs.Grammar.{at_most, money_at};

use crate::fault::TermsFault;
use crate::range::SHARE;
use crate::terms_path::{TermsTable, own_key, post_key};
use crate::value::{minute, set_name};
use std::alloc::{AllocError, Global};
use toml::{Table, Value};
use toml_values::mh_units::{Cents, Rate4, Text};
use toml_values::simm_kinds::Name;
use toml_values::{Range, ValueFault, array, member, money, path_text, rate, table as table_in};

/// A name that isn't empty, at a key of a set's table.
pub fn name_at(alloc: Global, set: usize, terms: &Table, key: &str) -> Result<Name, TermsFault>
    ensures value { GivesTerms (λ n. n) result
        (set_name_of (key_path (Own set) key.now) (get_member key.now (table_view terms.now))) }
    ensures named { IfOk result (λ n. 0 < length n) }
{
    set_name(alloc, &own_key(set, key), member(terms, key))
}

/// An amount of money in the range, at a key of a set's table.
pub fn money_at(
    alloc: Global,
    table: TermsTable,
    terms: &Table,
    key: &str,
    range: Range,
) -> Result<Cents, ValueFault>
    ensures value { Gives (λ c. c.0) result (money_at table key.now (table_view terms.now) range) }
    ensures within { IfOk result (λ c. IsWithin range c.0) }
{
    match table {
        TermsTable::Own(set) => money(alloc, &own_key(set, key), member(terms, key), range),
        TermsTable::Post(set) => money(alloc, &post_key(set, key), member(terms, key), range),
    }
}

/// A rate from 0 to 1, at a key of a set's table.
pub fn share_at(
    alloc: Global,
    table: TermsTable,
    terms: &Table,
    key: &str,
) -> Result<Rate4, ValueFault>
    ensures value { Gives (λ r. r.0) result
        (rate_of (key_path table key.now) shares (get_member key.now (table_view terms.now))) }
    ensures within { IfOk result (λ r. IsWithin shares r.0) }
{
    match table {
        TermsTable::Own(set) => rate(alloc, &own_key(set, key), member(terms, key), SHARE),
        TermsTable::Post(set) => rate(alloc, &post_key(set, key), member(terms, key), SHARE),
    }
}

/// A time of day, in minutes from midnight, at a key of a set's table.
pub fn minute_at(alloc: Global, set: usize, terms: &Table, key: &str) -> Result<u16, TermsFault>
    ensures value { GivesTerms (λ n. n) result
        (minute_of (key_path (Own set) key.now) (get_member key.now (table_view terms.now))) }
    ensures within { IfOk result (λ n. n < 1440) }
{
    minute(alloc, &own_key(set, key), member(terms, key))
}

/// The places of an array, at a key of a set's table.
pub fn array_at<'a>(
    alloc: Global,
    set: usize,
    terms: &'a Table,
    key: &str,
) -> Result<&'a [Value], ValueFault>
    ensures { Gives (λ a. items_view a.now) result
        (array_of (key_path (Own set) key.now) (get_member key.now (table_view terms.now))) }
{
    array(alloc, &own_key(set, key), member(terms, key))
}

/// A table, at a key of a set's table.
pub fn table_at<'a>(
    alloc: Global,
    table: TermsTable,
    terms: &'a Table,
    key: &str,
) -> Result<&'a Table, ValueFault>
    ensures { Gives (λ t. table_view t.now) result
        (table_of (key_path table key.now) (get_member key.now (table_view terms.now))) }
{
    match table {
        TermsTable::Own(set) => table_in(alloc, &own_key(set, key), member(terms, key)),
        TermsTable::Post(set) => table_in(alloc, &post_key(set, key), member(terms, key)),
    }
}

/// Refuses more than the most entries or places at a key of a set's table, with their count.
pub fn at_most(
    alloc: Global,
    table: TermsTable,
    key: &str,
    most: usize,
    count: usize,
) -> Result<(), ValueFault>
    ensures value { Gives (λ u. u) result (at_most most (key_path table key.now) count) }
    ensures few { OnOk result (count ≤ most) }
{
    if most < count {
        let path = key_text(alloc, table, key)?;
        return Err(ValueFault::OutOfRange(path, count as i128));
    }
    Ok(())
}

// The path of a key, as text.
fn key_text(alloc: Global, table: TermsTable, key: &str) -> Result<Text, AllocError>
    ensures { IfOk result (λ text. text ≡ key_path table key.now) }
{
    match table {
        TermsTable::Own(set) => path_text(alloc, &own_key(set, key)),
        TermsTable::Post(set) => path_text(alloc, &post_key(set, key)),
    }
}
