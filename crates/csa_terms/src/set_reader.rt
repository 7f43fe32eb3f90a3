ghost use Rattle.std.specs.Prelude.{◌≡◌, IfOk};
ghost use Rattle.toml.specs.View.{table_view};
ghost use Rattle.toml_values.specs.Values.{found};
ghost use Rattle.toml_values.specs.Answers.{Gives as GivesValue};
ghost use Rattle.csa_terms.specs.Terms.{IsOneSet};
ghost use Rattle.csa_terms.specs.SetView.{AreAmounts};
ghost use Rattle.csa_terms.specs.Faults.{Gives};
ghost use Rattle.csa_terms.specs.Grammar.{amounts_of, collect_of, posting_of, post_of, set_of};

use crate::both_terms::BothTerms;
use crate::fault::TermsFault;
use crate::haircut_entries::read_haircuts;
use crate::holiday_places::read_holidays;
use crate::keyed::{minute_at, money_at, name_at, share_at};
use crate::range::{AMOUNT, UNIT};
use crate::set_terms::{Amounts, SetTerms};
use crate::terms_path::{TermsTable, own_key};
use std::alloc::Global;
use toml::{Table, Value};
use toml_values::{ValueFault, member, table};

#[tactic(auto, unfolding(crate::specs::Grammar::amounts_of))]
fn read_amounts(alloc: Global, table: TermsTable, terms: &Table) -> Result<Amounts, ValueFault>
    ensures value { GivesValue
        (λ a. (a.threshold.0, a.mta_delivery.0, a.mta_return.0, a.rounding.0)) result
        (amounts_of table (table_view terms.now)) }
    ensures amounts { IfOk result AreAmounts }
{
    let threshold = money_at(alloc, table, terms, "threshold", AMOUNT)?;
    let mta_delivery = money_at(alloc, table, terms, "mta_delivery", AMOUNT)?;
    let mta_return = money_at(alloc, table, terms, "mta_return", AMOUNT)?;
    let rounding = money_at(alloc, table, terms, "rounding", UNIT)?;
    Ok(Amounts {
        threshold,
        mta_delivery,
        mta_return,
        rounding,
    })
}

/// The terms by which a set collects margin, in its table.
#[tactic(auto, unfolding(crate::specs::Grammar::collect_of))]
fn read_collect(alloc: Global, set: usize, terms: &Table) -> Result<SetTerms, TermsFault>
    ensures { Gives (λ t. t) result (collect_of set (table_view terms.now)) }
{
    let table = TermsTable::Own(set);
    let name = name_at(alloc, set, terms, "name")?;
    let amounts = read_amounts(alloc, table, terms)?;
    let notification = minute_at(alloc, set, terms, "notification")?;
    let fx_haircut = share_at(alloc, table, terms, "fx_haircut")?;
    let haircuts = read_haircuts(alloc, table, terms)?;
    let holidays = read_holidays(alloc, set, terms)?;
    Ok(SetTerms::of_parts(name, amounts, notification, fx_haircut, haircuts, holidays))
}

/// The terms by which a set posts that has a table of them: those by which it collects, but for
/// what that table has.
#[tactic(auto, unfolding(crate::specs::Grammar::posting_of))]
fn read_posting(
    alloc: Global,
    set: usize,
    terms: &Table,
    collect: &SetTerms,
) -> Result<SetTerms, TermsFault>
    ensures value { Gives (λ t. t) result (posting_of set (table_view terms.now) collect.now) }
    ensures set { IfOk result (IsOneSet collect.now) }
{
    let table = TermsTable::Post(set);
    let amounts = read_amounts(alloc, table, terms)?;
    let fx_haircut = share_at(alloc, table, terms, "fx_haircut")?;
    let haircuts = read_haircuts(alloc, table, terms)?;
    Ok(collect.with(alloc, amounts, fx_haircut, haircuts)?)
}

/// The terms by which a set posts, of what it has at `post`: where that is nothing, those by which
/// it collects.
#[tactic(auto, unfolding(crate::specs::Grammar::post_of))]
fn read_post(
    alloc: Global,
    set: usize,
    post: Option<&Value>,
    collect: &SetTerms,
) -> Result<SetTerms, TermsFault>
    ensures value { Gives (λ t. t) result (post_of set (found post.entry) collect.now) }
    ensures set { IfOk result (IsOneSet collect.now) }
{
    match post {
        None => Ok(collect.copy(alloc)?),
        Some(value) => {
            let path = own_key(set, "post");
            let terms = table(alloc, &path, Some(value))?;
            read_posting(alloc, set, terms, collect)
        }
    }
}

/// The terms of a set in its table; sets are counted from 1.
#[tactic(auto, unfolding(crate::specs::Grammar::set_of))]
pub fn read_set(alloc: Global, set: usize, terms: &Table) -> Result<BothTerms, TermsFault>
    ensures { Gives (λ t. t) result (set_of set (table_view terms.now)) }
{
    let collect = read_collect(alloc, set, terms)?;
    let post = read_post(alloc, set, member(terms, "post"), &collect)?;
    Ok(BothTerms::new(collect, post))
}
