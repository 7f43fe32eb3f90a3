//! The text of a run, by its account.
ghost use Rattle.std.specs.Prelude.{◌≡◌, ◌<◌, ◌≤◌, ◌++◌, length, map, slice_index_or};
ghost use Rattle.std.specs.Prelude.{Ok, IfOk, OnOk, OnErr};
ghost use Rattle.std.specs.List.{flat_map};
ghost use Rattle.feed_gate.specs.SetCore.Set.{Set};
ghost use Rattle.feed_files.specs.CommandFiles.Texts.{TextGoes};
ghost use Rattle.margin_run.specs.Accounts.{feeds_text, audit_of, set_text};
ghost use Rattle.margin_run.specs.Accounts.{reports_text, account_text};

use crate::account::Account;
use crate::run_files::Outcome;
use audit_file::push_audit;
use csa_terms::BothTerms;
use csa_terms::mh_units::Text;
use feed_files::command_files::{Printed, put_texts};
use feed_gate::FeedReport;
use feed_gate::set_core::SetState;
use margin_text::{journal_text, push_report};
use mh_io::Sink;
use std::alloc::{AllocError, Global};
use std::collections::VecDeque;
use std::thread::{Threads, map_indices};

/// The audit text of a set.
fn audit(alloc: Global, set: &SetState) -> Result<Text, AllocError>
    ensures { IfOk result (λ text. text ≡ audit_of set.now) }
{
    let mut text = Text::new(alloc);
    push_audit(alloc, &mut text, set.name(), set)?;
    Ok(text)
}

/// What is printed of a set.
fn set_text(alloc: Global, account: Account, set: &SetState) -> Result<Text, AllocError>
    ensures { IfOk result (λ text. text ≡ set_text account set.now) }
{
    match account {
        Account::Journals => journal_text(alloc, set, set.name()),
        Account::Audits => audit(alloc, set),
    }
}

/// Takes texts out that were made each by itself, where there was memory for all of them.
fn take_out(alloc: Global, made: Vec<Result<Text, AllocError>>) -> Result<Vec<Text>, AllocError>
    ensures { IfOk result (λ texts. map (λ t. Ok t) texts.items ≡ made.items) }
{
    let mut texts = Vec::with_capacity(alloc, made.len())?;
    let mut waiting = VecDeque::from_vec(made);
    while let Some(text) = waiting.pop_front() {
        texts.push_reserved(text?);
    }
    Ok(texts)
}

/// The texts of the sets, in their order, each made in a thread of its own where one can
/// be started.
fn set_texts<R: Threads + Sync>(
    rt: &R,
    alloc: Global,
    account: Account,
    sets: &[SetState],
) -> Result<Vec<Text>, AllocError>
    ensures { IfOk result (λ texts. texts.items ≡ map (set_text account) sets.now) }
{
    let made = map_indices(
        rt,
        alloc,
        sets.len(),
        &|index| -> Result<Text, AllocError>
            requires { index < length sets.now }
            ensures { IfOk result (λ text.
                (s : Set) → text ≡ set_text account (slice_index_or sets.entry.now index s)) }
        { set_text(alloc, account, &sets[index]) },
    )?;
    take_out(alloc, made)
}

/// Adds what became of the feeds, in their order.
fn push_reports(
    text: &mut Text,
    terms: &[BothTerms],
    reports: &[FeedReport],
) -> Result<(), AllocError>
    requires { length reports.now ≤ 32 }
    ensures { OnOk result
        (text.new ≡ text.old ++ feeds_text 0 (map (λ t. t.collect.name) terms.now) reports.now) }
{
    let mut feed = 0;
    for report in reports {
        push_report(text, feed, terms, report)?;
        feed += 1;
    }
    Ok(())
}

/// What is printed of the feeds.
fn reports_text(
    alloc: Global,
    account: Account,
    terms: &[BothTerms],
    reports: &[FeedReport],
) -> Result<Text, AllocError>
    requires { length reports.now ≤ 32 }
    ensures { IfOk result (λ text.
        text ≡ reports_text account (map (λ t. t.collect.name) terms.now) reports.now) }
{
    let mut text = Text::new(alloc);
    if let Account::Journals = account {
        push_reports(&mut text, terms, reports)?;
    }
    Ok(text)
}

/// All that a run prints, in parts.
fn outcome_texts<R: Threads + Sync>(
    rt: &R,
    alloc: Global,
    account: Account,
    run: &Outcome,
) -> Result<Vec<Text>, AllocError>
    requires terms { run.now.terms ≡ map (λ s. s.terms) run.now.sets.items }
    requires few { length run.now.reports.items ≤ 32 }
    ensures { IfOk result (λ texts. flat_map (λ t. t) texts.items
        ≡ account_text account run.now.sets.items run.now.reports.items) }
{
    let mut texts = set_texts(rt, alloc, account, &run.sets)?;
    let reports = reports_text(alloc, account, run.terms.sets(), &run.reports)?;
    texts.push(reports)?;
    Ok(texts)
}

/// Prints a run by its account. The texts of the sets are made at the same time.
///
/// # Errors
///
/// For want of memory alone; then nothing was printed.
pub(crate) fn print_run<R: Threads + Sync, K: Sink>(
    rt: &R,
    alloc: Global,
    account: Account,
    out: &mut K,
    run: &Outcome,
) -> Result<Printed, AllocError>
    requires terms { run.now.terms ≡ map (λ s. s.terms) run.now.sets.items }
    requires few { length run.now.reports.items ≤ 32 }
    ensures count { (K.seen out.old).faults ≤ (K.seen out.new).faults }
    ensures printed { IfOk result (TextGoes (account_text account run.now.sets.items
        run.now.reports.items) (K.seen out.old) (K.seen out.new)) }
    ensures stands { OnErr result ((K.seen out.new).holds ≡ (K.seen out.old).holds) }
{
    let texts = outcome_texts(rt, alloc, account, run)?;
    Ok(put_texts(out, &texts))
}
