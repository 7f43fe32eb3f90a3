ghost use Rattle.std.specs.Prelude.{◌≡◌, map, length, true, ◌&&◌, IfSome};
ghost use Rattle.std.specs.List.{list_all};
ghost use Rattle.std.specs.String.{string_bytes};
ghost use Rattle.margin_top.specs.Words.{is_name_word, are_feed_words, margin_form, feeds_form};
ghost use Rattle.margin_top.specs.Words.{are_trade_words, what_if_form, verify_form, long_form};
ghost use Rattle.margin_top.specs.Words.{number_of, sample_form, short_form, form_of};
ghost use Rattle.margin_whatif.specs.Words.{is_trade_word, words_in};
ghost use Rattle.margin_top.specs.WordsRead.{IsForm, IsPlan, AreFew, IsWithin};

use feed_reader::number_in;
use margin_pool::{PoolFiles, amount_in};
use margin_run::RunFiles;
use margin_sample::SamplePlan;
use margin_schedule::EndDate;
use margin_verify::VerifyFiles;
use margin_whatif::{WhatIfFiles, is_trade};

/// The files of a margin calculation, and of its explanation.
#[derive(Clone, Copy)]
pub(crate) struct CalcFiles<'a> {
    /// The name of the parameter file.
    pub params: &'a str,
    /// The name of the CRIF file.
    pub crif: &'a str,
}

/// The words of a margin by the schedule.
#[derive(Clone, Copy)]
pub(crate) struct ScheduleFiles<'a> {
    /// The day from which the terms of the trades are counted.
    pub day: EndDate,
    /// The name of the CRIF file.
    pub crif: &'a str,
}

/// A word that names something: it isn't empty, and doesn't begin with `-`.
fn is_name(word: &str) -> bool
    ensures { result ≡ is_name_word word.now }
{
    !matches!(word.as_bytes(), [] | [b'-', ..])
}

/// How many feeds run at the same time at most.
const MOST_FEEDS: usize = 32;

fn are_names(words: &[String]) -> bool
    ensures { result ≡ list_all (λ word. is_name_word (string_bytes word)) words.now }
{
    words.iter().all(|word| is_name(word.as_str()))
}

/// Words that name feeds.
fn are_feeds(words: &[String]) -> bool
    ensures form { result ≡ are_feed_words (map string_bytes words.now) }
    ensures few { result ≡ true → AreFew (length words.now) }
{
    !words.is_empty() && words.len() <= MOST_FEEDS && are_names(words)
}

/// How many trades a what-if names at most.
const MOST_NAMES: usize = 100;

fn are_trade_names(words: &[String]) -> bool
    ensures { result ≡ list_all (λ word. is_name_word (string_bytes word)
        && is_trade_word (string_bytes word)) words.now }
{
    words
        .iter()
        .all(|word| is_name(word.as_str()) && is_trade(word.as_bytes()))
}

/// Words that name trades.
fn are_trades(words: &[String]) -> bool
    ensures form { result ≡ are_trade_words (map string_bytes words.now) }
    ensures names { result ≡ true → list_all is_trade_word (words_in words.now) ≡ true }
{
    words.len() <= MOST_NAMES && are_trade_names(words)
}

/// A command with its files.
#[derive(Clone, Copy)]
pub(crate) enum Command<'a> {
    Calc(CalcFiles<'a>),
    Explain(CalcFiles<'a>),
    Schedule(ScheduleFiles<'a>),
    WhatIf(WhatIfFiles<'a>),
    Sample(SamplePlan),
    Run(RunFiles<'a>),
    Audit(RunFiles<'a>),
    Verify(VerifyFiles<'a>),
    Pool(PoolFiles<'a>),
}

/// The margin of one CRIF file that three words ask for.
fn margin_command<'a>(command: &'a str, first: &'a str, crif: &'a str) -> Option<Command<'a>>
    ensures form { IsForm result (margin_form command.now first.now crif.now) }
    ensures within { IsWithin result }
{
    if command == "calc" && is_name(first) && is_name(crif) {
        return Some(Command::Calc(CalcFiles {
            params: first,
            crif,
        }));
    }
    if command == "explain" && is_name(first) && is_name(crif) {
        return Some(Command::Explain(CalcFiles {
            params: first,
            crif,
        }));
    }
    if command == "schedule" && is_name(crif) {
        let day = EndDate::read(first.as_bytes())?;
        return Some(Command::Schedule(ScheduleFiles { day, crif }));
    }
    None
}

/// A number in decimal, without a sign, and without a leading zero unless it is 0.
fn number(word: &str) -> Option<u32>
    ensures { result ≡ number_of word.now }
{
    if word == "0" {
        Some(0)
    } else {
        number_in(word.as_bytes())
    }
}

/// How many feeds a sample makes, and what they are drawn from.
fn sample_plan(feeds: &str, seed: &str) -> Option<SamplePlan>
    ensures plan { IsPlan result (sample_form feeds.now seed.now) }
    ensures few { IfSome result (λ plan. AreFew plan.feeds) }
{
    let feeds = number(feeds)?;
    let seed = number(seed)?;
    if feeds == 0 || feeds as usize > MOST_FEEDS {
        return None;
    }
    Some(SamplePlan { feeds, seed })
}

/// A sample, or the margin of one CRIF file, that three words ask for.
fn short_command<'a>(command: &'a str, first: &'a str, second: &'a str) -> Option<Command<'a>>
    ensures form { IsForm result (short_form command.now first.now second.now) }
    ensures within { IsWithin result }
{
    if command == "sample" {
        let plan = sample_plan(first, second)?;
        return Some(Command::Sample(plan));
    }
    margin_command(command, first, second)
}

/// The run of feeds that four words or more ask for.
fn feeds_command<'a>(
    command: &'a str,
    first: &'a str,
    second: &'a str,
    feeds: &'a [String],
) -> Option<Command<'a>>
    ensures form { IsForm result
        (feeds_form command.now first.now second.now (map string_bytes feeds.now)) }
    ensures within { IsWithin result }
{
    if !is_name(first) || !are_feeds(feeds) {
        return None;
    }
    let run = RunFiles {
        params: first,
        terms: second,
        feeds,
    };
    if command == "run" && is_name(second) {
        return Some(Command::Run(run));
    }
    if command == "audit" && is_name(second) {
        return Some(Command::Audit(run));
    }
    if command == "pool" {
        let total = amount_in(second.as_bytes())?;
        return Some(Command::Pool(PoolFiles {
            terms: first,
            total,
            feeds,
        }));
    }
    None
}

/// The what-if whose files and trades these words name.
fn what_if_command<'a>(params: &'a str, crif: &'a str, rest: &'a [String]) -> Option<Command<'a>>
    ensures form { IsForm result (what_if_form params.now crif.now (map string_bytes rest.now)) }
    ensures within { IsWithin result }
{
    let [candidate, names @ ..] = rest else {
        return None;
    };
    let candidate = candidate.as_str();
    if is_name(params) && is_name(crif) && is_name(candidate) && are_trades(names) {
        return Some(Command::WhatIf(WhatIfFiles {
            params,
            crif,
            candidate,
            names,
        }));
    }
    None
}

/// The verification of the audit file that these words name.
fn verify_command<'a>(params: &'a str, terms: &'a str, rest: &'a [String]) -> Option<Command<'a>>
    ensures form { IsForm result (verify_form params.now terms.now (map string_bytes rest.now)) }
    ensures within { IsWithin result }
{
    let [audit] = rest else {
        return None;
    };
    let audit = audit.as_str();
    if is_name(params) && is_name(terms) && is_name(audit) {
        return Some(Command::Verify(VerifyFiles {
            params,
            terms,
            audit,
        }));
    }
    None
}

/// The what-if, the verification or the run of feeds that four words or more ask for.
fn long_command<'a>(
    command: &'a str,
    first: &'a str,
    second: &'a str,
    rest: &'a [String],
) -> Option<Command<'a>>
    ensures form { IsForm result
        (long_form command.now first.now second.now (map string_bytes rest.now)) }
    ensures within { IsWithin result }
{
    if command == "whatif" {
        return what_if_command(first, second, rest);
    }
    if command == "verify" {
        return verify_command(first, second, rest);
    }
    feeds_command(command, first, second, rest)
}

/// The command of the words, if they are a form of one.
pub(crate) fn command_of(words: &[String]) -> Option<Command<'_>>
    ensures form { IsForm result (form_of (map string_bytes words.now)) }
    ensures within { IsWithin result }
{
    match words {
        [command, first, second] => {
            short_command(command.as_str(), first.as_str(), second.as_str())
        }
        [command, first, second, rest @ ..] => {
            long_command(command.as_str(), first.as_str(), second.as_str(), rest)
        }
        _ => None,
    }
}
