//! The terms of the sample's netting sets.
ghost use Rattle.std.specs.Prelude.{◌≡◌, ◌<◌, [], ◌∷◌, codes, pos, length, IfOk};
ghost use Rattle.simm_params.specs.SimmKinds.NameText.{IsName};
ghost use Rattle.house_sample.specs.Agreements.{set_name, agreement, agreements, sample_terms};

use feed_reader::csa_terms::{Amounts, BothTerms, HaircutTable, HolidayList, SetTerms, Terms};
use simm_params::mh_units::{Cents, Rate4};
use simm_params::simm_kinds::Name;
use std::alloc::{AllocError, Global};

/// The name of the set at a place, 0 or 1.
pub(crate) fn set_name(place: u32) -> &'static [u8]
    ensures { result.now ≡ set_name place }
{
    if place == 0 { b"S0" } else { b"S1" }
}

/// Cash in dollars is taken whole, and nothing else at all.
fn haircuts(alloc: Global) -> Result<HaircutTable, AllocError>
    ensures { IfOk result (λ table.
        table ≡ record { class = codes "CASH-USD"; rate = pos 0 } ∷ []) }
{
    let mut haircuts = HaircutTable::new(alloc);
    haircuts.put(Name::of_bytes(alloc, b"CASH-USD")?, Rate4(0))?;
    Ok(haircuts)
}

/// The agreement of the set of this name.
fn agreement(alloc: Global, name: &[u8]) -> Result<SetTerms, AllocError>
    requires name { IsName name.now }
    requires named { 0 < length name.now }
    ensures { IfOk result (λ terms. terms ≡ agreement name.now) }
{
    let amounts = Amounts {
        threshold: Cents(500_000),
        mta_delivery: Cents(50_000),
        mta_return: Cents(50_000),
        rounding: Cents(10_000),
    };
    let name = Name::of_bytes(alloc, name)?;
    let haircuts = haircuts(alloc)?;
    let holidays = HolidayList::new(alloc);
    Ok(SetTerms::of_parts(name, amounts, 13 * 60, Rate4(800), haircuts, holidays))
}

/// The terms of the set of this name: it posts by what it collects by.
fn agreements(alloc: Global, name: &[u8]) -> Result<BothTerms, AllocError>
    requires name { IsName name.now }
    requires named { 0 < length name.now }
    ensures { IfOk result (λ terms. terms ≡ agreements name.now) }
{
    let collect = agreement(alloc, name)?;
    let post = collect.copy(alloc)?;
    Ok(BothTerms::new(collect, post))
}

/// The terms of the two netting sets of the sample, `S0` and `S1`. But for the names they are
/// those of `examples/terms.toml`.
///
/// # Errors
///
/// For want of memory alone.
pub fn sample_terms(alloc: Global) -> Result<Terms, AllocError>
    ensures { IfOk result (λ terms. terms ≡ sample_terms) }
{
    let mut sets = Vec::with_capacity(alloc, 2)?;
    sets.push(agreements(alloc, set_name(0))?)?;
    sets.push(agreements(alloc, set_name(1))?)?;
    Ok(Terms::from_sets(sets))
}
