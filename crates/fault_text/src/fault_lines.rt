//! The line of a refused file's first fault.
ghost use Rattle.std.specs.Prelude.{◌≡◌, ◌≢◌, ◌++◌, codes, decimal, IfOk, OnOk};
ghost use Rattle.std.specs.Fmt.{signed_decimal};
ghost use Rattle.params_file.specs.declared.fault.ParamFault.TheVariants as params;
ghost use Rattle.csa_terms.specs.declared.fault.TermsFault.TheVariants as terms;
ghost use Rattle.crif_reader.specs.declared.fault.CrifFault.TheVariants as crif;
ghost use Rattle.fault_text.specs.Fields.{field, last_field};
ghost use Rattle.fault_text.specs.ParamsLine.{params_fields, params_fault};
ghost use Rattle.fault_text.specs.TermsLine.{terms_fields, terms_fault};
ghost use Rattle.fault_text.specs.CrifLine.{crif_fault};

use crate::crif_fields::push_crif_fields;
use crate::pieces::{push_field, push_last, push_last_number, push_number};
use crif_reader::CrifFault;
use csa_terms::TermsFault;
use mh_units::Text;
use params_file::ParamFault;
use std::alloc::{AllocError, Global};

/// The line of a parameter file's fault.
///
/// # Errors
///
/// For want of memory, of the parameters' reader too.
pub fn params_line(alloc: Global, fault: &ParamFault) -> Result<Text, AllocError>
    ensures line { IfOk result (λ line. line ≡ params_fault fault.now) }
    ensures refused { OnOk result (fault.now ≢ params.Memory) }
{
    let Some(number) = fault.number() else {
        return Err(AllocError);
    };
    let mut line = begun_line(alloc, b"PARAMS")?;
    push_params_fields(&mut line, number, fault)?;
    Ok(line)
}

/// The line of a terms file's fault.
///
/// # Errors
///
/// For want of memory, of the terms' reader too.
pub fn terms_line(alloc: Global, fault: &TermsFault) -> Result<Text, AllocError>
    ensures line { IfOk result (λ line. line ≡ terms_fault fault.now) }
    ensures refused { OnOk result (fault.now ≢ terms.Memory) }
{
    let Some(number) = fault.number() else {
        return Err(AllocError);
    };
    let mut line = begun_line(alloc, b"TERMS")?;
    push_terms_fields(&mut line, number, fault)?;
    Ok(line)
}

/// The line of a fault of a CRIF file, which the word names: a command may have two of them.
///
/// # Errors
///
/// For want of memory, of the file's reader too.
pub fn crif_line(alloc: Global, word: &[u8], fault: &CrifFault) -> Result<Text, AllocError>
    ensures line { IfOk result (λ line. line ≡ crif_fault word.now fault.now) }
    ensures refused { OnOk result (fault.now ≢ crif.Memory) }
{
    let Some(number) = fault.number() else {
        return Err(AllocError);
    };
    let mut line = begun_line(alloc, word)?;
    push_crif_fields(&mut line, number, *fault)?;
    Ok(line)
}

/// The first fields of a fault's line, of the file that the word names.
///
/// # Errors
///
/// For want of memory.
pub fn begun_line(alloc: Global, word: &[u8]) -> Result<Text, AllocError>
    ensures { IfOk result (λ line. line ≡ field (codes "FAULT") ++ field word.now) }
{
    let mut line = Text::new(alloc);
    push_field(&mut line, b"FAULT")?;
    push_field(&mut line, word)?;
    Ok(line)
}

/// Adds a fault's number and what stands behind it, up to the end of the line.
pub fn push_params_fields(line: &mut Text, number: u8, fault: &ParamFault) -> Result<(), AllocError>
    ensures { OnOk result (line.new ≡ line.old ++ params_fields number fault.now) }
{
    match fault {
        ParamFault::Missing(path) | ParamFault::BadNumber(path) | ParamFault::NotSymmetric(path) =>
            push_named(line, number, path.as_slice()),
        ParamFault::OutOfRange(path, value) => push_valued(line, number, path, *value),
        ParamFault::ThinThreshold(path, weight, threshold) => {
            push_number(line, number)?;
            push_field(line, path.as_slice())?;
            push_number(line, *weight)?;
            push_last_number(line, *threshold)
        }
        ParamFault::Toml | ParamFault::Memory => push_last_number(line, number),
    }
}

/// Adds a fault's number and what stands behind it, up to the end of the line.
fn push_terms_fields(line: &mut Text, number: u8, fault: &TermsFault) -> Result<(), AllocError>
    ensures { OnOk result (line.new ≡ line.old ++ terms_fields number fault.now) }
{
    match fault {
        TermsFault::Missing(path)
        | TermsFault::BadNumber(path)
        | TermsFault::BadDate(path)
        | TermsFault::BadName(path) => push_named(line, number, path.as_slice()),
        TermsFault::DuplicateSet(name) => push_named(line, number, name.bytes()),
        TermsFault::OutOfRange(path, value) => push_valued(line, number, path, *value),
        TermsFault::TooManySets(count) => {
            push_number(line, number)?;
            push_last_number(line, *count)
        }
        TermsFault::Toml | TermsFault::Memory => push_last_number(line, number),
    }
}

/// Adds a number, and a path or a name as the last field.
fn push_named(line: &mut Text, number: u8, bytes: &[u8]) -> Result<(), AllocError>
    ensures { OnOk result
        (line.new ≡ line.old ++ (field (decimal number) ++ last_field bytes.now)) }
{
    push_number(line, number)?;
    push_last(line, bytes)
}

/// Adds a number, a path, and the value there as the last field.
fn push_valued(line: &mut Text, number: u8, path: &Text, value: i128) -> Result<(), AllocError>
    ensures { OnOk result (line.new ≡ line.old
        ++ (field (decimal number) ++ field path.now ++ last_field (signed_decimal value))) }
{
    push_number(line, number)?;
    push_field(line, path.as_slice())?;
    push_last_number(line, value)
}
