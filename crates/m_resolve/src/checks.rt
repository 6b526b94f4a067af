//! Checks over cells, and their labels.

ghost use Rattle.std.specs.Prelude.{◌≡◌, ◌++◌, ◌<◌, ◌≤◌, [], drop, Some, Ok, Err, IfOk, OnOk, length, map, slice_get};
ghost use Rattle.std.specs.Option.{option_copied, option_map};
ghost use Rattle.m_places.specs.Refusals.{Says};
ghost use Rattle.m_places.specs.declared.limits.TheConstants.{PARTS};
ghost use Rattle.m_resolve.specs.Bases.{resolved_conditions, resolved_label, error_named, error_text, behind_colon, printable};
ghost use Rattle.m_resolve.specs.inner.Words.{words_of, label_with, resolved_with};
ghost use Rattle.m_resolve.specs.declared.fault.ResolveFault.TheVariants.{Memory};

use crate::ResolveFault;
use crate::terms::term;
use m_ast::{Condition, ErrorItem};
use m_places::{ErrorKind, Label, Name, Place, SharedName};
use m_symbols::Symbols;
use micro_m::MTerm;
use std::alloc::{AllocError, Global};

/// Checks over cells, each with the number of its label, and the labels.
#[derive(Drop)]
pub(crate) struct Checked {
    pub checks: Vec<(MTerm, u32, Place)>,
    pub labels: Vec<Label>,
}

// The part of a label that an error item determines. It is made once per error, and labels share
// it.
#[derive(Drop)]
struct ErrorWords {
    name: SharedName,
    kind: ErrorKind,
    text: SharedName,
}

/// Checks over cells, in order, or the error of the first wrong condition. There are at most as
/// many as the maximal number of parts, so label numbers fit 32 bits.
pub(crate) fn checks(
    alloc: Global,
    all: &[Condition],
    symbols: &Symbols,
) -> Result<Checked, ResolveFault>
    requires { length all.now ≤ PARTS }
    ensures { Says Memory result (λ made. (made.checks.items, made.labels.items)) (resolved_conditions symbols.now ([], []) all.now) }
{
    let errors = errors(alloc, symbols)?;
    checks_with(alloc, all, symbols, errors.as_slice())
}

// The words of each error, by its number.
fn errors(alloc: Global, symbols: &Symbols) -> Result<Vec<ErrorWords>, AllocError>
    ensures { IfOk result (λ errors. errors.items ≡ map words_of symbols.now.errors) }
{
    let mut errors = Vec::with_capacity(alloc, symbols.errors() as usize)?;
    for number in 0..symbols.errors() {
        errors.push(words_of(alloc, symbols.error(number))?)?;
    }
    Ok(errors)
}

fn words_of(alloc: Global, error: &ErrorItem) -> Result<ErrorWords, AllocError>
    ensures { IfOk result (λ words. words ≡ words_of error.now) }
{
    let name = SharedName::new(alloc, error.name.copy(alloc)?)?;
    let text = SharedName::new(alloc, error_text(alloc, error.texts.as_slice())?)?;
    Ok(ErrorWords {
        name,
        kind: error.kind,
        text,
    })
}

// Checks over cells, given the words of all errors.
fn checks_with(
    alloc: Global,
    all: &[Condition],
    symbols: &Symbols,
    errors: &[ErrorWords],
) -> Result<Checked, ResolveFault>
    requires errors { errors.now ≡ map words_of symbols.now.errors }
    requires few { length all.now ≤ PARTS }
    ensures { Says Memory result (λ made. (made.checks.items, made.labels.items)) (resolved_conditions symbols.now ([], []) all.now) }
{
    let mut checks = Vec::with_capacity(alloc, all.len())?;
    let mut labels = Vec::with_capacity(alloc, all.len())?;
    for one in all {
        let tree = term(alloc, &one.term, symbols)?;
        let label = label(alloc, one, symbols, errors)?;
        let number = labels.len() as u32;
        checks.push((Box::into_inner(tree), number, one.place))?;
        labels.push(label)?;
    }
    Ok(Checked { checks, labels })
}

// The label of a check.
fn label(
    alloc: Global,
    condition: &Condition,
    symbols: &Symbols,
    errors: &[ErrorWords],
) -> Result<Label, ResolveFault>
    requires { errors.now ≡ map words_of symbols.now.errors }
    ensures { Says Memory result (λ label. label) (resolved_label condition.now (error_named symbols.now condition.now.error)) }
{
    let words = error_named(symbols, errors, &condition.error);
    resolved_with(alloc, condition, words)
}

// The label of a check whose error has these words, if it exists.
fn resolved_with(
    alloc: Global,
    condition: &Condition,
    words: Option<&ErrorWords>,
) -> Result<Label, ResolveFault>
    ensures { Says Memory result (λ label. label) (resolved_with condition.now (option_copied words.entry)) }
{
    match words {
        None => Err(ResolveFault::UnknownError(condition.error.copy(alloc)?, condition.place)),
        Some(words) => Ok(label_with(alloc, &condition.verif, words)?),
    }
}

// The words of the error with this name.
fn error_named<'a>(
    symbols: &Symbols,
    errors: &'a [ErrorWords],
    name: &Name,
) -> Option<&'a ErrorWords>
    requires { errors.now ≡ map words_of symbols.now.errors }
    ensures { option_copied result ≡ option_map words_of (error_named symbols.now name.now) }
{
    let number = symbols.find_error(name.bytes())?;
    Some(words_at(symbols, errors, number))
}

// The words of the error with this number, which must be below the count.
fn words_at<'a>(symbols: &Symbols, errors: &'a [ErrorWords], number: u32) -> &'a ErrorWords
    requires within { number < length symbols.now.errors }
    requires words { errors.now ≡ map words_of symbols.now.errors }
    ensures { option_map words_of (slice_get symbols.now.errors number) ≡ Some result.now }
{
    &errors[number as usize]
}

// The label of a check of this verification whose error has these words.
fn label_with(alloc: Global, verif: &SharedName, words: &ErrorWords) -> Result<Label, AllocError>
    ensures { IfOk result (λ label. label ≡ label_with verif.now words.now) }
{
    let verif = verif.share(alloc)?;
    let error = words.name.share(alloc)?;
    let text = words.text.share(alloc)?;
    Ok(Label {
        verif,
        error,
        kind: words.kind,
        text,
    })
}

// The text of an error: its texts, separated by colons, with each byte below 32 replaced by a
// space.
fn error_text(alloc: Global, texts: &[Name]) -> Result<Name, AllocError>
    ensures { IfOk result (λ text. text ≡ error_text texts.now) }
{
    let mut text = Vec::new(alloc);
    for one in texts {
        add_behind_colon(&mut text, one.bytes())?;
    }
    Name::new(alloc, without_first(&text))
}

// A text without its first byte.
fn without_first(text: &[u8]) -> &[u8]
    ensures { result.now ≡ drop 1 text.now }
{
    match text {
        [] => text,
        [_, rest @ ..] => rest,
    }
}

// Appends a colon and a text as printed.
fn add_behind_colon(text: &mut Vec<u8>, bytes: &[u8]) -> Result<(), AllocError>
    ensures { OnOk result (text.new.items ≡ text.old.items ++ behind_colon bytes.now) }
{
    text.push(b':')?;
    for byte in bytes {
        text.push(printable(*byte))?;
    }
    Ok(())
}

// A byte as printed: one below 32 is a space.
fn printable(byte: u8) -> u8
    ensures { result ≡ printable byte }
{
    if byte < 32 { 32 } else { byte }
}
