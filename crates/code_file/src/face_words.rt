//! Parses the lines of a face.
ghost use Rattle.std.specs.Prelude.{◌≡◌, ◌<◌, ◌∷◌, [], ◌*◌, ◌+◌, IfOk, IfSome, MatchOption, Some, None, length, drop};
ghost use Rattle.code_file.specs.inner.Spelled.{cut};
ghost use Rattle.code_file.specs.inner.Faces.{IsRead, IsRightInput, IsRightVerif, IsRightLabel, IsRightOutput, coded, slots_of, input_of};
ghost use Rattle.code_file.specs.inner.Faces.{kind_named, hex_value, hex_byte, bytes_of, error_kind, verif_words, verif_of, label_words, label_of, output_of};

use crate::cut::cut;
use crate::names::{are_few_digits, is_cell_name, is_free_word, is_plain_name};
use crate::numbers::short;
use m_places::{ErrorKind, Label, Name, SharedName};
use observables::{Coded, FaceLabel, FaceOutput, InputType};
use std::alloc::{AllocError, Global};

/// The slot count of a `slots` line.
pub fn slots_of(line: &[u8]) -> Option<u32>
    ensures { result ≡ slots_of line.now }
{
    let (word, count) = cut(line, b' ')?;
    if word == b"slots".as_slice() {
        short(count)
    } else {
        None
    }
}

// The type for the word after an input's code.
fn kind_named(word: &[u8]) -> Option<InputType>
    ensures { result ≡ kind_named word.now }
{
    if word == b"whole".as_slice() {
        Some(InputType::Whole)
    } else if word == b"truth".as_slice() {
        Some(InputType::Truth)
    } else {
        None
    }
}

// The code and type of an `input` line.
fn input_words(line: &[u8]) -> Option<(&[u8], InputType)>
    ensures { MatchOption result (input_of line.now ≡ None) (λ p. input_of line.now ≡ Some (coded p.0.now p.1)) }
{
    let (word, text) = cut(line, b' ')?;
    if word != b"input".as_slice() {
        return None;
    }
    match cut(text, b' ') {
        None => Some((text, InputType::Any)),
        Some((code, kind)) => {
            let kind = kind_named(kind)?;
            Some((code, kind))
        }
    }
}

/// Parses an `input` line.
pub fn read_input(alloc: Global, line: &[u8]) -> Result<Option<Coded>, AllocError>
    ensures { IfOk result (IsRead input_of IsRightInput line.now) }
{
    match input_words(line) {
        None => Ok(None),
        Some((code, kind)) => {
            if !is_free_word(code) {
                return Ok(None);
            }
            let code = Name::new(alloc, code)?;
            Ok(Some(Coded { code, kind }))
        }
    }
}

// The value of a hexadecimal digit; only `0` to `9` and `a` to `f` are accepted.
fn hex_value(digit: u8) -> Option<u8>
    ensures value { result ≡ hex_value digit }
    ensures small { IfSome result (λ value. value < 16) }
{
    if 48 <= digit && digit <= 57 {
        Some(digit - 48)
    } else if 97 <= digit && digit <= 102 {
        Some(digit - 87)
    } else {
        None
    }
}

// The byte of two hexadecimal digits, the high one first.
fn hex_byte(a: u8, b: u8) -> Option<u8>
    ensures { result ≡ hex_byte a b }
{
    let high = hex_value(a)?;
    let low = hex_value(b)?;
    Some(high * 16 + low)
}

// The bytes of a hexadecimal text, two digits each.
fn bytes_of(alloc: Global, hex: &[u8]) -> Result<Option<Vec<u8>>, AllocError>
    ensures { IfOk result (λ o. MatchOption o (bytes_of hex.now ≡ None) (λ bytes. bytes_of hex.now ≡ Some bytes.items)) }
{
    let mut bytes = Vec::new(alloc);
    let mut at = 0;
    while at + 1 < hex.len() {
        match hex_byte(hex[at], hex[at + 1]) {
            None => return Ok(None),
            Some(byte) => bytes.push(byte)?,
        }
        at += 2;
    }
    if at == hex.len() {
        Ok(Some(bytes))
    } else {
        Ok(None)
    }
}

// The kind of error for its word.
fn error_kind(word: &[u8]) -> Option<ErrorKind>
    ensures { result ≡ error_kind word.now }
{
    if word == b"anomalie".as_slice() {
        Some(ErrorKind::Anomalie)
    } else if word == b"discordance".as_slice() {
        Some(ErrorKind::Discordance)
    } else if word == b"informative".as_slice() {
        Some(ErrorKind::Informative)
    } else {
        None
    }
}

// The verification's number, its error's name and kind, and the error's text in hexadecimal.
fn verif_words(text: &[u8]) -> Option<(&[u8], &[u8], ErrorKind, &[u8])>
    ensures { MatchOption result (verif_words text.now ≡ None)
        (λ p. verif_words text.now ≡ Some (record { number = p.0.now; error = p.1.now; kind = p.2; hex = p.3.now })) }
{
    let (number, rest) = cut(text, b' ')?;
    let (error, rest) = cut(rest, b' ')?;
    let (kind, hex) = cut(rest, b' ')?;
    let kind = error_kind(kind)?;
    Some((number, error, kind, hex))
}

// A verification's label with copies of these names and this text.
fn label_with(
    alloc: Global,
    number: &[u8],
    error: &[u8],
    kind: ErrorKind,
    text: &[u8],
) -> Result<Label, AllocError>
    ensures { IfOk result (λ label. label ≡ record { verif = number.now; error = error.now; kind = kind; text = text.now }) }
{
    let verif = SharedName::new(alloc, Name::new(alloc, number)?)?;
    let error = SharedName::new(alloc, Name::new(alloc, error)?)?;
    let text = SharedName::new(alloc, Name::new(alloc, text)?)?;
    Ok(Label {
        verif,
        error,
        kind,
        text,
    })
}

// Parses the part of a label's line after `label verif `.
fn read_verif(alloc: Global, text: &[u8]) -> Result<Option<Label>, AllocError>
    ensures { IfOk result (IsRead verif_of IsRightVerif text.now) }
{
    let (number, error, kind, hex) = match verif_words(text) {
        None => return Ok(None),
        Some(words) => words,
    };
    if !are_few_digits(number) {
        return Ok(None);
    }
    if !is_plain_name(error) {
        return Ok(None);
    }
    match bytes_of(alloc, hex)? {
        None => Ok(None),
        Some(bytes) => {
            if bytes.is_empty() {
                return Ok(None);
            }
            let label = label_with(alloc, number, error, kind, &bytes)?;
            Ok(Some(label))
        }
    }
}

// Splits the part of a line after `label ` into its first word and the rest.
fn label_words(line: &[u8]) -> Option<(&[u8], &[u8])>
    ensures { MatchOption result (label_words line.now ≡ None) (λ p. label_words line.now ≡ Some (p.0.now, p.1.now)) }
{
    let (word, rest) = cut(line, b' ')?;
    if word == b"label".as_slice() {
        cut(rest, b' ')
    } else {
        None
    }
}

/// Parses a `label` line.
pub fn read_label(alloc: Global, line: &[u8]) -> Result<Option<FaceLabel>, AllocError>
    ensures { IfOk result (IsRead label_of IsRightLabel line.now) }
{
    let (kind, text) = match label_words(line) {
        None => return Ok(None),
        Some(parts) => parts,
    };
    if kind == b"driver".as_slice() {
        return match short(text) {
            None => Ok(None),
            Some(number) => Ok(Some(FaceLabel::DriverLine(number))),
        };
    }
    if kind != b"verif".as_slice() {
        return Ok(None);
    }
    match read_verif(alloc, text)? {
        None => Ok(None),
        Some(label) => Ok(Some(FaceLabel::Verif(label))),
    }
}

/// Parses an `output` or `note` line.
pub fn read_output(alloc: Global, line: &[u8]) -> Result<Option<FaceOutput>, AllocError>
    ensures { IfOk result (IsRead output_of IsRightOutput line.now) }
{
    let (word, text) = match cut(line, b' ') {
        None => return Ok(None),
        Some(parts) => parts,
    };
    if word == b"output".as_slice() {
        if !is_cell_name(text) {
            return Ok(None);
        }
        let name = Name::new(alloc, text)?;
        return Ok(Some(FaceOutput::Named(name)));
    }
    if word != b"note".as_slice() {
        return Ok(None);
    }
    match short(text) {
        None => Ok(None),
        Some(number) => Ok(Some(FaceOutput::Noted(number))),
    }
}
