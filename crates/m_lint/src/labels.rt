//! The labels that may be reported, by their text.

ghost use Rattle.std.specs.Prelude.{◌≡◌, ◌++◌, [], IfOk, OnOk, length};
ghost use Rattle.m_names.specs.Names.{has};
ghost use Rattle.m_lint.specs.inner.Loud.{coded_word, coded_label, kind_number, with_name, with_label, with_labels};

use m_names::{Key, Names, NamesDigest};
use m_places::{ErrorKind, Label};
use observables::FaceLabel;
use std::alloc::{AllocError, Global};

/// The texts of the marked labels that are verifications'.
pub(crate) fn marked_labels(
    alloc: Global,
    labels: &[FaceLabel],
    marks: &[bool],
) -> Result<Names, AllocError>
    requires { length labels.now ≡ length marks.now }
    ensures { IfOk result (λ names. names ≡ with_labels labels.now marks.now []) }
{
    let mut names = Names::under(alloc, key_of(labels));
    for (k, label) in labels.iter().enumerate() {
        add_label(alloc, label, marks[k], &mut names)?;
    }
    Ok(names)
}

// A hash key derived from all labels, so that no choice of labels makes them collide.
fn key_of(labels: &[FaceLabel]) -> Key {
    let mut digest = NamesDigest::new();
    for label in labels {
        if let FaceLabel::Verif(label) = label {
            digest.take(label.verif.bytes());
            digest.take(label.error.bytes());
        }
    }
    digest.key()
}

fn add_label(
    alloc: Global,
    label: &FaceLabel,
    mark: bool,
    names: &mut Names,
) -> Result<(), AllocError>
    ensures { OnOk result (names.new ≡ with_label label.now mark names.old) }
{
    match label {
        FaceLabel::Verif(label) => {
            if mark {
                add_coded(alloc, label, names)
            } else {
                Ok(())
            }
        }
        FaceLabel::DriverLine(_) => Ok(()),
    }
}

fn add_coded(alloc: Global, label: &Label, names: &mut Names) -> Result<(), AllocError>
    ensures { OnOk result (names.new ≡ with_name (coded_label label.now) names.old) }
{
    let code = coded_label(alloc, label)?;
    names.add(alloc, &code)?;
    Ok(())
}

/// Whether the text of a label is among these.
pub(crate) fn has_text(alloc: Global, label: &Label, names: &Names) -> Result<bool, AllocError>
    ensures { IfOk result (λ there. there ≡ has (coded_label label.now) names.now) }
{
    let code = coded_label(alloc, label)?;
    Ok(names.find(&code).is_some())
}

// The text that encodes a label.
fn coded_label(alloc: Global, label: &Label) -> Result<Vec<u8>, AllocError>
    ensures { IfOk result (λ code. code.items ≡ coded_label label.now) }
{
    let mut code = Vec::new(alloc);
    add_word(label.verif.bytes(), &mut code)?;
    add_word(label.error.bytes(), &mut code)?;
    code.push(kind_number(label.kind))?;
    code.extend_from_slice(label.text.bytes())?;
    Ok(code)
}

// Appends a word, encoded so that its end is unambiguous.
fn add_word(word: &[u8], code: &mut Vec<u8>) -> Result<(), AllocError>
    ensures { OnOk result (code.new.items ≡ code.old.items ++ coded_word word.now) }
{
    for byte in word {
        code.push(1)?;
        code.push(*byte)?;
    }
    code.push(0)?;
    Ok(())
}

fn kind_number(kind: ErrorKind) -> u8
    ensures { result ≡ kind_number kind }
{
    match kind {
        ErrorKind::Anomalie => 0,
        ErrorKind::Discordance => 1,
        ErrorKind::Informative => 2,
    }
}
