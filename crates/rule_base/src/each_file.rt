//! The files of one worker, in order.

ghost use Rattle.std.specs.Prelude.{◌≤◌, ◌+◌, length};
ghost use Rattle.m_places.specs.Refusals.{Outcome};
ghost use Rattle.m_places.specs.declared.limits.TheConstants.{FILE_BYTES, LIST_FILES};
ghost use Rattle.m_places.specs.SourceLimits.{EachIsWithin};
ghost use Rattle.rule_base.specs.Files.{SaysItems, IsFileFault, SayEach, IsFirstFileFault};
ghost use Rattle.rule_base.specs.declared.read_fault.ReadFault.TheVariants.{Memory};

use crate::read_fault::ReadFault;
use m_ast::Item;
use m_items::parse;
use m_lexer::lex;
use m_places::{Seq, Text};
use std::alloc::Global;

/// The items of each of these files, or the error of the first file that fails. `number` is the
/// first file's number. A file's tokens are dropped before the next file is read.
pub(crate) fn read_files(
    alloc: Global,
    start: usize,
    texts: &[Text],
) -> Result<Vec<Seq<Item>>, ReadFault>
    requires few { start + length texts.now ≤ LIST_FILES }
    requires each { EachIsWithin texts.now }
    ensures { Outcome Memory result (λ files. SayEach start texts.now files.items) (IsFirstFileFault start texts.now) }
{
    let mut files = Vec::new(alloc);
    let mut number = start as u32;
    for text in texts {
        let items = file_items(alloc, text, number)?;
        files.push(items)?;
        number += 1;
    }
    Ok(files)
}

// The items of the file with this number, or its error.
fn file_items(alloc: Global, text: &Text, number: u32) -> Result<Seq<Item>, ReadFault>
    requires { length text.now.bytes ≤ FILE_BYTES }
    ensures { Outcome Memory result (SaysItems number text.now) (IsFileFault number text.now) }
{
    let tokens = lex(alloc, text.bytes.as_slice(), number)?;
    let items = parse(alloc, tokens.as_slice())?;
    Ok(items)
}
