//! The items of rule files.

ghost use Rattle.std.specs.Prelude.{◌≡◌, ◌<◌, ◌^◌, All, IfOk, length};
ghost use Rattle.m_places.specs.Refusals.{Outcome};
ghost use Rattle.m_places.specs.SourceLimits.{TextsAreWithin};
ghost use Rattle.m_ast.specs.Whole.{IsWholeItem};
ghost use Rattle.rule_base.specs.Files.{SayAll, all_items};
ghost use Rattle.rule_base.specs.inner.Parts.{IsReadFault};
ghost use Rattle.rule_base.specs.declared.fault.RuleFault.TheVariants.{Memory};

use crate::RuleFault;
use crate::read::read_all;
use m_ast::Item;
use m_places::{Open, Seq, Text};
use std::alloc::{AllocError, Global};
use std::thread::Threads;

/// The items of all files in order, or the error of the first file that fails. Several workers read
/// the files.
pub(crate) fn items_of<R: Threads + Sync>(
    rt: &R,
    alloc: Global,
    texts: &[Text],
) -> Result<Vec<Item>, RuleFault>
    requires { TextsAreWithin texts.now }
    ensures outcome { Outcome Memory result (λ items. SayAll 0 texts.now items.items) (IsReadFault texts.now) }
    ensures whole { IfOk result (λ items. All IsWholeItem items.items) }
    ensures few { IfOk result (λ items. length items.items < 2 ^ 32) }
{
    let files = read_all(rt, alloc, texts, &Open)?;
    let items = joined(alloc, files)?;
    Ok(items)
}

// The concatenated items of files. Its only error is running out of memory.
fn joined(alloc: Global, files: Seq<Seq<Item>>) -> Result<Vec<Item>, AllocError>
    ensures { IfOk result (λ items. items.items ≡ all_items files) }
{
    let mut items = Vec::new(alloc);
    for file in files.into_vec() {
        let mut more = file.into_vec();
        items.append(&mut more)?;
    }
    Ok(items)
}
