//! The reader of all items.
ghost use Rattle.std.specs.Prelude.{◌≡◌, [], All, IfOk, OnOk};
ghost use Rattle.m_places.specs.Refusals.{Outcome};
ghost use Rattle.m_ast.specs.Whole.{IsWholeItem};
ghost use Rattle.m_items.specs.declared.fault.ParseFault.TheVariants.{Memory};
ghost use Rattle.m_items.specs.Grammar.{SpellsItems};
ghost use Rattle.m_items.specs.Faults.{IsShallow, IsParseFault};

use crate::cursor::ItemCursor;
use crate::fault::ParseFault;
use crate::items::read_items;
use m_ast::Item;
use m_lexer::Token;
use m_places::Seq;
use m_terms::depth_fault;
use std::alloc::Global;

/// The items of a file, in order: all tokens must parse as items.
///
/// `TooDeep` is returned exactly if brackets and conditionals are nested more than 256 deep, with
/// the first such place. Otherwise `Syntax` is returned exactly if the tokens don't parse as a list
/// of items. Its place is that of the first token after the longest prefix that does: in
/// `regle 1 : application : iliad ; A = 1 ; B + 2 ;` it is that of `B`, and if the tokens end after
/// `regle 11`, it is that of `regle`.
pub fn parse(alloc: Global, tokens: &[Token]) -> Result<Seq<Item>, ParseFault>
    ensures outcome { Outcome Memory result (λ items. SpellsItems items tokens.now []) (λ fault. IsParseFault tokens.now fault) }
    ensures shallow { OnOk result (IsShallow tokens.now) }
    ensures whole { IfOk result (λ items. All IsWholeItem items) }
{
    if let Some(place) = depth_fault(tokens) {
        return Err(ParseFault::TooDeep(place));
    }
    let mut cursor = ItemCursor::new(tokens);
    let items = read_items(alloc, &mut cursor)?;
    match cursor.next() {
        None => Ok(Seq::from_vec(items)),
        Some(token) => Err(ParseFault::Syntax(token.place)),
    }
}
