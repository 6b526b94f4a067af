//! The public readers of declarations, from tokens to trees and positions.
ghost use Rattle.std.specs.Prelude.{◌≡◌};
ghost use Rattle.m_places.specs.Refusals.{Outcome};
ghost use Rattle.m_items.specs.declared.item_fault.ItemFault.TheVariants.{Memory};
ghost use Rattle.m_items.specs.Standing.{DeclarationAt, NoDeclaration, ApplicationsStand, NoApplications};

use crate::cursor::ItemCursor;
use crate::declarations::declaration;
use crate::item_fault::ItemFault;
use crate::lists::applications;
use m_ast::Item;
use m_lexer::{Sign, Token};
use m_places::{Name, Seq};
use std::alloc::Global;

/// The declaration at the start of the tokens, and the position after it: a variable, an error, or
/// an `application` or `enchaineur` item.
///
/// In `SEUIL : const = 1000 ; IRN` it is the first six tokens, and the position is 6. `NoItem` is
/// returned exactly if no prefix of the tokens parses as a declaration.
pub fn read_declaration(alloc: Global, tokens: &[Token]) -> Result<(Item, usize), ItemFault>
    ensures outcome { Outcome Memory result (λ read. DeclarationAt tokens.now read.0 read.1) (λ fault. NoDeclaration tokens.now) }
{
    let mut cursor = ItemCursor::new(tokens);
    let item = declaration(alloc, &mut cursor)?;
    Ok((item, tokens.len() - cursor.len()))
}

/// The applications at the start of the tokens, and the position after them, at which no comma
/// follows.
///
/// In `application : iliad , batch ;` they are the first five tokens, and the position is 5.
/// `NoItem` is returned exactly if no prefix of the tokens parses as applications without a comma
/// after them.
pub fn read_applications(alloc: Global, tokens: &[Token]) -> Result<(Seq<Name>, usize), ItemFault>
    ensures outcome { Outcome Memory result (λ read. ApplicationsStand tokens.now read.0 read.1) (λ fault. NoApplications tokens.now) }
{
    let mut cursor = ItemCursor::new(tokens);
    let names = applications(alloc, &mut cursor)?;
    if cursor.is_at_sign(Sign::Comma) {
        return Err(ItemFault::NoItem);
    }
    Ok((names, tokens.len() - cursor.len()))
}
