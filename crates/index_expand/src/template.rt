//! What all definitions of a formula share.
ghost use Rattle.std.specs.Prelude.{◌+◌, ◌≤◌};
ghost use Rattle.index_expand.specs.declared.parts.TheConstants.{MOST};

use crate::parts::MOST;
use m_ast::{Formula, Term};
use m_places::{Name, Place};
use m_symbols::Symbols;

/// A formula with the data for its definitions, of which each instance of its loops has one or
/// more.
#[derive(Clone, Copy)]
pub(crate) struct Template<'a> {
    /// The symbol table.
    pub(crate) symbols: &'a Symbols,
    /// The place of the formula's rule.
    pub(crate) rule: Place,
    pub(crate) formula: &'a Formula,
    /// A term with the same meaning as the formula's.
    pub(crate) term: &'a Term,
    /// The number of parts of each definition, with one for the definition itself.
    pub(crate) weight: u64,
    ghost light: { weight ≤ MOST + 1 },
}

/// A letter and its value in an instance of a loop.
#[derive(Clone, Copy)]
pub(crate) struct Binding<'a> {
    pub(crate) letter: u8,
    pub(crate) value: &'a Name,
}
