//! The declarations in which the names of a driver are looked up.

ghost use Rattle.std.specs.Prelude.{◌≡◌, IfOk};
ghost use Rattle.m_symbols.specs.Placed.{IsPlaced};
ghost use Rattle.mpp_parser.specs.declared.term.Kind.TheVariants.{Attribute};
ghost use Rattle.mpp_core.specs.Names.{kind_cells};

use driver_core::{KindCells, KindIndex};
use m_fixed::Amount;
use m_places::{Name, Seq};
use m_symbols::Symbols;
use mpp_parser::Kind;
use std::alloc::{AllocError, Global};
use std::marker::Model;
use std::rc::Rc;

/// The declarations, with an index of the inputs by kinds, which is built once. Contracts see the
/// declarations.
#[derive(Drop)]
pub(crate) struct Scope<'a> {
    symbols: &'a Symbols,
    kinds: Rc<KindIndex>,
}

impl<'a> Model for Scope<'a> {
    ghost use Rattle.m_symbols.specs.Declarations.{Declared};

    ghost Value = { Declared };

    ghost use Rattle.driver_core.specs.Kinds.{IsIndexOf};

    ghost view = { λ s. s.symbols.now };

    ghost invariant = { λ s. IsIndexOf s.symbols.now.variables s.kinds.value };
}

impl<'a> Scope<'a> {
    /// The scope of these declarations.
    pub(crate) fn new(alloc: Global, symbols: &'a Symbols) -> Result<Scope<'a>, AllocError>
        ensures { IfOk result (λ scope. scope ≡ symbols.now) }
    {
        let kinds = Rc::new(alloc, KindIndex::of(alloc, symbols)?)?;
        Ok(Scope { symbols, kinds })
    }

    /// The declarations.
    pub(crate) fn symbols(&self) -> &Symbols
        ensures { result.now ≡ self.now }
    {
        self.symbols
    }

    /// The cells of the inputs of a kind, in order of declaration.
    pub(crate) fn kind_cells(&self, alloc: Global, kind: &Kind) -> Result<KindCells, AllocError>
        requires { IsPlaced self.now }
        ensures { IfOk result (λ cells. cells ≡ kind_cells self.now kind.now) }
    {
        match kind {
            Kind::Attribute(attribute, values) => self.cells_with(alloc, attribute, values),
        }
    }

    // The cells of the inputs whose attribute has one of these values.
    fn cells_with(
        &self,
        alloc: Global,
        attribute: &Name,
        values: &Seq<Amount>,
    ) -> Result<KindCells, AllocError>
        requires { IsPlaced self.now }
        ensures { IfOk result (λ cells. cells ≡ kind_cells self.now (Attribute attribute.now values.now)) }
    {
        KindCells::new(alloc, &self.kinds, attribute.bytes(), values.as_slice())
    }
}
