use crate::Variable;
use m_ast::ErrorItem;
use m_names::Names;
use std::marker::Model;

/// The variables and errors that rule files declare, indexed for look-ups. Contracts see the two
/// lists; that the indexes agree with them is the invariant of the type.
#[derive(Drop)]
pub struct Symbols {
    pub(crate) tables: Tables,
}

/// Declarations in order, and their indexes. The indexes keep copies of the names and codes.
#[derive(Drop)]
pub(crate) struct Tables {
    pub(crate) variables: Vec<Variable>,
    pub(crate) names: Names,
    /// No name of a variable has more bytes.
    pub(crate) longest: usize,
    /// For each cell the number of its variable.
    pub(crate) owners: Vec<u32>,
    /// For each input the number of its variable.
    pub(crate) inputs: Vec<u32>,
    /// The codes of the inputs.
    pub(crate) codes: Names,
    pub(crate) errors: Vec<ErrorItem>,
    pub(crate) error_names: Names,
}

impl Model for Symbols {
    ghost use Rattle.m_symbols.specs.Declarations.{Declared};

    ghost Value = { Declared };

    ghost use Rattle.m_symbols.specs.inner.Tables.{declared_in, AreIndexed};

    ghost view = { λ s. declared_in s.tables };

    ghost invariant = { λ s. AreIndexed s.tables };
}
