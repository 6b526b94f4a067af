//! Why rule files have no base.

ghost use Rattle.std.specs.Prelude.{◌≡◌};
ghost use Rattle.rule_base.specs.declared.fault.RuleFault.TheVariants.{Memory};
ghost use Rattle.rule_base.specs.inner.Steps.{read_step, declare_step, expand_step, resolve_step};

use crate::read_fault::ReadFault;
use index_expand::ExpandFault;
use m_items::ParseFault;
use m_lexer::LexFault;
use m_places::{Name, Seq};
use m_resolve::ResolveFault;
use m_symbols::DeclareFault;
use std::alloc::{AllocError, AllocFailed};

/// Why rule files have no base: the error of the earliest step that fails. No variant holds a
/// step's own `Memory`: running out of memory is always the `Memory` of this type.
#[derive(Drop)]
pub enum RuleFault {
    /// A file can't be cut into tokens.
    Lex(LexFault),
    /// The tokens of a file don't parse.
    Parse(ParseFault),
    /// A bad declaration.
    Declare(DeclareFault),
    /// A bad loop.
    Expand(ExpandFault),
    /// A name that doesn't resolve.
    Resolve(ResolveFault),
    /// A cycle of cells, by their names.
    Cycle(Seq<Name>),
    /// Out of memory.
    Memory,
}

impl From<ReadFault> for RuleFault {
    ghost from_gives = { λ e f. f ≡ read_step e };

    fn from(fault: ReadFault) -> RuleFault {
        match fault {
            ReadFault::Lex(fault) => RuleFault::Lex(fault),
            ReadFault::Parse(fault) => RuleFault::Parse(fault),
            ReadFault::Memory => RuleFault::Memory,
        }
    }
}

impl From<DeclareFault> for RuleFault {
    ghost from_gives = { λ e f. f ≡ declare_step e };

    fn from(fault: DeclareFault) -> RuleFault {
        RuleFault::Declare(match fault {
            DeclareFault::Memory => return RuleFault::Memory,
            DeclareFault::DeclaredTwice(name, earlier, later) => {
                DeclareFault::DeclaredTwice(name, earlier, later)
            }
            DeclareFault::AliasTwice(code, earlier, later) => {
                DeclareFault::AliasTwice(code, earlier, later)
            }
            DeclareFault::TableSize(place) => DeclareFault::TableSize(place),
            DeclareFault::TooManyCells(place) => DeclareFault::TooManyCells(place),
        })
    }
}

impl From<ExpandFault> for RuleFault {
    ghost from_gives = { λ e f. f ≡ expand_step e };

    fn from(fault: ExpandFault) -> RuleFault {
        RuleFault::Expand(match fault {
            ExpandFault::Memory => return RuleFault::Memory,
            ExpandFault::BadRange(place) => ExpandFault::BadRange(place),
            ExpandFault::LoopTooLarge(place) => ExpandFault::LoopTooLarge(place),
            ExpandFault::UnboundIndex(place) => ExpandFault::UnboundIndex(place),
            ExpandFault::TooManyParts(place) => ExpandFault::TooManyParts(place),
        })
    }
}

impl From<ResolveFault> for RuleFault {
    ghost from_gives = { λ e f. f ≡ resolve_step e };

    fn from(fault: ResolveFault) -> RuleFault {
        RuleFault::Resolve(match fault {
            ResolveFault::Memory => return RuleFault::Memory,
            ResolveFault::UnknownName(name, place) => ResolveFault::UnknownName(name, place),
            ResolveFault::NotATable(name, place) => ResolveFault::NotATable(name, place),
            ResolveFault::IsATable(name, place) => ResolveFault::IsATable(name, place),
            ResolveFault::BadTarget(name, place) => ResolveFault::BadTarget(name, place),
            ResolveFault::DefinedTwice(name, place) => ResolveFault::DefinedTwice(name, place),
            ResolveFault::UnknownError(name, place) => ResolveFault::UnknownError(name, place),
        })
    }
}

impl From<AllocError> for RuleFault {
    ghost from_gives = { λ _ f. f ≡ Memory };

    fn from(_error: AllocError) -> RuleFault {
        RuleFault::Memory
    }
}

impl<T: Drop> From<AllocFailed<T>> for RuleFault {
    ghost from_gives = { λ _ f. f ≡ Memory };

    fn from(_error: AllocFailed<T>) -> RuleFault {
        RuleFault::Memory
    }
}
