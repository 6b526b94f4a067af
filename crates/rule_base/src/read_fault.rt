//! Why rule files don't parse.

ghost use Rattle.std.specs.Prelude.{◌≡◌};
ghost use Rattle.rule_base.specs.declared.read_fault.ReadFault.TheVariants.{Memory};
ghost use Rattle.rule_base.specs.inner.FileSteps.{lex_step, parse_step};

use m_items::ParseFault;
use m_lexer::LexFault;
use std::alloc::{AllocError, AllocFailed};

/// Why rule files don't parse: the error of the first file that fails. No variant holds the lexer's
/// or the parser's own `Memory`: running out of memory is always the `Memory` of this type.
#[derive(Clone, Copy, Debug, PartialEq, Eq)]
pub enum ReadFault {
    /// A file can't be cut into tokens.
    Lex(LexFault),
    /// The tokens of a file don't parse.
    Parse(ParseFault),
    /// Out of memory.
    Memory,
}

impl From<LexFault> for ReadFault {
    ghost from_gives = { λ e f. f ≡ lex_step e };

    fn from(fault: LexFault) -> ReadFault {
        match fault {
            LexFault::Memory => ReadFault::Memory,
            LexFault::BadByte(place) => ReadFault::Lex(LexFault::BadByte(place)),
            LexFault::OpenString(place) => ReadFault::Lex(LexFault::OpenString(place)),
            LexFault::NumberTooGreat(place) => ReadFault::Lex(LexFault::NumberTooGreat(place)),
        }
    }
}

impl From<ParseFault> for ReadFault {
    ghost from_gives = { λ e f. f ≡ parse_step e };

    fn from(fault: ParseFault) -> ReadFault {
        match fault {
            ParseFault::Memory => ReadFault::Memory,
            ParseFault::TooDeep(place) => ReadFault::Parse(ParseFault::TooDeep(place)),
            ParseFault::Syntax(place) => ReadFault::Parse(ParseFault::Syntax(place)),
        }
    }
}

impl From<AllocError> for ReadFault {
    ghost from_gives = { λ _ f. f ≡ Memory };

    fn from(_error: AllocError) -> ReadFault {
        ReadFault::Memory
    }
}

impl<T: Drop> From<AllocFailed<T>> for ReadFault {
    ghost from_gives = { λ _ f. f ≡ Memory };

    fn from(_error: AllocFailed<T>) -> ReadFault {
        ReadFault::Memory
    }
}
