//! The trees of M: the items of a rule file, and rules without loops, in which every `pour`, every
//! `somme` and every `T[X] = ..` of a declared table is replaced by its instances.
//!
//! Uses amounts and names. Knows nothing of tokens or cells, nor of the values of terms. Contracts
//! see a `Term` and a `PTerm` as a `Syntax`, plain data, so equality of trees is equality of
//! syntax.
#![tactic(auto)]

mod copies;
mod copy_term;
mod header;
mod item;
mod members;
mod plain_members;
mod plain_name;
mod plain_rules;
mod plain_term;
mod term;
mod variable;

pub use header::{Header, Index, Span};
pub use item::{CheckItem, ErrorItem, Formula, Item, RuleItem, Slot, VerifItem};
pub use m_places::ErrorKind;
pub use members::is_single;
pub use plain_members::is_plain_single;
pub use plain_name::PlainName;
pub use plain_rules::{Condition, Definition, Plain};
pub use plain_term::{PLink, PMember, PNode, PTerm, plain};
pub use term::{Link, Member, Node, Term, made};
pub use variable::{Role, VariableItem};
