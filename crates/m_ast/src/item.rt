//! Items of rule files: rules, verifications and errors, and their union with the other kinds.
ghost use Rattle.std.specs.Prelude.{◌≡◌, IfOk};

use crate::copies::{Duplicate, copy_all};
use crate::{Header, Term, VariableItem};
use m_places::{ErrorKind, Name, Place, Seq};
use std::alloc::{AllocError, Global};

/// The cells of its target that a formula sets.
#[derive(Clone, Copy, Debug, PartialEq, Eq)]
pub enum Slot {
    /// The target is written without an index.
    Whole,
    /// `T[3]`: the cell of this number, from 0.
    Cell(u32),
    /// `T[X]`: each cell.
    Every,
}

/// A formula: a target and the term that it is set to, once for each instance of its loops.
#[derive(Drop)]
pub struct Formula {
    /// The headers of `pour`, the outermost first.
    pub loops: Seq<Header>,
    pub target: Name,
    pub slot: Slot,
    pub term: Term,
    /// The place of the target.
    pub place: Place,
}

/// A rule: the applications that it belongs to, and its formulas.
#[derive(Drop)]
pub struct RuleItem {
    /// The rule's number, as spelled.
    pub number: Name,
    /// The place of its first token.
    pub place: Place,
    pub applications: Seq<Name>,
    /// Whether it has an `enchaineur` line. Such a rule isn't part of the base.
    pub chained: bool,
    pub formulas: Seq<Formula>,
}

/// A check of a verification. It fails if the condition is a number other than 0.
#[derive(Drop)]
pub struct CheckItem {
    pub condition: Term,
    /// The first word after `erreur`.
    pub error: Name,
    /// The place of its `si`.
    pub place: Place,
}

/// A verification: the applications that it belongs to, and its checks.
#[derive(Drop)]
pub struct VerifItem {
    /// The verification's number, as spelled.
    pub number: Name,
    /// The place of its first token.
    pub place: Place,
    pub applications: Seq<Name>,
    pub checks: Seq<CheckItem>,
}

/// The declaration of an error, which checks refer to.
#[derive(Drop)]
pub struct ErrorItem {
    pub name: Name,
    /// The place of the name.
    pub place: Place,
    pub kind: ErrorKind,
    /// Its four or five texts, in order.
    pub texts: Seq<Name>,
}

/// An item of a rule file.
#[derive(Drop)]
pub enum Item {
    Variable(VariableItem),
    Rule(RuleItem),
    Verif(VerifItem),
    Error(ErrorItem),
    /// An `application` or `enchaineur` item, which has no effect, and the place of its first
    /// token.
    Silent(Place),
}

impl Formula {
    /// An equal formula. Its only error is running out of memory.
    pub fn copy(&self, alloc: Global) -> Result<Formula, AllocError>
        ensures { IfOk result (λ f. f ≡ self.now) }
    {
        let loops = copy_all(alloc, self.loops.as_slice())?;
        let target = self.target.copy(alloc)?;
        let term = self.term.copy(alloc)?;
        Ok(Formula {
            loops,
            target,
            slot: self.slot,
            term,
            place: self.place,
        })
    }
}

impl RuleItem {
    /// An equal rule. Its only error is running out of memory.
    pub fn copy(&self, alloc: Global) -> Result<RuleItem, AllocError>
        ensures { IfOk result (λ r. r ≡ self.now) }
    {
        let number = self.number.copy(alloc)?;
        let applications = copy_all(alloc, self.applications.as_slice())?;
        let formulas = copy_all(alloc, self.formulas.as_slice())?;
        Ok(RuleItem {
            number,
            place: self.place,
            applications,
            chained: self.chained,
            formulas,
        })
    }
}

impl CheckItem {
    /// An equal check. Its only error is running out of memory.
    pub fn copy(&self, alloc: Global) -> Result<CheckItem, AllocError>
        ensures { IfOk result (λ c. c ≡ self.now) }
    {
        let condition = self.condition.copy(alloc)?;
        let error = self.error.copy(alloc)?;
        Ok(CheckItem {
            condition,
            error,
            place: self.place,
        })
    }
}

impl VerifItem {
    /// An equal verification. Its only error is running out of memory.
    pub fn copy(&self, alloc: Global) -> Result<VerifItem, AllocError>
        ensures { IfOk result (λ v. v ≡ self.now) }
    {
        let number = self.number.copy(alloc)?;
        let applications = copy_all(alloc, self.applications.as_slice())?;
        let checks = copy_all(alloc, self.checks.as_slice())?;
        Ok(VerifItem {
            number,
            place: self.place,
            applications,
            checks,
        })
    }
}

impl ErrorItem {
    /// An equal declaration. Its only error is running out of memory.
    pub fn copy(&self, alloc: Global) -> Result<ErrorItem, AllocError>
        ensures { IfOk result (λ e. e ≡ self.now) }
    {
        let name = self.name.copy(alloc)?;
        let texts = copy_all(alloc, self.texts.as_slice())?;
        Ok(ErrorItem {
            name,
            place: self.place,
            kind: self.kind,
            texts,
        })
    }
}

impl Item {
    /// An equal item. Its only error is running out of memory.
    pub fn copy(&self, alloc: Global) -> Result<Item, AllocError>
        ensures { IfOk result (λ i. i ≡ self.now) }
    {
        match self {
            Item::Variable(variable) => Ok(Item::Variable(variable.copy(alloc)?)),
            Item::Rule(rule) => Ok(Item::Rule(rule.copy(alloc)?)),
            Item::Verif(verif) => Ok(Item::Verif(verif.copy(alloc)?)),
            Item::Error(error) => Ok(Item::Error(error.copy(alloc)?)),
            Item::Silent(place) => Ok(Item::Silent(*place)),
        }
    }
}

impl Duplicate for Formula {
    fn duplicate(&self, alloc: Global) -> Result<Formula, AllocError> {
        self.copy(alloc)
    }
}

impl Duplicate for CheckItem {
    fn duplicate(&self, alloc: Global) -> Result<CheckItem, AllocError> {
        self.copy(alloc)
    }
}
