//! Rules without loops.
use crate::Slot;
use crate::plain_name::PlainName;
use crate::plain_term::PTerm;
use m_places::{Name, Place, Seq, SharedName};

/// An instance of a formula: its target and the term that it is set to.
#[derive(Drop)]
pub struct Definition {
    pub target: PlainName,
    pub slot: Slot,
    pub term: PTerm,
    /// The place of the formula's target.
    pub place: Place,
}

/// A check of a verification, without loops.
#[derive(Drop)]
pub struct Condition {
    /// The verification's number, as spelled, shared by all its checks.
    pub verif: SharedName,
    /// The first word after `erreur`.
    pub error: Name,
    pub term: PTerm,
    /// The place of the check's `si`.
    pub place: Place,
}

/// The definitions and checks of an application, each in the order of the source.
#[derive(Drop)]
pub struct Plain {
    pub definitions: Seq<Definition>,
    pub conditions: Seq<Condition>,
}
