//! The interface of a program.
ghost use Rattle.std.specs.Prelude.{IsTrue};
ghost use Rattle.observables.specs.Outputs.{notes_stand_first};

use crate::Coded;
use m_places::{Label, Name, Seq};

/// What a stop or a note refers to: a verification, or the line, from 1, of a condition of the
/// driver.
#[derive(Drop)]
pub enum FaceLabel {
    Verif(Label),
    DriverLine(u32),
}

/// The purpose of an output: a named value, as `IRN` or `T[1]`, or a note of the verification whose
/// label has this number. A note is reported if its value is a number other than 0.
#[derive(Drop)]
pub enum FaceOutput {
    Named(Name),
    Noted(u32),
}

/// The interface of a program: its inputs, the labels of its stops and notes, and its outputs, each
/// numbered from 0.
///
/// Notes come before names, and each has the number of a verification's label.
#[derive(Drop)]
pub struct Face {
    pub inputs: Seq<Coded>,
    pub labels: Seq<FaceLabel>,
    pub outputs: Seq<FaceOutput>,
    ghost notes: { IsTrue (notes_stand_first labels outputs) },
}
