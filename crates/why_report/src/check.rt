//! Checks a derivation, line by line.

ghost use Rattle.std.specs.Prelude.{◌≡◌, ◌+◌, ◌<◌, [], IfOk, All, length, take, Some, IsTrue, ◌↔◌};
ghost use Rattle.std.specs.Bool.{OnTrue};
ghost use Rattle.micro_m.specs.Bases.{IsValidBase};
ghost use Rattle.micro_m.specs.Values.{environment};
ghost use Rattle.why_report.specs.Derivations.{IsDerivedAt, IsFindingOf};
ghost use Rattle.why_report.specs.inner.Standing.{KnowsStanding};
ghost use Rattle.why_report.specs.inner.Checked.{ArePlaces, Keeps, derived_value};

use crate::ReportLine;
use crate::places::{definition_at, places_of};
use crate::standing::term_is_marked;
use m_fixed::Value;
use micro_m::{Base, term_value};
use std::alloc::{AllocError, Global};

/// The state of a check, per cell: its value, whether a checked line has it, and in `known` the
/// length of a run from it on of cells known to have lines.
#[derive(Drop)]
struct Checked {
    values: Vec<Value>,
    marks: Vec<bool>,
    known: Vec<usize>,
}

/// The position, from 0, of the first unsound line of a derivation; `None` exactly if the
/// derivation is sound, as one without lines is. A line is unsound if an earlier line has its cell,
/// if it reads a cell that no earlier line has, or if its value differs: from its term's value
/// under the earlier lines, or without a definition from the environment's.
///
/// The base is valid, the environment has a value for each of its cells, and each line's cell is
/// one of them. The order of the definitions is irrelevant. The time is linear in the cells, the
/// definitions and the terms of the lines' cells; each table is scanned once. The only error is
/// running out of memory.
pub fn first_unsound(
    alloc: Global,
    base: &Base,
    env: &[Value],
    lines: &[ReportLine],
) -> Result<Option<u32>, AllocError>
    requires valid { IsValidBase base.now }
    requires values { length env.now ≡ base.now.cells }
    requires cells { All (λ line. line.cell < base.now.cells) lines.now }
    ensures { IfOk result (IsFindingOf base.now (environment env.now) lines.now) }
{
    let places = places_of(alloc, base)?;
    let mut checked = Checked::new(alloc, base.cells as usize)?;
    for position in 0..lines.len() {
        if !checked.take(base, &places, env, lines, position) {
            return Ok(Some(position as u32));
        }
    }
    Ok(None)
}

impl Checked {
    /// The state before the first line.
    fn new(alloc: Global, cells: usize) -> Result<Checked, AllocError>
        ensures { IfOk result (Keeps cells []) }
    {
        Ok(Checked {
            values: vec![in alloc; Value::Undef; cells]?,
            marks: vec![in alloc; false; cells]?,
            known: vec![in alloc; 0; cells]?,
        })
    }

    /// Adds the line at a position to the checked ones if it follows from them, and returns whether
    /// it does.
    fn take(
        &mut self,
        base: &Base,
        places: &[usize],
        env: &[Value],
        lines: &[ReportLine],
        position: usize,
    ) -> bool
        requires valid { IsValidBase base.now }
        requires places { ArePlaces base.now places.now }
        requires cells { All (λ line. line.cell < base.now.cells) lines.now }
        requires position { position < length lines.now }
        requires kept { Keeps base.now.cells (take position lines.now) self.old }
        ensures derived { IsTrue result ↔ IsDerivedAt base.now (environment env.now) lines.now position }
        ensures kept { OnTrue result (Keeps base.now.cells (take (position + 1) lines.now) self.new) }
    {
        let line = lines[position];
        let cell = line.cell as usize;
        if self.marks[cell] {
            return false;
        }
        let value = derived_value(
            base,
            places,
            env,
            cell,
            &self.marks,
            &self.values,
            &mut self.known,
        );
        if !is_value(value, line.value) {
            return false;
        }
        self.values[cell] = line.value;
        self.marks[cell] = true;
        true
    }
}

/// The value that follows for a cell from the checked lines, if they have all cells that its
/// definition reads.
fn derived_value(
    base: &Base,
    places: &[usize],
    env: &[Value],
    cell: usize,
    marks: &[bool],
    values: &[Value],
    known: &mut [usize],
) -> Option<Value>
    requires valid { IsValidBase base.now }
    requires places { ArePlaces base.now places.now }
    requires cell { cell < base.now.cells }
    requires marks_size { length marks.now ≡ base.now.cells }
    requires known_size { length known.old ≡ base.now.cells }
    requires knows { KnowsStanding marks.now known.old }
    ensures value { result ≡ derived_value base.now (environment env.now) marks.now values.now cell }
    ensures knows { KnowsStanding marks.now known.new }
{
    match definition_at(base, places, cell) {
        Some(term) => {
            if term_is_marked(term, marks, known) {
                Some(term_value(term, values))
            } else {
                None
            }
        }
        None => Some(value_at(env, cell)),
    }
}

/// The value of a cell, undefined beyond the last.
pub(crate) fn value_at(values: &[Value], cell: usize) -> Value
    ensures { result ≡ environment values.now cell }
{
    match values.get(cell) {
        Some(value) => *value,
        None => Value::Undef,
    }
}

/// Whether `found` is this value.
fn is_value(found: Option<Value>, value: Value) -> bool
    ensures { IsTrue result ↔ (found ≡ Some value) }
{
    match found {
        Some(other) => other == value,
        None => false,
    }
}
