//! A reporter: an ordered base and an environment, over which it explains values of cells.

ghost use Rattle.std.specs.Prelude.{◌≡◌, ◌<◌, All, IfOk, length};
ghost use Rattle.micro_m.specs.Bases.{IsValidBase};
ghost use Rattle.micro_m.specs.Values.{environment};
ghost use Rattle.m_symbols.specs.Declarations.{Declared};
ghost use Rattle.m_symbols.specs.Placed.{IsPlaced};
ghost use Rattle.rule_order.specs.Orders.{IsOrder};
ghost use Rattle.why_report.specs.Reasons.{IsReasonOf, why_lines};
ghost use Rattle.why_report.specs.Starts.{IsStart, begun, with_input, with_lines};

use crate::ReportLine;
use crate::lines::fill_lines;
use crate::needed::{find_needed, forget};
use crate::places::places_of;
use crate::plan::{Plan, plan_of};
use crate::room::{Room, room_for};
use crate::starts::{input_cells, start_env};
use crate::terms::{Terms, terms_of};
use m_fixed::Value;
use m_symbols::Symbols;
use rule_order::Ordered;
use std::alloc::{AllocError, Global};
use std::marker::Model;
use std::snapshot::Snapshot;

/// An ordered base with an environment whose inputs can be set. Contracts see the base and its
/// order, the cells and values of the inputs, the environment, and the lines that were found last.
/// The base itself isn't kept: its terms are, in one list.
#[derive(Drop)]
pub struct Reporter {
    // for contracts only: a ghost copy of no size
    ordered: Snapshot<Ordered>,
    terms: Terms,
    plan: Plan,
    room: Room,
    input_cells: Vec<u32>,
    inputs: Vec<Value>,
    env: Vec<Value>,
    found: usize,
}

impl Model for Reporter {
    ghost use Rattle.std.specs.Prelude.{take, length, ◌≤◌};
    ghost use Rattle.std.specs.Coded.{codes};
    ghost use Rattle.micro_m.specs.inner.Coding.{coded_tree};
    ghost use Rattle.why_report.specs.Starts.{Reporting};
    ghost use Rattle.why_report.specs.inner.Held.{IsReady};

    ghost Value = { Reporting };

    ghost coded = { Prim.hlevel (codes, coded_tree) };

    ghost view = { λ r. record {
      ordered = r.ordered.value;
      input_cells = r.input_cells.items;
      inputs = r.inputs.items;
      env = r.env.items;
      lines = take r.found r.room.lines.items;
    } };

    ghost invariant = { λ r. IsReady r.ordered.value r.terms r.plan r.room r.input_cells.items (length r.inputs.items) (length r.env.items)
        × (r.found ≤ r.ordered.value.base.cells) };
}

impl Reporter {
    /// A reporter over an ordered valid base and the declarations. All inputs are undefined, and
    /// constants have their amounts. Its only error is running out of memory; no later call takes
    /// memory.
    pub fn new(alloc: Global, ordered: Ordered, symbols: &Symbols) -> Result<Reporter, AllocError>
        requires valid { IsValidBase ordered.base }
        requires order { IsOrder ordered.base ordered.sequence }
        requires placed { IsPlaced symbols.now }
        ensures begun { IfOk result (λ reporter. reporter ≡ begun ordered symbols.now) }
        ensures start { IfOk result (IsStart symbols.now) }
    {
        let places = places_of(alloc, &ordered.base)?;
        let terms = terms_of(alloc, &ordered.base, &places)?;
        let plan = plan_of(alloc, &ordered, &places)?;
        let room = room_for(alloc, ordered.base.cells, terms.height)?;
        let input_cells = input_cells(alloc, symbols)?;
        let inputs = vec![in alloc; Value::Undef; input_cells.len()]?;
        let env = start_env(alloc, symbols)?;
        let kept = Snapshot::of(&ordered);
        drop(ordered);
        drop(places);
        Ok(Reporter {
            ordered: kept,
            terms,
            plan,
            room,
            input_cells,
            inputs,
            env,
            found: 0,
        })
    }

    /// Sets an input, by its number, to a value.
    pub fn put(&mut self, input: u32, v: Value)
        requires { input < length self.old.inputs }
        ensures put { self.new ≡ with_input self.old input v }
        ensures start { (declared : Declared) → IsStart declared self.old → IsStart declared self.new }
    {
        let cell = self.input_cells[input as usize];
        self.inputs[input as usize] = v;
        self.env[cell as usize] = self.inputs[input as usize];
    }

    /// Finds why a cell has its value: the lines of a sound derivation, of which the last is the
    /// cell's, and each other line's cell is read by a later line. The time is linear in the lines
    /// and the terms of their cells. Changes only the lines, and takes no memory.
    pub fn why(&mut self, cell: u32)
        requires { cell < self.old.ordered.base.cells }
        ensures lines { self.new ≡ with_lines self.old (why_lines self.old.ordered (environment self.old.env) cell) }
        ensures reason { IsReasonOf self.old.ordered.base (environment self.old.env) cell self.new.lines }
        ensures known { All (λ line. line.cell < self.old.ordered.base.cells) self.new.lines }
        ensures start { (declared : Declared) → IsStart declared self.old → IsStart declared self.new }
    {
        let room = &mut self.room;
        let from = find_needed(
            &self.ordered,
            &self.terms,
            &self.plan,
            cell,
            &mut room.marked,
            &mut room.known,
            &mut room.needed,
        );
        let cells = &room.needed[from..];
        forget(cells, &mut room.marked, &mut room.known);
        fill_lines(
            &self.ordered,
            &self.terms,
            &self.env,
            cells,
            &mut room.values,
            &mut room.stack,
            &mut room.lines,
        );
        self.found = cells.len();
    }

    /// The lines that were found last; empty before the first call of `why`.
    pub fn lines(&self) -> &[ReportLine]
        ensures { result.now ≡ self.now.lines }
    {
        &self.room.lines[..self.found]
    }
}
