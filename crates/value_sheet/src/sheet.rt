//! The sheet.
ghost use Rattle.std.specs.Prelude.{◌≡◌, ◌+◌, ◌*◌, ◌<◌, ◌↔◌, false, true, IsTrue, IfOk, length, replicate, slice_set};
ghost use Rattle.m_fixed.specs.declared.amount.Value.{Value};
ghost use Rattle.flat_code.specs.Runs.{first_stop, node_values, value_at};
ghost use Rattle.flat_code.specs.Touched.{touched};
ghost use Rattle.value_sheet.specs.Held.{fresh, output_value};

use crate::build::{input_rows_of, readers_of};
use crate::program::{checks_of, inputs_of, nodes_of, outputs_of};
use crate::rows::Rows;
use crate::settle::{Graph, settle_all};
use crate::steps::Steps;
use dirty_set::Bits;
use flat_code::{Tidy, stop_among, values_of};
use m_fixed::Value;
use observables::Stop;
use std::alloc::{AllocError, Global};
use std::marker::Model;
use std::snapshot::Snapshot;
use std::sync::ledger::Ledger;

/// The values of a flat program's nodes, kept between changes of inputs. Contracts see the program,
/// the inputs of the last settled state, the current inputs, and which inputs were set since;
/// neither values, marks nor edges.
#[derive(Drop)]
pub struct Sheet {
    tidy: Tidy,
    inputs: Vec<Value>,
    puts: Bits,
    // the value of each node in the last settled state
    kept: Vec<Value>,
    // empty between calls
    marks: Bits,
    // for each node its readers, and for each input its nodes
    readers: Rows,
    input_rows: Rows,
    // the inputs of the last settled state, for contracts only: a ghost copy of no size
    last: Snapshot<Vec<Value>>,
}

impl Model for Sheet {
    ghost use Rattle.std.specs.Prelude.{length};
    ghost use Rattle.value_sheet.specs.Held.{Held};

    ghost Value = { Held };

    ghost use Rattle.value_sheet.specs.inner.Sound.{IsSheet};

    ghost view = { λ s. record { flat = s.tidy; settled = s.last.value.items; now = s.inputs.items; put = s.puts } };

    ghost invariant = { λ s. IsSheet s.tidy s.last.value.items s.inputs.items s.puts s.kept.items s.marks s.readers s.input_rows };
}

impl Sheet {
    /// The sheet of a tidy program whose inputs are all undefined. It is settled. The edges, three
    /// for each node, are numbered in 32 bits. The only error is running out of memory; no other
    /// call takes memory.
    pub fn new(alloc: Global, tidy: Tidy) -> Result<Sheet, AllocError>
        requires { 3 * length tidy.nodes < 4_294_967_295 }
        ensures { IfOk result (λ sheet. sheet ≡ fresh tidy) }
    {
        let count = inputs_of(&tidy);
        let nodes = nodes_of(&tidy);
        let readers = readers_of(alloc, nodes)?;
        let input_rows = input_rows_of(alloc, nodes, count)?;
        let inputs = vec![in alloc; Value::Undef; count as usize]?;
        let kept = values_of(alloc, nodes, &inputs)?;
        let marks = Bits::new(alloc, nodes.len() as u32)?;
        let puts = Bits::new(alloc, count)?;
        let last = Snapshot::of(&inputs);
        Ok(Sheet {
            tidy,
            inputs,
            puts,
            kept,
            marks,
            readers,
            input_rows,
            last,
        })
    }

    /// Sets an input, by number. Recomputes and marks nothing.
    pub fn put(&mut self, input: u32, value: Value)
        requires { input < self.old.flat.inputs }
        ensures { self.new ≡ record self.old { now = slice_set self.old.now input value; put = slice_set self.old.put input true } }
    {
        self.inputs[input as usize] = value;
        self.puts.insert(input);
    }

    /// Brings the values of all nodes up to date with the current inputs. Takes one step for each
    /// node that is touched between the inputs of the last settled state and the current ones.
    pub fn settle<L: Ledger>(&mut self, steps: &mut Steps<L>)
        ensures after { self.new ≡ record self.old { settled = self.old.now; put = replicate (length self.old.put) false } }
        ensures cost { steps.new ≡ steps.old + touched self.old.flat.nodes self.old.put self.old.settled self.old.now }
    {
        let graph = Graph {
            nodes: nodes_of(&self.tidy),
            readers: &self.readers,
            input_rows: &self.input_rows,
        };
        settle_all(
            &graph,
            &self.inputs,
            &self.puts,
            &mut self.kept,
            &mut self.marks,
            steps,
        );
        self.puts.clear();
        self.last = Snapshot::of(&self.inputs);
    }

    /// Whether no input was set since the last settled state. Then outputs and stops can be read.
    /// They can also be read if all inputs that were set have their former values again.
    pub fn settled(&self) -> bool
        ensures unput { IsTrue result ↔ (self.now.put ≡ replicate (length self.now.put) false) }
        ensures settled { IsTrue result → self.now.settled ≡ self.now.now }
    {
        match self.puts.first() {
            None => true,
            Some(_) => false,
        }
    }

    /// The current value of an input: the last one that was set, or undefined.
    pub fn input_value(&self, input: u32) -> Value
        requires { input < self.now.flat.inputs }
        ensures { result ≡ value_at self.now.now input }
    {
        self.inputs[input as usize]
    }

    /// The value of an output, by number. The current inputs must be those of the last settled
    /// state.
    pub fn output(&self, k: u32) -> Value
        requires settled { self.now.settled ≡ self.now.now }
        requires output { k < length self.now.flat.outputs }
        ensures { result ≡ output_value self.now.flat self.now.now k }
    {
        let node = outputs_of(&self.tidy)[k as usize];
        self.kept[node as usize]
    }

    /// The stop of the first check that causes one. The current inputs must be those of the last
    /// settled state.
    pub fn stop(&self) -> Option<Stop>
        requires { self.now.settled ≡ self.now.now }
        ensures { result ≡ first_stop (node_values self.now.now self.now.flat.nodes) self.now.flat.checks }
    {
        stop_among(checks_of(&self.tidy), &self.kept)
    }
}
