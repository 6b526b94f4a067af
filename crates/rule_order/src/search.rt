//! A depth-first search along the reads of definitions. It keeps its own stack, the path, instead
//! of recursing, and builds no graph.

ghost use Rattle.std.specs.Prelude.{◌≡◌, ◌+◌, ◌<◌, ◌≤◌, ◌^◌, ◌∷◌, ◌++◌, [], IsTrue, ◌↔◌, length, IfOk, IfSome, IfNone, OnOk};
ghost use Rattle.std.specs.List.{sum_by};
ghost use Rattle.m_places.specs.Refusals.{Outcome};
ghost use Rattle.micro_m.specs.Bases.{IsValidBase, target_at};
ghost use Rattle.rule_order.specs.declared.fault.OrderFault.TheVariants.{Memory};
ghost use Rattle.rule_order.specs.Orders.{IsOrder, ShowsCycle};
ghost use Rattle.rule_order.specs.inner.Runs.{IsInRun};
ghost use Rattle.rule_order.specs.inner.Marks.{mark_of, steps_left, IsSettled, RunIsSettled, RunsFit, HasAdvanced};
ghost use Rattle.rule_order.specs.inner.Marks.{KnowsSettled, StopsAt, AllPassed, IsSearch, IsFrameAt, LastReads, cells_of, Walks};

use crate::OrderFault;
use crate::cycle::shown_cycle;
use crate::reads::{Run, add_reads};
use micro_m::Base;
use std::alloc::{AllocError, Global};

/// The state of a cell in the search.
#[derive(Clone, Copy)]
pub enum Mark {
    /// It has no definition, or its definition is in the sequence.
    Settled,
    /// It has the definition at this position, which isn't begun.
    Waiting(usize),
    /// Its definition is on the path.
    Open,
}

/// A definition on the path: its position and cell, the runs that it reads, and the index of the
/// first run that may have an unsettled cell. A frame is dropped when its definition is placed.
#[derive(Drop)]
pub struct Frame {
    pub position: usize,
    pub cell: usize,
    pub reads: Vec<Run>,
    pub next: usize,
}

/// The state of the search. `known` has for each cell a number of cells, from it on, that are
/// settled; so the second read of a table takes one step. `sequence` has the positions that are
/// placed.
#[derive(Drop)]
pub struct Search {
    pub marks: Vec<Mark>,
    pub known: Vec<usize>,
    pub sequence: Vec<u32>,
}

/// The positions of a base's definitions, each after those of all cells that it reads, or a cycle
/// of the base.
pub fn sequence_of(alloc: Global, base: &Base) -> Result<Vec<u32>, OrderFault>
    requires { IsValidBase base.now }
    ensures outcome { Outcome Memory result
        (λ sequence. IsOrder base.now sequence.items) (ShowsCycle base.now) }
{
    let mut search = Search {
        marks: first_marks(alloc, base)?,
        known: vec![in alloc; 0; base.cells as usize]?,
        sequence: Vec::new(alloc),
    };
    for position in 0..base.definitions.as_slice().len() {
        search.place(alloc, base, position)?;
    }
    Ok(search.sequence)
}

/// The marks before the search: each cell with a definition is waiting.
fn first_marks(alloc: Global, base: &Base) -> Result<Vec<Mark>, AllocError>
    requires { IsValidBase base.now }
    ensures { IfOk result (λ marks. IsSearch base.now marks.items [] []) }
{
    let mut marks = vec![in alloc; Mark::Settled; base.cells as usize]?;
    for (position, definition) in base.definitions.as_slice().iter().enumerate() {
        marks[definition.0 as usize] = Mark::Waiting(position);
    }
    Ok(marks)
}

impl Search {
    /// Places the definition at a position, after all definitions that it reads. No change if it is
    /// already placed.
    fn place(&mut self, alloc: Global, base: &Base, position: usize) -> Result<(), OrderFault>
        requires valid { IsValidBase base.now }
        requires fits { base.now.cells < 2 ^ 32 }
        requires position { position < length base.now.definitions }
        requires walk { Walks base.now self.old [] }
        ensures outcome { Outcome Memory result
            (λ _. Walks base.now self.new []
            × HasAdvanced self.old.marks.items self.new.marks.items
            × IsSettled self.new.marks.items (target_at base.now position)) (ShowsCycle base.now) }
    {
        if is_settled(self.marks[base.definitions.as_slice()[position].0 as usize]) {
            return Ok(());
        }
        let mut path = Vec::new(alloc);
        self.begin(alloc, base, position, &mut path)?;
        while let Some(frame) = path.pop() {
            self.turn(alloc, base, &mut path, frame)?;
        }
        Ok(())
    }

    /// Pushes the waiting definition at a position onto the path.
    fn begin(
        &mut self,
        alloc: Global,
        base: &Base,
        position: usize,
        path: &mut Vec<Frame>,
    ) -> Result<(), AllocError>
        requires valid { IsValidBase base.now }
        requires walk { Walks base.now self.old path.old.items }
        requires waiting { mark_of self.old.marks.items (target_at base.now position) ≡ Mark.Waiting position }
        requires reads { LastReads base.now (cells_of path.old.items) (target_at base.now position) }
        ensures walk { OnOk result (Walks base.now self.new path.new.items
            × HasAdvanced self.old.marks.items self.new.marks.items
            × (sum_by steps_left self.new.marks.items < sum_by steps_left self.old.marks.items)) }
        ensures begun { OnOk result (mark_of self.new.marks.items (target_at base.now position) ≡ Mark.Open) }
    {
        let frame = frame_at(alloc, base, position)?;
        self.marks[frame.cell] = Mark::Open;
        path.push(frame)?;
        Ok(())
    }

    /// One step of the search, for the last frame, which has been popped off the path. If all cells
    /// that it reads are settled, its definition is placed; otherwise it is pushed back, and the
    /// first unsettled cell is visited.
    fn turn(
        &mut self,
        alloc: Global,
        base: &Base,
        path: &mut Vec<Frame>,
        mut frame: Frame,
    ) -> Result<(), OrderFault>
        requires valid { IsValidBase base.now }
        requires fits { base.now.cells < 2 ^ 32 }
        requires walk { Walks base.now self.old (path.old.items ++ frame ∷ []) }
        ensures outcome { Outcome Memory result
            (λ _. Walks base.now self.new path.new.items
            × HasAdvanced self.old.marks.items self.new.marks.items
            × (sum_by steps_left self.new.marks.items < sum_by steps_left self.old.marks.items)) (ShowsCycle base.now) }
    {
        let found = first_unsettled(
            frame.reads.as_slice(),
            frame.next,
            self.marks.as_slice(),
            self.known.as_mut_slice(),
        );
        match found {
            None => {
                self.marks[frame.cell] = Mark::Settled;
                self.sequence.push(frame.position as u32)?;
                Ok(())
            }
            Some((next, cell)) => {
                frame.next = next;
                path.push(frame)?;
                self.go_on(alloc, base, path, cell)
            }
        }
    }

    /// Visits an unsettled cell that the last frame reads: begins its definition, or returns a
    /// cycle if it is already on the path.
    fn go_on(
        &mut self,
        alloc: Global,
        base: &Base,
        path: &mut Vec<Frame>,
        cell: usize,
    ) -> Result<(), OrderFault>
        requires valid { IsValidBase base.now }
        requires fits { base.now.cells < 2 ^ 32 }
        requires walk { Walks base.now self.old path.old.items }
        requires unsettled { IsSettled self.old.marks.items cell → ⊥ }
        requires reads { LastReads base.now (cells_of path.old.items) cell }
        ensures outcome { Outcome Memory result
            (λ _. Walks base.now self.new path.new.items
            × HasAdvanced self.old.marks.items self.new.marks.items
            × (sum_by steps_left self.new.marks.items < sum_by steps_left self.old.marks.items)) (ShowsCycle base.now) }
    {
        match self.marks[cell] {
            Mark::Waiting(position) => {
                self.begin(alloc, base, position, path)?;
                Ok(())
            }
            Mark::Open => Err(OrderFault::Cycle(shown_cycle(alloc, path.as_slice(), cell)?)),
            Mark::Settled => unreachable!(),
        }
    }
}

/// The frame of a definition that is begun.
fn frame_at(alloc: Global, base: &Base, position: usize) -> Result<Frame, AllocError>
    requires { position < length base.now.definitions }
    ensures { IfOk result (IsFrameAt base.now position) }
{
    let definition = &base.definitions.as_slice()[position];
    let mut reads = Vec::new(alloc);
    add_reads(&definition.1, &mut reads)?;
    Ok(Frame {
        position,
        cell: definition.0 as usize,
        reads,
        next: 0,
    })
}

/// The first run, from an index on, with an unsettled cell, and its first such cell.
fn first_unsettled(
    reads: &[Run],
    from: usize,
    marks: &[Mark],
    known: &mut [usize],
) -> Option<(usize, usize)>
    requires fits { RunsFit (length marks.now) reads.now }
    requires from { from ≤ length reads.now }
    requires size { length known.old ≡ length marks.now }
    requires knows { KnowsSettled marks.now known.old }
    ensures knows { KnowsSettled marks.now known.new }
    ensures some { IfSome result (λ found. StopsAt marks.now reads.now from found.0 found.1) }
    ensures none { IfNone result (AllPassed marks.now reads.now from (length reads.now)) }
{
    for place in from..reads.len() {
        if let Some(cell) = unsettled_in(reads[place], marks, known) {
            return Some((place, cell));
        }
    }
    None
}

/// The first unsettled cell of a run. Cells that are known to be settled are skipped.
fn unsettled_in(run: Run, marks: &[Mark], known: &mut [usize]) -> Option<usize>
    requires fits { run.first + run.count ≤ length marks.now }
    requires size { length known.old ≡ length marks.now }
    requires knows { KnowsSettled marks.now known.old }
    ensures knows { KnowsSettled marks.now known.new }
    ensures some { IfSome result (λ c. IsInRun run c × (IsSettled marks.now c → ⊥)) }
    ensures none { IfNone result (RunIsSettled marks.now run) }
{
    if run.count == 0 {
        return None;
    }
    let passed = passed_from(run, known[run.first], marks);
    known[run.first] = passed;
    if passed < run.count {
        Some(run.first + passed)
    } else {
        None
    }
}

/// A number of cells, from the first cell of a run on, that are settled; it ends at an unsettled
/// cell or covers the run. The first `known` ones are known to be settled.
fn passed_from(run: Run, known: usize, marks: &[Mark]) -> usize
    requires fits { run.first + run.count ≤ length marks.now }
    requires knows { RunIsSettled marks.now record run { count = known } }
    ensures knows { RunIsSettled marks.now record run { count = result } }
    ensures stops { result < run.count → IsSettled marks.now (run.first + result) → ⊥ }
{
    for passed in known..run.count {
        if !is_settled(marks[run.first + passed]) {
            return passed;
        }
    }
    known.max(run.count)
}

fn is_settled(mark: Mark) -> bool
    ensures { IsTrue result ↔ (mark ≡ Mark.Settled) }
{
    match mark {
        Mark::Settled => true,
        Mark::Waiting(_) | Mark::Open => false,
    }
}
