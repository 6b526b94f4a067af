//! Two workers meet at a gate that one thread can't pass, in any order of the rows: when rows are answered, and when
//! they are printed, as the commands `batch` and `cases` do.
ghost use Rattle.std.specs.Prelude.{◌≡◌, IfOk};
ghost use Rattle.std.specs.List.{AllByRecursion};
ghost use Rattle.m_batch.specs.Batch.{HasInputsBelow};

use crate::numbers::number;
use household::{Household, Pair, Row};
use m_batch::{RowPrinter, print_batch, run_batch};
use m_fixed::{Amount, Op};
use m_places::{Gate, Name, Seq};
use m_ports::{Failed, FixedText, Sink, give_all};
use observables::Answer;
use reg_machine::{Code, Instr, make_code};
use std::alloc::{AllocError, Global};
use std::sync::atomic::{AtomicU64, Ordering};
use std::test::Fail;
use std::thread::Threads;

// The flags are 1 once the worker of the row has arrived, and the `saw` values once it has seen the other's flag.
#[derive(Drop)]
struct Both {
    first: AtomicU64,
    last: AtomicU64,
    first_saw: AtomicU64,
    last_saw: AtomicU64,
}

fn new_gate() -> Both {
    Both {
        first: AtomicU64::new(0),
        last: AtomicU64::new(0),
        first_saw: AtomicU64::new(0),
        last_saw: AtomicU64::new(0),
    }
}

fn meet(own: &AtomicU64, other: &AtomicU64, saw: &AtomicU64) {
    own.store(1, Ordering::SeqCst);
    for _ in 0..200_000_000u64 {
        if other.load(Ordering::SeqCst) == 1 {
            saw.store(1, Ordering::SeqCst);
            return;
        }
    }
}

impl Gate for Both {
    fn pass(&self, n: u32) {
        match n {
            0 => meet(&self.first, &self.last, &self.first_saw),
            255 => meet(&self.last, &self.first, &self.last_saw),
            _ => {}
        }
    }
}

// The input less 1000, and 0 if that is negative.
fn code(alloc: Global) -> Result<Code, Fail>
    ensures { IfOk result (λ code. code.counts.inputs ≡ 1) }
{
    let instrs = [
        Instr::Take(0, 0),
        Instr::Lit(1, number(1_000_000_000)),
        Instr::Do(Op::Sub, 0, 0, 1, 0),
        Instr::Lit(1, number(0)),
        Instr::Do(Op::Max, 0, 0, 1, 0),
        Instr::Output(0, 0),
    ];
    match make_code(alloc, 1, 0, 0, 1, &instrs) {
        Ok(code) => Ok(code),
        Err(_) => Err(Fail::from("no code")),
    }
}

// The row with the amount 10 k, whose label is the byte k and a full stop.
fn row(alloc: Global, k: u32) -> Result<Row, AllocError>
    ensures { IfOk result (HasInputsBelow 1) }
{
    let amount = Amount::new(i128::from(k) * 10_000_000).unwrap_or(Amount::zero());
    let pairs = vec![in alloc; Pair::new(0, amount)]?;
    Ok(Row {
        label: Name::new(alloc, &[u8::try_from(k).unwrap_or(0), b'.'])?,
        household: Household {
            pairs: Seq::from_vec(pairs),
        },
    })
}

// The rows with the amounts 0, 10, 20 and so on.
fn rows(alloc: Global) -> Result<Vec<Row>, AllocError>
    ensures { IfOk result (λ rows. AllByRecursion (HasInputsBelow 1) rows.items) }
{
    let mut rows = Vec::new(alloc);
    for k in 0..256u32 {
        rows.push(row(alloc, k)?)?;
    }
    Ok(rows)
}

fn is_number(answer: &Answer, millionths: i128) -> bool {
    match answer {
        Answer::Values(values) => {
            let is = values.as_slice();
            is.len() == 1 && is[0] == number(millionths)
        }
        Answer::Stopped(_) => false,
    }
}

// The number of wrong answers.
fn wrong(answers: &[Answer]) -> usize {
    let mut count: usize = 0;
    for (k, answer) in answers.iter().enumerate() {
        let above = k.saturating_sub(100) as i128;
        if !is_number(answer, above.saturating_mul(10_000_000)) {
            count = count.saturating_add(1);
        }
    }
    count
}

fn have_met(gate: &Both) -> bool {
    gate.first_saw.load(Ordering::SeqCst) == 1 && gate.last_saw.load(Ordering::SeqCst) == 1
}

// Whether all rows have the expected answers.
fn are_answered<R: Threads + Sync, G: Gate + Sync>(
    rt: &R,
    alloc: Global,
    code: &Code,
    rows: &[Row],
    gate: &G,
) -> bool
    requires code { code.now.counts.inputs ≡ 1 }
    requires rows { AllByRecursion (HasInputsBelow 1) rows.now }
{
    match run_batch(rt, alloc, code, rows, gate) {
        Ok(answers) => {
            let answers = answers.as_slice();
            answers.len() == rows.len() && wrong(answers) == 0
        }
        Err(_) => false,
    }
}

#[test]
fn two_workers_meet(rt: HostRuntime) -> Result<(), Fail> {
    let gate = new_gate();
    let code = code(rt.alloc())?;
    let rows = rows(rt.alloc())?;
    assert!(rt; rows.len() == 256 && are_answered(&rt, rt.alloc(), &code, &rows, &gate));
    assert!(rt; have_met(&gate));
    Ok(())
}

// Prints the label of each row, and counts the rows.
#[derive(Drop)]
struct Labels;

impl RowPrinter for Labels {
    ghost may_print = { λ _ _ _ _. Unit {0} };

    ghost text = { λ _ _ row _. row.label };

    ghost count = { λ _ _ _ _. 1 };

    fn print<K: Sink>(
        &self,
        _place: usize,
        row: &Row,
        _answer: &Answer,
        out: &mut K,
    ) -> Result<u64, Failed> {
        give_all(out, row.label.bytes())?;
        Ok(1)
    }
}

// Whether all rows are printed.
fn are_printed<R: Threads + Sync, G: Gate + Sync>(
    rt: &R,
    alloc: Global,
    code: &Code,
    rows: &[Row],
    gate: &G,
    out: &mut FixedText,
) -> bool
    requires code { code.now.counts.inputs ≡ 1 }
    requires rows { AllByRecursion (HasInputsBelow 1) rows.now }
{
    match print_batch(rt, alloc, code, rows, gate, &Labels, out) {
        Ok(count) => count == rows.len() as u64,
        Err(_) => false,
    }
}

// Whether a text has the labels of 256 rows, in order.
fn are_labels(text: &[u8]) -> bool {
    for k in 0..256usize {
        let at = 2 * k;
        if at + 1 >= text.len() || usize::from(text[at]) != k || text[at + 1] != b'.' {
            return false;
        }
    }
    text.len() == 512
}

#[test]
fn two_printing_workers_meet(rt: HostRuntime) -> Result<(), Fail> {
    let gate = new_gate();
    let code = code(rt.alloc())?;
    let rows = rows(rt.alloc())?;
    let mut out = FixedText::new(rt.alloc(), 4096)?;
    assert!(rt; rows.len() == 256 && are_printed(&rt, rt.alloc(), &code, &rows, &gate, &mut out));
    assert!(rt; are_labels(out.text()));
    assert!(rt; have_met(&gate));
    Ok(())
}
