//! A program written by hand, its tidy form, and the register code of that form. The output is the input less 1000; a
//! check stops where the square of the input is over; nothing reads the opposite of the input.
ghost use Rattle.std.specs.Prelude.{◌≡◌, ◌≤◌, ◌<◌, All, IfOk, IsTrue, length};
ghost use Rattle.std.specs.List.{AllByRecursion};
ghost use Rattle.flat_code.specs.Runs.{AreNodes, IsCheck, IsFlat};

use crate::numbers::{number, units};
use dead_rules::tidy;
use flat_code::{Check, Flat, Node, Tidy, run_flat};
use m_fixed::Op;
use m_places::Seq;
use observables::Answer;
use reg_machine::{Code, CodeWrong, Instr, make_code};
use register_alloc::allocate;
use std::alloc::{AllocError, Global};
use std::test::Fail;

// Two literals, and nodes over them and the input.
fn nodes(alloc: Global) -> Result<Seq<Node>, AllocError>
    ensures { IfOk result (λ nodes. AreNodes 1 0 nodes × (length nodes ≡ 6)) }
{
    let thousand = units(1_000);
    let one = units(1);
    let nodes = vec![in alloc;
        Node::Input(0),
        Node::Do(Op::Neg, 0, 0, 0),
        Node::Lit(thousand),
        Node::Do(Op::Sub, 0, 2, 0),
        Node::Lit(one),
        Node::Do(Op::Mul, 0, 0, 0),
    ]?;
    Ok(Seq::from_vec(nodes))
}

fn one_check(alloc: Global) -> Result<Seq<Check>, AllocError>
    ensures { IfOk result (λ checks. AllByRecursion (IsCheck 6) checks × AllByRecursion (λ check. check.label < 1) checks × (length checks ≡ 1)) }
{
    let checks = vec![in alloc;
        Check {
            guard: 4,
            condition: 5,
            over_only: true,
            label: 0
        },
    ]?;
    Ok(Seq::from_vec(checks))
}

fn one_output(alloc: Global) -> Result<Seq<u32>, AllocError>
    ensures { IfOk result (λ outputs. AllByRecursion (λ output. output < 6) outputs × (length outputs ≡ 1)) }
{
    let outputs = vec![in alloc; 3]?;
    Ok(Seq::from_vec(outputs))
}

fn program(alloc: Global) -> Result<Flat, AllocError>
    ensures valid { IfOk result (λ flat. IsFlat flat) }
    ensures sizes { IfOk result (λ flat. (flat.inputs ≡ 1) × (length flat.nodes ≡ 6) × (length flat.outputs ≡ 1) × (length flat.checks ≡ 1)) }
    ensures labels { IfOk result (λ flat. AllByRecursion (λ check. check.label < 1) flat.checks) }
{
    let nodes = nodes(alloc)?;
    let checks = one_check(alloc)?;
    let outputs = one_output(alloc)?;
    Ok(Flat {
        inputs: 1,
        nodes,
        checks,
        outputs,
    })
}

/// The program's tidy form.
pub fn tidied(alloc: Global) -> Result<Tidy, AllocError>
    ensures sizes { IfOk result (λ tidy. (tidy.inputs ≡ 1) × (length tidy.nodes ≤ 6) × (length tidy.outputs ≡ 1)) }
    ensures labels { IfOk result (λ tidy. AllByRecursion (λ check. check.label < 1) tidy.checks) }
{
    let flat = program(alloc)?;
    let form = tidy(alloc, &flat)?;
    Ok(form)
}

// Whether the program's own run gives 1500.5 for 2500.5.
fn is_run(alloc: Global, flat: &Flat) -> bool
    requires valid { IsFlat flat.now }
    requires inputs { flat.now.inputs ≡ 1 }
{
    match run_flat(alloc, flat, &[number(2_500_500_000)]) {
        Ok(Answer::Values(values)) => values.as_slice() == [number(1_500_500_000)].as_slice(),
        _ => false,
    }
}

#[test]
fn a_program_runs(rt: HostRuntime) -> Result<(), Fail> {
    let flat = program(rt.alloc())?;
    assert!(rt; is_run(rt.alloc(), &flat));
    Ok(())
}

fn has_nodes(nodes: &[Node]) -> bool {
    let wanted = [
        Node::Input(0),
        Node::Lit(units(1_000)),
        Node::Do(Op::Sub, 0, 1, 0),
        Node::Lit(units(1)),
        Node::Do(Op::Mul, 0, 0, 0),
    ];
    nodes == wanted.as_slice()
}

// Whether there is one input, and the check and the output refer to the remaining nodes.
fn is_moved(flat: &Flat) -> bool {
    let check = Check {
        guard: 3,
        condition: 4,
        over_only: true,
        label: 0,
    };
    flat.inputs == 1
        && flat.checks.as_slice() == [check].as_slice()
        && flat.outputs.as_slice() == [2].as_slice()
}

#[test]
fn what_nothing_reads_is_removed(rt: HostRuntime) -> Result<(), Fail> {
    let tidy = tidied(rt.alloc())?;
    assert!(rt; has_nodes(tidy.flat().nodes.as_slice()) && is_moved(tidy.flat()));
    Ok(())
}

// Whether all labels are below `labels`.
fn are_below(checks: &[Check], labels: u32) -> bool
    ensures { IsTrue result → All (λ check. check.label < labels) checks.now }
{
    for i in 0..checks.len() {
        if checks[i].label >= labels {
            return false;
        }
    }
    true
}

// The code of the tidy form, in which each value takes the first free register.
fn instr(i: usize) -> Instr {
    match i {
        0 => Instr::Take(0, 0),
        1 => Instr::Lit(1, units(1_000)),
        2 => Instr::Do(Op::Sub, 1, 0, 1, 0),
        3 => Instr::Output(0, 1),
        4 => Instr::Lit(1, units(1)),
        5 => Instr::Do(Op::Mul, 0, 0, 0, 0),
        _ => Instr::Check(1, 0, true, 0),
    }
}

// Whether code has these seven instructions, no slots and one label.
fn is_code(code: &Code) -> bool {
    if code.slots() != 0 || code.labels() != 1 || code.len() != 7 {
        return false;
    }
    for i in 0..7 {
        if code.instr(i) != instr(i) {
            return false;
        }
    }
    true
}

// Whether a tidy form, which must be small, has this code.
fn is_form_code(alloc: Global, tidy: &Tidy) -> bool {
    let flat = tidy.flat();
    if flat.nodes.as_slice().len() > 100
        || flat.checks.as_slice().len() > 100
        || flat.outputs.as_slice().len() > 100
        || !are_below(flat.checks.as_slice(), 1)
    {
        return false;
    }
    match allocate(alloc, tidy, 1) {
        Ok(code) => is_code(&code),
        Err(_) => false,
    }
}

#[test]
fn a_value_takes_the_first_free_register(rt: HostRuntime) -> Result<(), Fail> {
    let tidy = tidied(rt.alloc())?;
    assert!(rt; is_form_code(rt.alloc(), &tidy));
    Ok(())
}

// Whether code with the greatest numbers of slots and outputs is rejected for an output that it doesn't give.
fn is_refused(alloc: Global) -> bool {
    let instrs = [Instr::Take(0, 0), Instr::Output(7, 0)];
    match make_code(alloc, 1, 4_294_967_295, 2, 4_294_967_295, &instrs) {
        Ok(_) => false,
        Err(wrong) => wrong == CodeWrong::NoOutput,
    }
}

/// Code with 4,294,967,295 slots and as many outputs is checked without allocating memory for them.
#[test]
fn counts_take_no_room(rt: HostRuntime) {
    assert!(rt; is_refused(rt.alloc()));
}
