//! Parses lines of instructions.
ghost use Rattle.std.specs.Prelude.{◌≡◌, Some, None};
ghost use Rattle.std.specs.Option.{option_and_then};
ghost use Rattle.m_fixed.specs.Operators.{arity_of};
ghost use Rattle.reg_machine.specs.declared.instr.Instr.TheVariants.{Take, Lit, Store, Load, Output};
ghost use Rattle.code_file.specs.inner.Spelled.{cut, both, all_three, register, short, literal, operators};
ghost use Rattle.code_file.specs.inner.Spelled.{op_among, arguments, done_by, operation, check, plain, instr_by, instr_of};

use crate::cut::cut;
use crate::numbers::{literal, register, short};
use crate::words::op_word;
use m_fixed::{Op, arity};
use reg_machine::Instr;

// The operators, in about the order of how frequent they are.
const OPERATORS: [Op; 26] = [
    Op::Add,
    Op::Sub,
    Op::Mul,
    Op::Max,
    Op::Min,
    Op::Choose,
    Op::Div,
    Op::Or,
    Op::And,
    Op::Gt,
    Op::Ge,
    Op::Lt,
    Op::Le,
    Op::Eq,
    Op::Ne,
    Op::Not,
    Op::Neg,
    Op::Present,
    Op::Arr,
    Op::Inf,
    Op::Positive,
    Op::PositiveOrNull,
    Op::Null,
    Op::Abs,
    Op::Truth,
    Op::At,
];

// The operator with this word.
fn operator(word: &[u8]) -> Option<Op>
    ensures { result ≡ op_among operators word.now }
{
    for k in 0..OPERATORS.len() {
        if word == op_word(OPERATORS[k]) {
            return Some(OPERATORS[k]);
        }
    }
    None
}

// The operator instruction with these arguments. The machine has three argument registers; those
// past the operator's arity repeat the first.
fn arguments(op: Op, r: u8, text: &[u8]) -> Option<Instr>
    ensures { result ≡ arguments op (arity_of op) r text.now }
{
    let count = arity(op);
    if count == 1 {
        let a = register(text)?;
        return Some(Instr::Do(op, r, a, a, a));
    }
    let (first, rest) = cut(text, b' ')?;
    if count == 2 {
        let a = register(first)?;
        let b = register(rest)?;
        return Some(Instr::Do(op, r, a, b, a));
    }
    let (second, third) = cut(rest, b' ')?;
    let a = register(first)?;
    let b = register(second)?;
    let c = register(third)?;
    Some(Instr::Do(op, r, a, b, c))
}

// The instruction whose line has `first` and `second` after `do`: a register, then an operator and
// its arguments.
fn operation(first: &[u8], second: &[u8]) -> Option<Instr>
    ensures { result ≡ operation (first.now, second.now) }
{
    let r = register(first)?;
    let (word, rest) = cut(second, b' ')?;
    let op = operator(word)?;
    arguments(op, r, rest)
}

fn take(first: &[u8], second: &[u8]) -> Option<Instr>
    ensures { result ≡ both Take (register first.now) (short second.now) }
{
    let r = register(first)?;
    let n = short(second)?;
    Some(Instr::Take(r, n))
}

fn lit(first: &[u8], second: &[u8]) -> Option<Instr>
    ensures { result ≡ both Lit (register first.now) (literal second.now) }
{
    let r = register(first)?;
    let v = literal(second)?;
    Some(Instr::Lit(r, v))
}

fn store(first: &[u8], second: &[u8]) -> Option<Instr>
    ensures { result ≡ both Store (short first.now) (register second.now) }
{
    let k = short(first)?;
    let r = register(second)?;
    Some(Instr::Store(k, r))
}

fn load(first: &[u8], second: &[u8]) -> Option<Instr>
    ensures { result ≡ both Load (register first.now) (short second.now) }
{
    let r = register(first)?;
    let k = short(second)?;
    Some(Instr::Load(r, k))
}

fn output(first: &[u8], second: &[u8]) -> Option<Instr>
    ensures { result ≡ both Output (short first.now) (register second.now) }
{
    let k = short(first)?;
    let r = register(second)?;
    Some(Instr::Output(k, r))
}

fn check(over_only: bool, first: &[u8], second: &[u8]) -> Option<Instr>
    ensures { result ≡ check over_only first.now second.now }
{
    let (condition, label) = cut(second, b' ')?;
    let g = register(first)?;
    let c = register(condition)?;
    let label = short(label)?;
    Some(Instr::Check(g, c, over_only, label))
}

// The instruction with this word, other than `do`: it has two operands, a check three.
fn plain(word: &[u8], first: &[u8], second: &[u8]) -> Option<Instr>
    ensures { result ≡ plain word.now first.now second.now }
{
    if word == b"in".as_slice() {
        take(first, second)
    } else if word == b"lit".as_slice() {
        lit(first, second)
    } else if word == b"st".as_slice() {
        store(first, second)
    } else if word == b"ld".as_slice() {
        load(first, second)
    } else if word == b"out".as_slice() {
        output(first, second)
    } else if word == b"ck".as_slice() {
        check(false, first, second)
    } else if word == b"co".as_slice() {
        check(true, first, second)
    } else {
        None
    }
}

/// The instruction of a line without its line feed, or `None`.
pub fn instr_of(line: &[u8]) -> Option<Instr>
    ensures { result ≡ instr_of line.now }
{
    let (word, rest) = cut(line, b' ')?;
    let (first, second) = cut(rest, b' ')?;
    if word == b"do".as_slice() {
        operation(first, second)
    } else {
        plain(word, first, second)
    }
}
