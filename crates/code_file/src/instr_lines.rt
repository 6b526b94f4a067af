//! Writes the lines of instructions.
ghost use Rattle.std.specs.Prelude.{◌≡◌, ◌≤◌, ◌∷◌, [], codes, decimal};
ghost use Rattle.std.specs.List.{flat_map};
ghost use Rattle.m_ports.specs.Giving.{Gives};
ghost use Rattle.m_text.specs.Pieces.{joined, new_line};
ghost use Rattle.m_fixed.specs.declared.amount.Value.TheVariants.{Num};
ghost use Rattle.reg_machine.specs.declared.instr.Instr.TheVariants.{Lit, Do};
ghost use Rattle.code_file.specs.Text.{instr_line, op_word};

use crate::words::{check_word, op_word};
use itoa::Buffer;
use m_fixed::{Amount, Op, Value, arity};
use m_ports::{Failed, Sink, give_pieces};
use reg_machine::{Code, Instr};

/// Writes the lines of the instructions of `code`.
pub fn give_instrs<K: Sink>(code: &Code, out: &mut K) -> Result<(), Failed>
    ensures { Gives K.written K.faults out.old out.new result (flat_map instr_line code.now.instrs) }
{
    for place in 0..code.len() {
        give_instr(&code.instr(place), out)?;
    }
    Ok(())
}

fn give_instr<K: Sink>(instr: &Instr, out: &mut K) -> Result<(), Failed>
    ensures { Gives K.written K.faults out.old out.new result (instr_line instr.now) }
{
    match instr {
        Instr::Take(r, n) => give_two(b"in", u32::from(*r), *n, out),
        Instr::Lit(r, value) => give_literal(*r, value, out),
        Instr::Do(op, r, a, b, c) => give_do(*op, *r, *a, *b, *c, out),
        Instr::Store(k, r) => give_two(b"st", *k, u32::from(*r), out),
        Instr::Load(r, k) => give_two(b"ld", u32::from(*r), *k, out),
        Instr::Check(g, c, over_only, label) => {
            give_three(check_word(*over_only), *g, *c, *label, out)
        }
        Instr::Output(k, r) => give_two(b"out", *k, u32::from(*r), out),
    }
}

fn give_two<K: Sink>(word: &[u8], a: u32, b: u32, out: &mut K) -> Result<(), Failed>
    ensures { Gives K.written K.faults out.old out.new result (joined (word.now ∷ codes " " ∷ decimal a ∷ codes " " ∷ decimal b ∷ new_line ∷ [])) }
{
    let mut first = Buffer::new();
    let mut second = Buffer::new();
    let a = first.format(a).as_bytes();
    let b = second.format(b).as_bytes();
    give_pieces(out, &[word, b" ", a, b" ", b, b"\n"])
}

fn give_three<K: Sink>(word: &[u8], a: u8, b: u8, c: u32, out: &mut K) -> Result<(), Failed>
    ensures { Gives K.written K.faults out.old out.new result
        (joined (word.now ∷ codes " " ∷ decimal a ∷ codes " " ∷ decimal b ∷ codes " " ∷ decimal c ∷ new_line ∷ [])) }
{
    let mut first = Buffer::new();
    let mut second = Buffer::new();
    let mut third = Buffer::new();
    let a = first.format(a).as_bytes();
    let b = second.format(b).as_bytes();
    let c = third.format(c).as_bytes();
    give_pieces(out, &[word, b" ", a, b" ", b, b" ", c, b"\n"])
}

fn give_literal<K: Sink>(r: u8, value: &Value, out: &mut K) -> Result<(), Failed>
    ensures { Gives K.written K.faults out.old out.new result (instr_line (Lit r value.now)) }
{
    match value {
        Value::Undef => give_named(r, b" undef", out),
        Value::Num(amount) => give_amount(r, *amount, out),
        Value::Over => give_named(r, b" over", out),
    }
}

fn give_named<K: Sink>(r: u8, word: &[u8], out: &mut K) -> Result<(), Failed>
    ensures { Gives K.written K.faults out.old out.new result (joined (codes "lit " ∷ decimal r ∷ word.now ∷ new_line ∷ [])) }
{
    let mut buffer = Buffer::new();
    let r = buffer.format(r).as_bytes();
    give_pieces(out, &[b"lit ", r, word, b"\n"])
}

fn give_amount<K: Sink>(r: u8, amount: Amount, out: &mut K) -> Result<(), Failed>
    ensures { Gives K.written K.faults out.old out.new result (instr_line (Lit r (Num amount))) }
{
    let mut first = Buffer::new();
    let mut second = Buffer::new();
    let r = first.format(r).as_bytes();
    let amount = second.format(amount.millionths()).as_bytes();
    give_pieces(out, &[b"lit ", r, b" ", amount, b"\n"])
}

fn give_do<K: Sink>(op: Op, r: u8, a: u8, b: u8, c: u8, out: &mut K) -> Result<(), Failed>
    ensures { Gives K.written K.faults out.old out.new result (instr_line (Do op r a b c)) }
{
    let count = arity(op);
    if count == 1 {
        give_one(op, r, a, out)
    } else if count == 2 {
        give_both(op, r, a, b, out)
    } else {
        give_all_three(op, r, a, b, c, out)
    }
}

fn give_one<K: Sink>(op: Op, r: u8, a: u8, out: &mut K) -> Result<(), Failed>
    ensures { Gives K.written K.faults out.old out.new result
        (joined (codes "do " ∷ decimal r ∷ codes " " ∷ op_word op ∷ codes " " ∷ decimal a ∷ new_line ∷ [])) }
{
    let mut first = Buffer::new();
    let mut second = Buffer::new();
    let r = first.format(r).as_bytes();
    let word = op_word(op);
    let a = second.format(a).as_bytes();
    give_pieces(out, &[b"do ", r, b" ", word, b" ", a, b"\n"])
}

fn give_both<K: Sink>(op: Op, r: u8, a: u8, b: u8, out: &mut K) -> Result<(), Failed>
    ensures { Gives K.written K.faults out.old out.new result
        (joined (codes "do " ∷ decimal r ∷ codes " " ∷ op_word op ∷ codes " " ∷ decimal a ∷ codes " " ∷ decimal b ∷ new_line ∷ [])) }
{
    let mut first = Buffer::new();
    let mut second = Buffer::new();
    let mut third = Buffer::new();
    let r = first.format(r).as_bytes();
    let word = op_word(op);
    let a = second.format(a).as_bytes();
    let b = third.format(b).as_bytes();
    give_pieces(out, &[b"do ", r, b" ", word, b" ", a, b" ", b, b"\n"])
}

fn give_all_three<K: Sink>(op: Op, r: u8, a: u8, b: u8, c: u8, out: &mut K) -> Result<(), Failed>
    ensures { Gives K.written K.faults out.old out.new result
        (joined (codes "do " ∷ decimal r ∷ codes " " ∷ op_word op ∷ codes " " ∷ decimal a ∷ codes " " ∷ decimal b ∷ codes " " ∷ decimal c ∷ new_line ∷ [])) }
{
    let mut first = Buffer::new();
    let mut second = Buffer::new();
    let mut third = Buffer::new();
    let mut fourth = Buffer::new();
    let r = first.format(r).as_bytes();
    let word = op_word(op);
    let a = second.format(a).as_bytes();
    let b = third.format(b).as_bytes();
    let c = fourth.format(c).as_bytes();
    give_pieces(
        out,
        &[b"do ", r, b" ", word, b" ", a, b" ", b, b" ", c, b"\n"],
    )
}
