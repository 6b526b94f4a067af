//! Checks expectations, and reports those that aren't met.
ghost use Rattle.std.specs.Prelude.{◌≡◌, ◌<◌, ◌+◌, ◌∷◌, [], IfOk, codes, length, slice_index_or};
ghost use Rattle.std.specs.Ordering.{int_eq};
ghost use Rattle.m_fixed.specs.Text.{printed};
ghost use Rattle.m_ports.specs.Giving.{Gives};
ghost use Rattle.m_text.specs.Pieces.{joined, new_line};
ghost use Rattle.m_cases.specs.Cases.{AreExpected};
ghost use Rattle.m_cases.specs.Mismatches.{HasOutput, HasValueEach, answer_values, count_line, expected_text, got_of, is_met};
ghost use Rattle.m_cases.specs.Mismatches.{is_same_value, mismatch_count, mismatch_line, mismatch_lines, one_line, output_names};

use crate::Expected;
use itoa::Buffer;
use m_fixed::{Amount, Value, write_amount};
use m_places::Name;
use m_ports::{Failed, Sink, give_pieces};
use observables::{Answer, Face, FaceOutput};

/// Whether an answer meets the expectation of the output with this number: `stop` is met by every
/// stop, and a value by an answer with that value. Takes no memory.
pub fn met(expected: &Expected, output: u32, answer: &Answer) -> bool
    requires { HasOutput output answer.now }
    ensures { result ≡ is_met expected.now (got_of (answer_values answer.now) output) }
{
    is_met(expected, &got_of(answer, output as usize))
}

// The actual value of the output with this number, or a stop.
fn got_of(answer: &Answer, output: usize) -> Expected
    requires { HasOutput output answer.now }
    ensures { result ≡ got_of (answer_values answer.now) output }
{
    match answer {
        Answer::Values(values) => Expected::Is(values.as_slice()[output]),
        Answer::Stopped(_) => Expected::Stop,
    }
}

fn is_met(expected: &Expected, got: &Expected) -> bool
    ensures { result ≡ is_met expected.now got.now }
{
    match expected {
        Expected::Stop => match got {
            Expected::Stop => true,
            Expected::Is(_) => false,
        },
        Expected::Is(value) => match got {
            Expected::Stop => false,
            Expected::Is(other) => is_same_value(*value, *other),
        },
    }
}

fn is_same_value(value: Value, other: Value) -> bool
    ensures { result ≡ is_same_value value other }
{
    match value {
        Value::Undef => match other {
            Value::Undef => true,
            Value::Num(_) => false,
            Value::Over => false,
        },
        Value::Num(amount) => match other {
            Value::Undef => false,
            Value::Num(another) => amount.millionths() == another.millionths(),
            Value::Over => false,
        },
        Value::Over => match other {
            Value::Undef => false,
            Value::Num(_) => false,
            Value::Over => true,
        },
    }
}

/// Writes one line for each expectation that isn't met, in order, as `mismatch martin IRN expected
/// 7 got 0`, and returns their number. On a failure a prefix of the lines was appended. It takes no
/// memory.
pub fn print_mismatches<K: Sink>(
    face: &Face,
    label: &Name,
    expected: &[(u32, Expected)],
    answer: &Answer,
    out: &mut K,
) -> Result<u32, Failed>
    requires expected { AreExpected (length face.now.outputs) expected.now }
    requires within { HasValueEach face.now answer.now }
    ensures text { Gives K.written K.faults out.old out.new result
        (mismatch_lines (output_names face.now.outputs) label.now (answer_values answer.now) expected.now) }
    ensures count { IfOk result (λ count. count ≡ mismatch_count (answer_values answer.now) expected.now) }
{
    let mut count = 0u32;
    for one in expected {
        if !print_one(face, label, one, answer, out)? {
            count += 1;
        }
    }
    Ok(count)
}

// Writes the line of an expectation that isn't met, and returns whether it is met.
fn print_one<K: Sink>(
    face: &Face,
    label: &Name,
    expected: &(u32, Expected),
    answer: &Answer,
    out: &mut K,
) -> Result<bool, Failed>
    requires there { expected.now.0 < length face.now.outputs }
    requires within { HasValueEach face.now answer.now }
    ensures text { Gives K.written K.faults out.old out.new result
        (one_line (output_names face.now.outputs) label.now (answer_values answer.now) expected.now) }
    ensures met { IfOk result (λ met. met ≡ is_met expected.now.1 (got_of (answer_values answer.now) expected.now.0)) }
{
    let output = expected.0 as usize;
    let got = got_of(answer, output);
    if is_met(&expected.1, &got) {
        give_pieces(out, &[])?;
        return Ok(true);
    }
    let name = name_at(face.outputs.as_slice(), output);
    print_mismatch(label, name, &expected.1, &got, out)?;
    Ok(false)
}

// The name of the output with this number; empty for a note.
fn name_at(outputs: &[FaceOutput], output: usize) -> &[u8]
    requires { output < length outputs.now }
    ensures { result.now ≡ slice_index_or (output_names outputs.now) output [] }
{
    match &outputs[output] {
        FaceOutput::Named(name) => name.bytes(),
        FaceOutput::Noted(_) => &[],
    }
}

// Writes the line of an expectation that isn't met.
fn print_mismatch<K: Sink>(
    label: &Name,
    name: &[u8],
    expected: &Expected,
    got: &Expected,
    out: &mut K,
) -> Result<(), Failed>
    ensures { Gives K.written K.faults out.old out.new result (mismatch_line label.now name.now expected.now got.now) }
{
    let mut room = [0; 32];
    let mut other = [0; 32];
    let expected = text_in(expected, &mut room);
    let got = text_in(got, &mut other);
    give_line(label.bytes(), name, expected, got, out)
}

// The text of an expected or actual value. An amount is written into `room`.
fn text_in<'a>(value: &Expected, room: &'a mut [u8; 32]) -> &'a [u8]
    ensures { result.now ≡ expected_text value.now }
{
    match value {
        Expected::Stop => b"stop",
        Expected::Is(Value::Undef) => b"undefined",
        Expected::Is(Value::Over) => b"over",
        Expected::Is(Value::Num(amount)) => amount_in(*amount, room),
    }
}

fn amount_in(amount: Amount, room: &mut [u8; 32]) -> &[u8]
    ensures { result.now ≡ printed amount }
{
    let length = write_amount(amount, room);
    &room[..length]
}

fn give_line<'a, K: Sink>(
    label: &'a [u8],
    name: &'a [u8],
    expected: &'a [u8],
    got: &'a [u8],
    out: &mut K,
) -> Result<(), Failed>
    ensures { Gives K.written K.faults out.old out.new result
        (joined (codes "mismatch " ∷ label.now ∷ codes " " ∷ name.now ∷ codes " expected " ∷ expected.now ∷ codes " got " ∷ got.now ∷ new_line ∷ [])) }
{
    give_pieces(
        out,
        &[
            b"mismatch ",
            label,
            b" ",
            name,
            b" expected ",
            expected,
            b" got ",
            got,
            b"\n",
        ],
    )
}

/// Writes the last line, as `cases 3 mismatches 1`. On a failure a prefix of it was appended. It
/// takes no memory.
pub fn print_count<K: Sink>(cases: u32, mismatches: u64, out: &mut K) -> Result<(), Failed>
    ensures { Gives K.written K.faults out.old out.new result (count_line cases mismatches) }
{
    let mut buffer = Buffer::new();
    let cases = buffer.format(cases).as_bytes();
    let mut other = Buffer::new();
    let mismatches = other.format(mismatches).as_bytes();
    give_count(cases, mismatches, out)
}

fn give_count<'a, K: Sink>(cases: &'a [u8], mismatches: &'a [u8], out: &mut K) -> Result<(), Failed>
    ensures { Gives K.written K.faults out.old out.new result (joined (codes "cases " ∷ cases.now ∷ codes " mismatches " ∷ mismatches.now ∷ new_line ∷ [])) }
{
    give_pieces(out, &[b"cases ", cases, b" mismatches ", mismatches, b"\n"])
}
