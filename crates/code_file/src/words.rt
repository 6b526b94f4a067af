//! The words of code files.
ghost use Rattle.std.specs.Prelude.{◌≡◌, ◌<◌};
ghost use Rattle.code_file.specs.Text.{check_word, hex_digit, kind_word, kind_words, op_word};

use m_fixed::Op;
use m_places::ErrorKind;
use observables::InputType;

/// The word of an operator.
pub fn op_word(op: Op) -> &'static [u8]
    ensures { result.now ≡ op_word op }
{
    match op {
        Op::Add => b"add",
        Op::Sub => b"sub",
        Op::Mul => b"mul",
        Op::Div => b"div",
        Op::Neg => b"neg",
        Op::Eq => b"eq",
        Op::Ne => b"ne",
        Op::Lt => b"lt",
        Op::Le => b"le",
        Op::Gt => b"gt",
        Op::Ge => b"ge",
        Op::And => b"and",
        Op::Or => b"or",
        Op::Not => b"not",
        Op::Present => b"present",
        Op::Abs => b"abs",
        Op::Positive => b"positif",
        Op::PositiveOrNull => b"positif_ou_nul",
        Op::Null => b"null",
        Op::Arr => b"arr",
        Op::Inf => b"inf",
        Op::Max => b"max",
        Op::Min => b"min",
        Op::Truth => b"truth",
        Op::Choose => b"choose",
        Op::At => b"at",
    }
}

/// The word of a check.
pub fn check_word(over_only: bool) -> &'static [u8]
    ensures { result.now ≡ check_word over_only }
{
    if over_only { b"co" } else { b"ck" }
}

/// The word of an error's kind.
pub fn kind_word(kind: ErrorKind) -> &'static [u8]
    ensures { result.now ≡ kind_word kind }
{
    match kind {
        ErrorKind::Anomalie => b"anomalie",
        ErrorKind::Discordance => b"discordance",
        ErrorKind::Informative => b"informative",
    }
}

/// The word of an input's type, after a space; empty for `Any`.
pub fn kind_words(kind: InputType) -> &'static [u8]
    ensures { result.now ≡ kind_words kind }
{
    match kind {
        InputType::Any => b"",
        InputType::Whole => b" whole",
        InputType::Truth => b" truth",
    }
}

/// The hexadecimal digit of a number below 16.
pub fn hex_digit(digit: u8) -> u8
    requires { digit < 16 }
    ensures { result ≡ hex_digit digit }
{
    if digit < 10 { 48 + digit } else { 87 + digit }
}
