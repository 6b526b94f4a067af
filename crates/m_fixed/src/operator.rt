//! The operators of M, and their arities.
ghost use Rattle.std.specs.Prelude.{◌≡◌, ℕ};
ghost use Rattle.m_fixed.specs.Operators.{arity_of};

/// The operators of M. A truth value is 1 or 0.
#[derive(Clone, Copy, Debug, PartialEq, Eq)]
pub enum Op {
    /// `a + b`.
    Add,
    /// `a - b`.
    Sub,
    /// `a * b`.
    Mul,
    /// `a / b`; 0 if b is 0.
    Div,
    /// `-a`.
    Neg,
    /// `a = b`.
    Eq,
    /// `a != b`.
    Ne,
    /// `a < b`.
    Lt,
    /// `a <= b`.
    Le,
    /// `a > b`.
    Gt,
    /// `a >= b`.
    Ge,
    /// `a et b`.
    And,
    /// `a ou b`.
    Or,
    /// `non a`.
    Not,
    /// `present(a)`: whether a is defined.
    Present,
    /// `abs(a)`.
    Abs,
    /// `positif(a)`: whether a is above 0.
    Positive,
    /// `positif_ou_nul(a)`: whether a is not below 0.
    PositiveOrNull,
    /// `null(a)`: whether a is 0.
    Null,
    /// `arr(a)`: rounded to whole units; up from a fraction of 0.49995 on.
    Arr,
    /// `inf(a)`: `a` plus a millionth, rounded down to whole units.
    Inf,
    /// `max(a, b)`.
    Max,
    /// `min(a, b)`.
    Min,
    /// Whether a is a number other than 0, as in the condition of a check.
    Truth,
    /// `si c alors a sinon b`.
    Choose,
    /// Whether an index selects a cell: a and b are equal when truncated to whole units.
    At,
}

/// How many arguments the operator uses: 2 for `Op::Add`, 3 for `Op::Choose`.
pub fn arity(op: Op) -> u8
    ensures { result ≡ arity_of op }
{
    match op {
        Op::Neg
        | Op::Not
        | Op::Present
        | Op::Abs
        | Op::Positive
        | Op::PositiveOrNull
        | Op::Null
        | Op::Arr
        | Op::Inf
        | Op::Truth => 1,
        Op::Choose => 3,
        Op::Add
        | Op::Sub
        | Op::Mul
        | Op::Div
        | Op::Eq
        | Op::Ne
        | Op::Lt
        | Op::Le
        | Op::Gt
        | Op::Ge
        | Op::And
        | Op::Or
        | Op::Max
        | Op::Min
        | Op::At => 2,
    }
}
