use m_fixed::Amount;
use m_places::{Name, Seq};

/// A sign of the driver language.
#[derive(Clone, Copy, Debug, PartialEq, Eq)]
pub enum DriverSign {
    OpenParen,
    CloseParen,
    OpenBracket,
    CloseBracket,
    Comma,
    Colon,
    /// `=`, of an assignment and of a kind.
    Assign,
    /// `==`, the comparison.
    Equal,
    NotEqual,
    Less,
    LessEqual,
    Greater,
    GreaterEqual,
    Plus,
    Minus,
    Star,
    Slash,
    /// `<-`, before the function whose results are received.
    Receive,
}

/// A token of a driver.
#[derive(Drop)]
pub enum DriverPiece {
    /// A word as it is spelled, reserved or not.
    Word(Name),
    /// A number, rounded at the sixth decimal, and its spelling.
    Number(Amount, Name),
    Sign(DriverSign),
}

/// A line with at least one token.
#[derive(Drop)]
pub struct Line {
    /// The number of the line, from 1. Lines without tokens count.
    pub number: u32,
    /// The number of spaces before the first token.
    pub indent: u32,
    pub tokens: Seq<DriverPiece>,
}
