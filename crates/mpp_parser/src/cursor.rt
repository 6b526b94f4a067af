//! A cursor over the tokens of a line, and the parsers of single tokens. It knows nothing of trees.
ghost use Rattle.std.specs.Prelude.{◌≡◌, ◌<◌, ◌∷◌, [], length, Some, None, MatchBool, MatchOption, OnSome};
ghost use Rattle.m_places.specs.Refusals.{Takes};
ghost use Rattle.std.specs.Bool.{OnTrue};
ghost use Rattle.mpp_parser.specs.Grammar.{comparison, addition, multiplication, keyed};
ghost use Rattle.m_lexer.specs.inner.Chains.{open_at};
ghost use Rattle.mpp_parser.specs.inner.Reading.{sign_at, key_at, number_at, index_at, word_at, operator_of};

use crate::expression::Prec;
use crate::keyword::{Keyword, keyword_of};
use m_fixed::{Amount, Op};
use m_places::Name;
use m_text::whole_number;
use mpp_lexer::{DriverPiece, DriverSign};
use std::marker::Model;

/// The remaining tokens. Contracts see it as their list.
#[derive(Drop)]
pub struct Pieces<'a> {
    left: &'a [DriverPiece],
}

impl<'a> Model for Pieces<'a> {
    ghost use Rattle.std.specs.Prelude.{List};
    ghost use Rattle.mpp_lexer.specs.declared.piece.DriverPiece.{DriverPiece};

    ghost Value = { List DriverPiece };

    ghost view = { λ c. c.left.now };
}

impl<'a> Pieces<'a> {
    /// A cursor at the first of these tokens.
    pub fn new(tokens: &'a [DriverPiece]) -> Pieces<'a>
        ensures { result ≡ tokens.now }
    {
        Pieces { left: tokens }
    }

    /// Whether no token is left.
    pub fn is_at_end(&self) -> bool
        ensures { MatchBool result (self.now ≡ []) (self.now ≡ [] → ⊥) }
    {
        self.left.is_empty()
    }

    /// Takes the next token.
    pub fn next(&mut self) -> Option<&'a DriverPiece>
        ensures { MatchOption result (self.old ≡ []) (λ t. self.old ≡ t.now ∷ self.new) }
    {
        let (first, others) = self.left.split_first()?;
        self.left = others;
        Some(first)
    }

    /// Takes the next token if it is this sign.
    pub fn take_sign(&mut self, sign: DriverSign) -> bool
        ensures sign { MatchBool result (sign_at sign self.old ≡ Some (tt, self.new)) ((self.new ≡ self.old) × (sign_at sign self.old ≡ None)) }
        ensures shorter { OnTrue result (length self.new < length self.old) }
    {
        match self.left.split_first() {
            Some((DriverPiece::Sign(found), others)) if *found == sign => {
                self.left = others;
                true
            }
            _ => false,
        }
    }

    /// Takes the next token if it is this reserved word.
    pub fn take_key(&mut self, key: Keyword) -> bool
        ensures key { MatchBool result (key_at key self.old ≡ Some (tt, self.new)) ((self.new ≡ self.old) × (key_at key self.old ≡ None)) }
        ensures shorter { OnTrue result (length self.new < length self.old) }
    {
        let Some((DriverPiece::Word(word), others)) = self.left.split_first() else {
            return false;
        };
        match keyword_of(word.bytes()) {
            Some(found) if found == key => {
                self.left = others;
                true
            }
            _ => false,
        }
    }

    /// Takes a comparison.
    pub fn take_comparison(&mut self) -> Option<Op>
        ensures operator { Takes result (λ o. o) (open_at comparison self.old) self.old self.new }
        ensures shorter { OnSome result (length self.new < length self.old) }
    {
        let (first, others) = self.left.split_first()?;
        let operator = match first {
            DriverPiece::Sign(DriverSign::Equal) => Op::Eq,
            DriverPiece::Sign(DriverSign::NotEqual) => Op::Ne,
            DriverPiece::Sign(DriverSign::Less) => Op::Lt,
            DriverPiece::Sign(DriverSign::LessEqual) => Op::Le,
            DriverPiece::Sign(DriverSign::Greater) => Op::Gt,
            DriverPiece::Sign(DriverSign::GreaterEqual) => Op::Ge,
            _ => return None,
        };
        self.left = others;
        Some(operator)
    }

    /// Takes an operator of a level.
    pub fn take_operator(&mut self, level: Prec) -> Option<Op>
        ensures operator { Takes result (λ o. o) (open_at (operator_of level) self.old) self.old self.new }
        ensures shorter { OnSome result (length self.new < length self.old) }
    {
        match level {
            Prec::Or => self.take_key_operator(Keyword::Or, Op::Or),
            Prec::And => self.take_key_operator(Keyword::And, Op::And),
            Prec::Sum => self.take_addition(),
            Prec::Product => self.take_multiplication(),
        }
    }

    // Takes the reserved word of an operator.
    fn take_key_operator(&mut self, key: Keyword, operator: Op) -> Option<Op>
        ensures operator { Takes result (λ o. o) (open_at (keyed key operator) self.old) self.old self.new }
        ensures shorter { OnSome result (length self.new < length self.old) }
    {
        if self.take_key(key) {
            return Some(operator);
        }
        None
    }

    // Takes a `+` or a `-`.
    fn take_addition(&mut self) -> Option<Op>
        ensures operator { Takes result (λ o. o) (open_at addition self.old) self.old self.new }
        ensures shorter { OnSome result (length self.new < length self.old) }
    {
        let (first, others) = self.left.split_first()?;
        let operator = match first {
            DriverPiece::Sign(DriverSign::Plus) => Op::Add,
            DriverPiece::Sign(DriverSign::Minus) => Op::Sub,
            _ => return None,
        };
        self.left = others;
        Some(operator)
    }

    // Takes a `*` or a `/`.
    fn take_multiplication(&mut self) -> Option<Op>
        ensures operator { Takes result (λ o. o) (open_at multiplication self.old) self.old self.new }
        ensures shorter { OnSome result (length self.new < length self.old) }
    {
        let (first, others) = self.left.split_first()?;
        let operator = match first {
            DriverPiece::Sign(DriverSign::Star) => Op::Mul,
            DriverPiece::Sign(DriverSign::Slash) => Op::Div,
            _ => return None,
        };
        self.left = others;
        Some(operator)
    }

    /// Takes a number.
    pub fn read_number(&mut self) -> Option<Amount>
        ensures number { MatchOption result (number_at self.old ≡ None) (λ z. number_at self.old ≡ Some (z, self.new)) }
        ensures shorter { OnSome result (length self.new < length self.old) }
    {
        match self.next() {
            Some(DriverPiece::Number(amount, _)) => Some(*amount),
            _ => None,
        }
    }

    /// Takes a number of one to nine digits.
    pub fn read_index(&mut self) -> Option<u32>
        ensures index { MatchOption result (index_at self.old ≡ None) (λ n. index_at self.old ≡ Some (n, self.new)) }
        ensures shorter { OnSome result (length self.new < length self.old) }
    {
        match self.next() {
            Some(DriverPiece::Number(_, spelling)) => whole_number(spelling.bytes()),
            _ => None,
        }
    }

    /// Takes a word that isn't reserved.
    pub fn read_word(&mut self) -> Option<&'a Name>
        ensures word { MatchOption result (word_at self.old ≡ None) (λ w. word_at self.old ≡ Some (w.now, self.new)) }
        ensures shorter { OnSome result (length self.new < length self.old) }
    {
        let Some(DriverPiece::Word(word)) = self.next() else {
            return None;
        };
        match keyword_of(word.bytes()) {
            None => Some(word),
            Some(_) => None,
        }
    }
}
