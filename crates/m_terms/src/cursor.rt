//! A position in the tokens, and the readers of single tokens. Knows nothing of trees.
ghost use Rattle.std.specs.Prelude.{◌≡◌, ◌<◌, ◌∷◌, [], length, Some, None, MatchBool, MatchOption, OnSome};
ghost use Rattle.m_places.specs.Refusals.{Takes};
ghost use Rattle.std.specs.Bool.{OnTrue};
ghost use Rattle.m_text.specs.Bytes.{is_digit};
ghost use Rattle.m_terms.specs.Tokens.{kind_is_sign, kind_is_key, is_name, is_whole, small_letter};
ghost use Rattle.std.specs.List.{list_all};
ghost use Rattle.m_terms.specs.Headers.{point, point_of, letter, letter_of};
ghost use Rattle.m_terms.specs.Grammar.{comparison, comparison_of};
ghost use Rattle.m_terms.specs.Terms.{follows, follows_of};
ghost use Rattle.m_lexer.specs.inner.Chains.{open_at};
ghost use Rattle.m_terms.specs.inner.Reading.{mark_at, begins, is_kind, plain_word, operator_of, operator_at, begins_by};
ghost use Rattle.m_ast.specs.Syntax.{named};

use m_fixed::Op;
use m_lexer::{Key, Kind, Sign, Token};
use m_places::{Name, Place};
use std::marker::Model;

/// A reserved word or a sign.
#[derive(Clone, Copy)]
pub enum Mark {
    OfKey(Key),
    OfSign(Sign),
}

/// A level of precedence of left-associative operators, from the loosest to the tightest.
#[derive(Clone, Copy)]
pub enum Level {
    Disjunction,
    Conjunction,
    Sum,
    Product,
}

/// The remaining tokens. Contracts see it as their list.
#[derive(Drop)]
pub struct Cursor<'a> {
    left: &'a [Token],
}

impl<'a> Model for Cursor<'a> {
    ghost use Rattle.std.specs.Prelude.{List};
    ghost use Rattle.m_lexer.specs.declared.token.Token.{Token};

    ghost Value = { List Token };

    ghost view = { λ c. c.left.now };
}

impl<'a> Cursor<'a> {
    /// A cursor before the first of these tokens.
    pub fn new(tokens: &'a [Token]) -> Cursor<'a>
        ensures { result ≡ tokens.now }
    {
        Cursor { left: tokens }
    }

    /// The number of remaining tokens.
    pub fn len(&self) -> usize
        ensures { result ≡ length self.now }
    {
        self.left.len()
    }

    /// Takes the next token, of any kind.
    pub fn next(&mut self) -> Option<&'a Token>
        ensures { MatchOption result (self.old ≡ []) (λ t. self.old ≡ t.now ∷ self.new) }
    {
        let (first, others) = self.left.split_first()?;
        self.left = others;
        Some(first)
    }

    /// Whether this reserved word or sign is next.
    pub fn is_at(&self, mark: Mark) -> bool
        ensures { result ≡ begins mark self.now }
    {
        match self.left.first() {
            Some(first) => is_mark(&first.kind, mark),
            None => false,
        }
    }

    /// Takes the next token if it is this reserved word or sign.
    pub fn take(&mut self, mark: Mark) -> bool
        ensures mark { MatchBool result (mark_at mark self.old ≡ Some (tt, self.new)) ((self.new ≡ self.old) × (mark_at mark self.old ≡ None)) }
        ensures shorter { OnTrue result (length self.new < length self.old) }
    {
        let Some((first, others)) = self.left.split_first() else {
            return false;
        };
        if !is_mark(&first.kind, mark) {
            return false;
        }
        self.left = others;
        true
    }

    /// Takes a letter from a to z, and returns it and its place.
    pub fn take_letter(&mut self) -> Option<(u8, Place)>
        ensures letter { Takes result (λ l. l) (open_at letter self.old) self.old self.new }
        ensures shorter { OnSome result (length self.new < length self.old) }
    {
        let (first, others) = self.left.split_first()?;
        let byte = letter_of(&first.kind)?;
        self.left = others;
        Some((byte, first.place))
    }

    /// Takes a word, and returns it and its place.
    pub fn take_word(&mut self) -> Option<(&'a Name, Place)>
        ensures word { Takes result (λ w. named w.0.now w.1) (open_at plain_word self.old) self.old self.new }
        ensures shorter { OnSome result (length self.new < length self.old) }
    {
        let (first, others) = self.left.split_first()?;
        match &first.kind {
            Kind::Word(word) => {
                self.left = others;
                Some((word, first.place))
            }
            _ => None,
        }
    }

    /// Takes an operator of the table.
    pub fn take_operator(&mut self, level: Level) -> Option<Op>
        ensures op { Takes result (λ op. op) (open_at (operator_at level) self.old) self.old self.new }
        ensures shorter { OnSome result (length self.new < length self.old) }
    {
        let (first, others) = self.left.split_first()?;
        let op = operator(&first.kind, level)?;
        self.left = others;
        Some(op)
    }

    /// Takes `=`, `!=`, `<`, `<=`, `>` or `>=`.
    pub fn take_comparison(&mut self) -> Option<Op>
        ensures op { Takes result (λ op. op) (open_at comparison self.old) self.old self.new }
        ensures shorter { OnSome result (length self.new < length self.old) }
    {
        let (first, others) = self.left.split_first()?;
        let op = comparison(&first.kind)?;
        self.left = others;
        Some(op)
    }

    /// Whether the next token may follow a term.
    pub fn is_at_follower(&self) -> bool
        ensures { result ≡ begins_by follows self.now }
    {
        match self.left.first() {
            Some(first) => may_follow(&first.kind),
            None => false,
        }
    }

    /// Takes an end of a span: a name, `X`, or a whole number as spelled.
    pub fn take_point(&mut self) -> Option<&'a [u8]>
        ensures point { Takes result (λ w. w.now) (open_at point self.old) self.old self.new }
        ensures shorter { OnSome result (length self.new < length self.old) }
    {
        let (first, others) = self.left.split_first()?;
        let bytes = point_of(&first.kind)?;
        self.left = others;
        Some(bytes)
    }
}

// The operator of this level that the token denotes.
fn operator(kind: &Kind, level: Level) -> Option<Op>
    ensures { result ≡ operator_of level kind.now }
{
    match level {
        Level::Disjunction => match kind {
            Kind::Key(Key::Ou) => Some(Op::Or),
            _ => None,
        },
        Level::Conjunction => match kind {
            Kind::Key(Key::Et) => Some(Op::And),
            _ => None,
        },
        Level::Sum => match kind {
            Kind::Sign(Sign::Plus) => Some(Op::Add),
            Kind::Sign(Sign::Minus) => Some(Op::Sub),
            _ => None,
        },
        Level::Product => match kind {
            Kind::Sign(Sign::Star) => Some(Op::Mul),
            Kind::Sign(Sign::Slash) => Some(Op::Div),
            _ => None,
        },
    }
}

fn comparison(kind: &Kind) -> Option<Op>
    ensures { result ≡ comparison_of kind.now }
{
    match kind {
        Kind::Sign(Sign::Equal) => Some(Op::Eq),
        Kind::Sign(Sign::NotEqual) => Some(Op::Ne),
        Kind::Sign(Sign::Less) => Some(Op::Lt),
        Kind::Sign(Sign::LessEqual) => Some(Op::Le),
        Kind::Sign(Sign::Greater) => Some(Op::Gt),
        Kind::Sign(Sign::GreaterEqual) => Some(Op::Ge),
        _ => None,
    }
}

// Whether a term may be followed by this token.
fn may_follow(kind: &Kind) -> bool
    ensures { MatchBool result (follows_of kind.now ≡ Some tt) (follows_of kind.now ≡ None) }
{
    match kind {
        Kind::Sign(sign) => match sign {
            Sign::Semicolon | Sign::CloseParen | Sign::CloseBracket | Sign::Comma => true,
            _ => false,
        },
        Kind::Key(key) => match key {
            Key::Alors | Key::Sinon | Key::Finsi => true,
            _ => false,
        },
        _ => false,
    }
}

// Whether a token is this reserved word or sign.
fn is_mark(kind: &Kind, mark: Mark) -> bool
    ensures { MatchBool result (is_kind mark kind.now ≡ Some tt) (is_kind mark kind.now ≡ None) }
{
    match mark {
        Mark::OfKey(key) => is_key(kind, key),
        Mark::OfSign(sign) => is_sign(kind, sign),
    }
}

fn is_key(kind: &Kind, key: Key) -> bool
    ensures { MatchBool result (kind_is_key key kind.now ≡ Some tt) (kind_is_key key kind.now ≡ None) }
{
    match kind {
        Kind::Key(found) => *found == key,
        _ => false,
    }
}

fn is_sign(kind: &Kind, sign: Sign) -> bool
    ensures { MatchBool result (kind_is_sign sign kind.now ≡ Some tt) (kind_is_sign sign kind.now ≡ None) }
{
    match kind {
        Kind::Sign(found) => *found == sign,
        _ => false,
    }
}

// The only byte of a word, if it is a letter from a to z.
fn letter_of(kind: &Kind) -> Option<u8>
    ensures { result ≡ letter_of kind.now }
{
    match kind {
        Kind::Word(word) => match word.bytes() {
            [byte] if byte.is_ascii_lowercase() => Some(*byte),
            _ => None,
        },
        _ => None,
    }
}

// A name, `X`, or a whole number as spelled.
fn point_of(kind: &Kind) -> Option<&[u8]>
    ensures { MatchOption result (point_of kind.now ≡ None) (λ w. point_of kind.now ≡ Some w.now) }
{
    match kind {
        Kind::Word(word) if has_no_small(word) => Some(word.bytes()),
        Kind::Number(_, spelling) if is_whole_number(spelling) => Some(spelling.bytes()),
        Kind::Key(Key::X) => Some(b"X"),
        _ => None,
    }
}

fn has_no_small(word: &Name) -> bool
    ensures { result ≡ is_name word.now }
{
    word.bytes().iter().all(|b| *b < b'a' || b'z' < *b)
}

fn is_whole_number(spelling: &Name) -> bool
    ensures { result ≡ is_whole spelling.now }
{
    let bytes = spelling.bytes();
    if bytes.is_empty() {
        return false;
    }
    if bytes.len() > 9 {
        return false;
    }
    are_digits(bytes)
}

fn are_digits(bytes: &[u8]) -> bool
    ensures { result ≡ list_all is_digit bytes.now }
{
    bytes.iter().all(|b| b'0' <= *b && *b <= b'9')
}
