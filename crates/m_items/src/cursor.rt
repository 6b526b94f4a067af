//! A position in the tokens, and the readers of single tokens. Knows nothing of trees.
ghost use Rattle.std.specs.Prelude.{◌≡◌, ◌<◌, ◌≤◌, ◌∷◌, [], length, drop, Some, None, MatchBool, MatchOption, OnSome, IfSome, IsTrue};
ghost use Rattle.m_places.specs.Refusals.{Takes};
ghost use Rattle.std.specs.Bool.{OnTrue};
ghost use Rattle.std.specs.List.{list_all};
ghost use Rattle.m_text.specs.Bytes.{is_digit};
ghost use Rattle.m_terms.specs.Tokens.{is_sign, is_key, kind_is_sign, kind_is_key, is_name, is_whole};
ghost use Rattle.m_lexer.specs.inner.Chains.{open_at};
ghost use Rattle.m_terms.specs.inner.Reading.{begins_by};
ghost use Rattle.m_items.specs.Tokens.{word, placed_word, name, whole, amount, text, error_kind};
ghost use Rattle.m_items.specs.Tokens.{key_place, word_of, name_of, whole_of, amount_of, text_of, error_kind_of};

use m_fixed::Amount;
use m_lexer::{Key, Kind, Sign, Token};
use m_places::{ErrorKind, Name, Place};
use std::marker::Model;

/// The remaining tokens. Contracts see it as their list.
///
/// Each `take_` takes the next token if it is of its kind, and otherwise leaves the cursor
/// unchanged.
#[derive(Drop)]
pub struct ItemCursor<'a> {
    left: &'a [Token],
}

impl<'a> Model for ItemCursor<'a> {
    ghost use Rattle.std.specs.Prelude.{List};
    ghost use Rattle.m_lexer.specs.declared.token.Token.{Token};

    ghost Value = { List Token };

    ghost view = { λ c. c.left.now };
}

impl<'a> ItemCursor<'a> {
    /// A cursor before the first of these tokens.
    pub fn new(tokens: &'a [Token]) -> ItemCursor<'a>
        ensures { result ≡ tokens.now }
    {
        ItemCursor { left: tokens }
    }

    /// The number of remaining tokens.
    pub fn len(&self) -> usize
        ensures { result ≡ length self.now }
    {
        self.left.len()
    }

    /// The remaining tokens. `ItemCursor::new` of them is a second cursor at the same position.
    pub fn left(&self) -> &'a [Token]
        ensures { result.now ≡ self.now }
    {
        self.left
    }

    /// Takes this many tokens, of any kind.
    pub fn skip(&mut self, count: usize)
        requires { count ≤ length self.old }
        ensures { self.new ≡ drop count self.old }
    {
        self.left = &self.left[count..];
    }

    /// Takes the next token, of any kind.
    pub fn next(&mut self) -> Option<&'a Token>
        ensures { MatchOption result (self.old ≡ []) (λ t. self.old ≡ t.now ∷ self.new) }
    {
        let (first, others) = self.left.split_first()?;
        self.left = others;
        Some(first)
    }

    /// Whether this sign is next.
    pub fn is_at_sign(&self, sign: Sign) -> bool
        ensures { result ≡ begins_by (is_sign sign) self.now }
    {
        match self.left.first() {
            Some(first) => is_sign(&first.kind, sign),
            None => false,
        }
    }

    /// Whether this reserved word is next.
    pub fn is_at_key(&self, key: Key) -> bool
        ensures { result ≡ begins_by (is_key key) self.now }
    {
        match self.left.first() {
            Some(first) => is_key(&first.kind, key),
            None => false,
        }
    }

    /// Takes this sign.
    pub fn take_sign(&mut self, sign: Sign) -> bool
        ensures sign { MatchBool result (open_at (is_sign sign) self.old ≡ Some (tt, self.new))
            ((self.new ≡ self.old) × (open_at (is_sign sign) self.old ≡ None)) }
        ensures shorter { OnTrue result (length self.new < length self.old) }
    {
        let Some((first, others)) = self.left.split_first() else {
            return false;
        };
        if !is_sign(&first.kind, sign) {
            return false;
        }
        self.left = others;
        true
    }

    /// Takes this reserved word.
    pub fn take_key(&mut self, key: Key) -> bool
        ensures key { MatchBool result (open_at (is_key key) self.old ≡ Some (tt, self.new)) ((self.new ≡ self.old) × (open_at (is_key key) self.old ≡ None)) }
        ensures shorter { OnTrue result (length self.new < length self.old) }
    {
        let Some((first, others)) = self.left.split_first() else {
            return false;
        };
        if !is_key(&first.kind, key) {
            return false;
        }
        self.left = others;
        true
    }

    /// Takes this reserved word, and returns its place.
    pub fn take_key_place(&mut self, key: Key) -> Option<Place>
        ensures place { Takes result (λ p. p) (open_at (key_place key) self.old) self.old self.new }
        ensures shorter { OnSome result (length self.new < length self.old) }
    {
        let (first, others) = self.left.split_first()?;
        if !is_key(&first.kind, key) {
            return None;
        }
        self.left = others;
        Some(first.place)
    }

    /// Takes a word that isn't reserved.
    pub fn take_word(&mut self) -> Option<&'a Name>
        ensures word { Takes result (λ w. w.now) (open_at word self.old) self.old self.new }
        ensures shorter { OnSome result (length self.new < length self.old) }
    {
        let (first, others) = self.left.split_first()?;
        let word = word_of(&first.kind)?;
        self.left = others;
        Some(word)
    }

    /// Takes a word that isn't reserved, and returns it and its place.
    pub fn take_placed_word(&mut self) -> Option<(&'a Name, Place)>
        ensures word { Takes result (λ w. (w.0.now, w.1)) (open_at placed_word self.old) self.old self.new }
        ensures shorter { OnSome result (length self.new < length self.old) }
    {
        let (first, others) = self.left.split_first()?;
        let word = word_of(&first.kind)?;
        self.left = others;
        Some((word, first.place))
    }

    /// Takes a word without a letter from a to z, and returns it and its place.
    pub fn take_name(&mut self) -> Option<(&'a Name, Place)>
        ensures name { Takes result (λ n. (n.0.now, n.1)) (open_at name self.old) self.old self.new }
        ensures shorter { OnSome result (length self.new < length self.old) }
    {
        let (first, others) = self.left.split_first()?;
        let name = name_of(&first.kind)?;
        self.left = others;
        Some((name, first.place))
    }

    /// Takes a number of one to nine digits without a point, and returns its spelling.
    pub fn take_whole(&mut self) -> Option<&'a Name>
        ensures spelled { IfSome result (λ n. IsTrue (is_whole n.now)) }
        ensures whole { Takes result (λ n. n.now) (open_at whole self.old) self.old self.new }
        ensures shorter { OnSome result (length self.new < length self.old) }
    {
        let (first, others) = self.left.split_first()?;
        let whole = whole_of(&first.kind)?;
        self.left = others;
        Some(whole)
    }

    /// Takes a number, and returns its amount.
    pub fn take_amount(&mut self) -> Option<Amount>
        ensures amount { Takes result (λ z. z) (open_at amount self.old) self.old self.new }
        ensures shorter { OnSome result (length self.new < length self.old) }
    {
        let (first, others) = self.left.split_first()?;
        let amount = amount_of(&first.kind)?;
        self.left = others;
        Some(amount)
    }

    /// Takes a text, and returns the bytes between its quotes.
    pub fn take_text(&mut self) -> Option<&'a Name>
        ensures text { Takes result (λ x. x.now) (open_at text self.old) self.old self.new }
        ensures shorter { OnSome result (length self.new < length self.old) }
    {
        let (first, others) = self.left.split_first()?;
        let text = text_of(&first.kind)?;
        self.left = others;
        Some(text)
    }

    /// Takes `anomalie`, `discordance` or `informative`.
    pub fn take_error_kind(&mut self) -> Option<ErrorKind>
        ensures kind { Takes result (λ k. k) (open_at error_kind self.old) self.old self.new }
        ensures shorter { OnSome result (length self.new < length self.old) }
    {
        let (first, others) = self.left.split_first()?;
        let kind = error_kind_of(&first.kind)?;
        self.left = others;
        Some(kind)
    }
}

fn is_key(kind: &Kind, key: Key) -> bool
    ensures { MatchBool result (kind_is_key key kind.now ≡ Some tt) (kind_is_key key kind.now ≡ None) }
{
    match kind {
        Kind::Key(found) => *found == key,
        _ => false,
    }
}

fn is_sign(kind: &Kind, sign: Sign) -> bool
    ensures { MatchBool result (kind_is_sign sign kind.now ≡ Some tt) (kind_is_sign sign kind.now ≡ None) }
{
    match kind {
        Kind::Sign(found) => *found == sign,
        _ => false,
    }
}

fn word_of(kind: &Kind) -> Option<&Name>
    ensures { MatchOption result (word_of kind.now ≡ None) (λ w. word_of kind.now ≡ Some w.now) }
{
    match kind {
        Kind::Word(word) => Some(word),
        _ => None,
    }
}

fn name_of(kind: &Kind) -> Option<&Name>
    ensures { MatchOption result (name_of kind.now ≡ None) (λ w. name_of kind.now ≡ Some w.now) }
{
    match kind {
        Kind::Word(word) if has_no_small(word) => Some(word),
        _ => None,
    }
}

fn whole_of(kind: &Kind) -> Option<&Name>
    ensures spelled { IfSome result (λ n. IsTrue (is_whole n.now)) }
    ensures whole { MatchOption result (whole_of kind.now ≡ None) (λ n. whole_of kind.now ≡ Some n.now) }
{
    match kind {
        Kind::Number(_, spelling) if is_whole(spelling) => Some(spelling),
        _ => None,
    }
}

fn amount_of(kind: &Kind) -> Option<Amount>
    ensures { result ≡ amount_of kind.now }
{
    match kind {
        Kind::Number(amount, _) => Some(*amount),
        _ => None,
    }
}

fn text_of(kind: &Kind) -> Option<&Name>
    ensures { MatchOption result (text_of kind.now ≡ None) (λ x. text_of kind.now ≡ Some x.now) }
{
    match kind {
        Kind::Text(text) => Some(text),
        _ => None,
    }
}

fn error_kind_of(kind: &Kind) -> Option<ErrorKind>
    ensures { result ≡ error_kind_of kind.now }
{
    match kind {
        Kind::Key(Key::Anomalie) => Some(ErrorKind::Anomalie),
        Kind::Key(Key::Discordance) => Some(ErrorKind::Discordance),
        Kind::Key(Key::Informative) => Some(ErrorKind::Informative),
        _ => None,
    }
}

fn has_no_small(word: &Name) -> bool
    ensures { result ≡ is_name word.now }
{
    word.bytes().iter().all(|b| *b < b'a' || b'z' < *b)
}

fn is_whole(spelling: &Name) -> bool
    ensures { result ≡ is_whole spelling.now }
{
    let bytes = spelling.bytes();
    if bytes.is_empty() {
        return false;
    }
    if bytes.len() > 9 {
        return false;
    }
    are_digits(bytes)
}

fn are_digits(bytes: &[u8]) -> bool
    ensures { result ≡ list_all is_digit bytes.now }
{
    bytes.iter().all(|b| b'0' <= *b && *b <= b'9')
}
