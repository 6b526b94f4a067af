//! Parses single lines.
ghost use Rattle.std.specs.Prelude.{◌≡◌, List, []};
ghost use Rattle.m_places.specs.Refusals.{Outcome};
ghost use Rattle.mpp_lexer.specs.declared.piece.DriverPiece.{DriverPiece};
ghost use Rattle.mpp_parser.specs.declared.unread.Unread.TheVariants.{Memory};
ghost use Rattle.mpp_parser.specs.declared.sentence.Sentence.{Sentence};
ghost use Rattle.mpp_parser.specs.Grammar.{SpellsSentence};
ghost use Rattle.mpp_lexer.specs.declared.piece.DriverSign.TheVariants.{Colon};
ghost use Rattle.mpp_parser.specs.Keywords.{keyword_of};
ghost use Rattle.mpp_parser.specs.inner.Reading.{GivesBy, cells_at, called_at, command_rest_at, partition_at};
ghost use Rattle.mpp_parser.specs.inner.Reading.{named_at, worded_at, sentence_at, until_at, term_at, line_at, ReadsAll};

use crate::cursor::Pieces;
use crate::expression::{read_cell, read_cell_rest, read_kind, read_term};
use crate::keyword::{Keyword, keyword_of};
use crate::term::{CellName, DTerm, Kind};
use crate::unread::Unread;
use m_places::{Name, Seq};
use mpp_lexer::{DriverPiece, DriverSign};
use std::alloc::Global;

/// One line, parsed independently of the others.
#[derive(Drop)]
pub enum Sentence {
    /// The first line of a function.
    Function(Name),
    /// Sets a cell to a term's value.
    Set(CellName, DTerm),
    /// Makes a cell undefined.
    Del(CellName),
    /// Calls a function, or the rules, and receives these cells.
    Call(Seq<CellName>, Name),
    /// The condition of the block that follows.
    If(DTerm),
    /// The alternative to the block before it.
    Else,
    /// The kind that is undefined in the block that follows.
    Partition(Kind),
}

// { "," cell }, after a first one
#[tactic(auto, unfolding(crate::specs::inner::Reading::cells_at))]
fn read_cells(
    alloc: Global,
    cursor: &mut Pieces<'_>,
    first: CellName,
) -> Result<Vec<CellName>, Unread>
    ensures reads { GivesBy (λ v. v.items) result (cells_at first cursor.old) cursor.new }
{
    let mut cells = Vec::new(alloc);
    cells.push(first)?;
    'cells: while cursor.take_sign(DriverSign::Comma) {
        let cell = read_cell(alloc, cursor)?;
        cells.push(cell)?;
    }
    Ok(cells)
}

// "<-" WORD "(" ")", after the received cells
#[tactic(auto, unfolding(crate::specs::inner::Reading::called_at))]
fn read_called(
    alloc: Global,
    cursor: &mut Pieces<'_>,
    cells: Vec<CellName>,
) -> Result<Sentence, Unread>
    ensures reads { GivesBy (λ s. s) result (called_at cells.items cursor.old) cursor.new }
{
    if !cursor.take_sign(DriverSign::Receive) {
        return Err(Unread::NotSpelled);
    }
    let Some(word) = cursor.read_word() else {
        return Err(Unread::NotSpelled);
    };
    if !cursor.take_sign(DriverSign::OpenParen) || !cursor.take_sign(DriverSign::CloseParen) {
        return Err(Unread::NotSpelled);
    }
    let function = word.copy(alloc)?;
    Ok(Sentence::Call(Seq::from_vec(cells), function))
}

// "=" term | { "," cell } "<-" WORD "(" ")", after the word of the first cell
#[tactic(auto, unfolding(crate::specs::inner::Reading::command_rest_at, crate::specs::inner::Reading::call_at))]
fn read_command_rest(
    alloc: Global,
    cursor: &mut Pieces<'_>,
    word: &Name,
) -> Result<Sentence, Unread>
    ensures reads { GivesBy (λ s. s) result (command_rest_at word.now cursor.old) cursor.new }
{
    let cell = read_cell_rest(alloc, cursor, word)?;
    if cursor.take_sign(DriverSign::Assign) {
        let term = read_term(alloc, cursor)?;
        return Ok(Sentence::Set(cell, Box::into_inner(term)));
    }
    let cells = read_cells(alloc, cursor, cell)?;
    read_called(alloc, cursor, cells)
}

// After a word that isn't reserved.
#[tactic(auto, unfolding(crate::specs::inner::Reading::named_at, crate::specs::inner::Reading::function_rest_at))]
fn read_named(alloc: Global, cursor: &mut Pieces<'_>, word: &Name) -> Result<Sentence, Unread>
    ensures reads { GivesBy (λ s. s) result (named_at word.now cursor.old) cursor.new }
{
    if !cursor.take_sign(DriverSign::OpenParen) {
        return read_command_rest(alloc, cursor, word);
    }
    if !cursor.take_sign(DriverSign::CloseParen) || !cursor.take_sign(DriverSign::Colon) {
        return Err(Unread::NotSpelled);
    }
    Ok(Sentence::Function(word.copy(alloc)?))
}

// "with" kind ":"
#[tactic(auto, unfolding(crate::specs::inner::Reading::partition_at))]
fn read_partition(alloc: Global, cursor: &mut Pieces<'_>) -> Result<Sentence, Unread>
    ensures reads { GivesBy (λ s. s) result (partition_at cursor.old) cursor.new }
{
    if !cursor.take_key(Keyword::With) {
        return Err(Unread::NotSpelled);
    }
    let kind = read_kind(alloc, cursor)?;
    if !cursor.take_sign(DriverSign::Colon) {
        return Err(Unread::NotSpelled);
    }
    Ok(Sentence::Partition(kind))
}

// term ":"
#[tactic(auto, unfolding(crate::specs::inner::Reading::until_at))]
fn read_condition(alloc: Global, cursor: &mut Pieces<'_>) -> Result<Box<DTerm>, Unread>
    ensures reads { GivesBy (λ t. t.value) result (until_at term_at Colon cursor.old) cursor.new }
{
    let term = read_term(alloc, cursor)?;
    if !cursor.take_sign(DriverSign::Colon) {
        return Err(Unread::NotSpelled);
    }
    Ok(term)
}

// After a word.
#[tactic(auto, unfolding(crate::specs::inner::Reading::worded_at))]
fn read_worded(alloc: Global, cursor: &mut Pieces<'_>, word: &Name) -> Result<Sentence, Unread>
    ensures reads { GivesBy (λ s. s) result (worded_at word.now (keyword_of word.now) cursor.old) cursor.new }
{
    match keyword_of(word.bytes()) {
        None => read_named(alloc, cursor, word),
        Some(Keyword::Del) => {
            let cell = read_cell(alloc, cursor)?;
            Ok(Sentence::Del(cell))
        }
        Some(Keyword::If) => {
            let condition = read_condition(alloc, cursor)?;
            Ok(Sentence::If(Box::into_inner(condition)))
        }
        Some(Keyword::Else) => {
            if !cursor.take_sign(DriverSign::Colon) {
                return Err(Unread::NotSpelled);
            }
            Ok(Sentence::Else)
        }
        Some(Keyword::Partition) => read_partition(alloc, cursor),
        Some(_) => Err(Unread::NotSpelled),
    }
}

#[tactic(auto, unfolding(crate::specs::inner::Reading::sentence_at))]
fn read_front(alloc: Global, cursor: &mut Pieces<'_>) -> Result<Sentence, Unread>
    ensures reads { GivesBy (λ s. s) result (sentence_at cursor.old) cursor.new }
{
    match cursor.next() {
        Some(DriverPiece::Word(word)) => read_worded(alloc, cursor, word),
        _ => Err(Unread::NotSpelled),
    }
}

/// Parses the tokens of a whole line, as the parsing function does.
#[tactic(auto, unfolding(crate::specs::inner::Reading::line_at))]
pub fn read_line(alloc: Global, tokens: &[DriverPiece]) -> Result<Sentence, Unread>
    ensures { ReadsAll result (line_at tokens.now) }
{
    let mut cursor = Pieces::new(tokens);
    let sentence = read_front(alloc, &mut cursor)?;
    if !cursor.is_at_end() {
        return Err(Unread::NotSpelled);
    }
    Ok(sentence)
}

/// Parses the tokens of a whole line, which spell at most one sentence.
///
/// `IRN = REV + 1` sets `IRN`; `IRN = REV 1` is no sentence.
pub fn read_sentence(alloc: Global, tokens: &[DriverPiece]) -> Result<Sentence, Unread>
    ensures outcome { Outcome Memory result
        (λ sentence. SpellsSentence sentence tokens.now [])
        (λ _. (s : Sentence) → SpellsSentence s tokens.now [] → ⊥) }
{
    read_line(alloc, tokens)
}

/// The tokens of a line spell at most one sentence.
pub fn one_sentence()
    ensures { (s u : Sentence) (ts : List DriverPiece) → SpellsSentence s ts [] → SpellsSentence u ts [] → s ≡ u }
{}
