//! Parses blocks, which indentation delimits, commands and functions.
ghost use Rattle.std.specs.Prelude.{◌≡◌, ℕ, ◌<◌, ◌≤◌, ◌∷◌, [], List, IfOk, OnOk, IfSome, MatchBool, MatchOption, Some, None, length};
ghost use Rattle.std.specs.Bool.{OnTrue};
ghost use Rattle.mpp_lexer.specs.declared.piece.DriverPiece.{DriverPiece};
ghost use Rattle.mpp_parser.specs.inner.Reading.{line_at};
ghost use Rattle.mpp_parser.specs.inner.Blocks.{GivesOne, is_else, else_at, otherwise_at, stated_at, command_at};
ghost use Rattle.mpp_parser.specs.inner.Blocks.{commands_at, block_at, headed_at, function_at, functions_at};

use crate::command::{Command, CommandNode, Function, command_made};
use crate::keyword::{Keyword, keyword_of};
use crate::sentence::{Sentence, read_line};
use crate::unread::Unread;
use m_places::Seq;
use m_places::limits::DRIVER_LEVEL;
use mpp_lexer::{DriverPiece, DriverSign, Line};
use std::alloc::{AllocError, Global};
use std::marker::Model;

/// The remaining lines. Contracts see it as their list.
#[derive(Drop)]
pub struct LineCursor<'a> {
    left: &'a [Line],
}

impl<'a> Model for LineCursor<'a> {
    ghost use Rattle.std.specs.Prelude.{List};
    ghost use Rattle.mpp_lexer.specs.declared.piece.Line.{Line};

    ghost Value = { List Line };

    ghost view = { λ c. c.left.now };
}

impl<'a> LineCursor<'a> {
    /// A cursor at the first of these lines.
    pub fn new(lines: &'a [Line]) -> LineCursor<'a>
        ensures { result ≡ lines.now }
    {
        LineCursor { left: lines }
    }

    // A copy of the cursor.
    fn here(&self) -> LineCursor<'a>
        ensures { result ≡ self.now }
    {
        LineCursor { left: self.left }
    }

    /// The next line, without taking it.
    pub fn first(&self) -> Option<&'a Line>
        ensures { MatchOption result (self.now ≡ []) (λ l. (rest : List Line) × (self.now ≡ l.now ∷ rest)) }
    {
        let (first, _others) = self.left.split_first()?;
        Some(first)
    }

    /// Takes the next line.
    pub fn next(&mut self) -> Option<&'a Line>
        ensures { MatchOption result (self.old ≡ []) (λ l. self.old ≡ l.now ∷ self.new) }
    {
        let (first, others) = self.left.split_first()?;
        self.left = others;
        Some(first)
    }

    // Takes the next line if it is `else:` with this indentation.
    #[tactic(auto, unfolding(crate::specs::inner::Blocks::else_at))]
    fn take_else(&mut self, indent: u32) -> bool
        ensures line { MatchBool result (else_at indent self.old ≡ Some self.new) ((self.new ≡ self.old) × (else_at indent self.old ≡ None)) }
        ensures shorter { OnTrue result (length self.new < length self.old) }
    {
        let Some((first, others)) = self.left.split_first() else {
            return false;
        };
        if first.indent == indent && is_else_line(first.tokens.as_slice()) {
            self.left = others;
            return true;
        }
        false
    }
}

// Whether a line is `else:`.
#[tactic(auto, unfolding(crate::specs::inner::Blocks::is_else))]
fn is_else_line(tokens: &[DriverPiece]) -> bool
    ensures { result ≡ is_else tokens.now }
{
    match tokens {
        [
            DriverPiece::Word(word),
            DriverPiece::Sign(DriverSign::Colon),
        ] => { matches!(keyword_of(word.bytes()), Some(Keyword::Else)) }
        _ => false,
    }
}

// Parses a whole line; `None` if it is no sentence.
fn line_sentence(alloc: Global, tokens: &[DriverPiece]) -> Result<Option<Sentence>, AllocError>
    ensures { IfOk result (λ s. line_at tokens.now ≡ s) }
{
    match read_line(alloc, tokens) {
        Ok(sentence) => Ok(Some(sentence)),
        Err(Unread::NotSpelled) => Ok(None),
        Err(Unread::Memory) => Err(AllocError),
    }
}

// Parses as many commands as there are at an indentation, with blocks nested at most `depth` deep.
#[cycle(blocks)]
fn read_commands(
    alloc: Global,
    lines: &mut LineCursor<'_>,
    indent: u32,
    depth: u32,
) -> Result<Vec<Command>, AllocError>
    ensures reads { IfOk result (λ v. commands_at (block_at depth) indent lines.old ≡ (v.items, lines.new)) }
    ensures shorter { OnOk result (length lines.new ≤ length lines.old) }
{
    let mut commands = Vec::new(alloc);
    'commands: while let Some(command) = read_command(alloc, lines, indent, depth)? {
        commands.push(command)?;
    }
    Ok(commands)
}

// Parses a command at an indentation; on `None` the cursor hasn't moved.
#[cycle(blocks)]
#[tactic(auto, unfolding(crate::specs::inner::Blocks::command_at))]
fn read_command(
    alloc: Global,
    lines: &mut LineCursor<'_>,
    indent: u32,
    depth: u32,
) -> Result<Option<Command>, AllocError>
    ensures reads { GivesOne (λ c. c) result (command_at (block_at depth) indent lines.old) lines.new }
    ensures stays { IfOk result (λ o. MatchOption o (lines.new ≡ lines.old) (λ _. length lines.new < length lines.old)) }
{
    let mut ahead = lines.here();
    let Some(line) = ahead.next() else {
        return Ok(None);
    };
    if line.indent != indent {
        return Ok(None);
    }
    let Some(sentence) = line_sentence(alloc, line.tokens.as_slice())? else {
        return Ok(None);
    };
    let Some(command) = read_written(alloc, &mut ahead, indent, depth, line.number, sentence)?
    else {
        return Ok(None);
    };
    *lines = ahead;
    Ok(Some(command))
}

// Parses the rest of a command whose first line is this sentence.
#[cycle(blocks)]
#[tactic(auto, unfolding(crate::specs::inner::Blocks::stated_at))]
fn read_written(
    alloc: Global,
    lines: &mut LineCursor<'_>,
    indent: u32,
    depth: u32,
    number: u32,
    sentence: Sentence,
) -> Result<Option<Command>, AllocError>
    ensures reads { GivesOne (λ c. c) result (stated_at (block_at depth) indent number sentence lines.old) lines.new }
    ensures shorter { IfOk result (λ o. IfSome o (λ _. length lines.new ≤ length lines.old)) }
{
    match sentence {
        Sentence::Set(cell, term) => Ok(Some(command_made(CommandNode::Set(number, cell, term)))),
        Sentence::Del(cell) => Ok(Some(command_made(CommandNode::Del(number, cell)))),
        Sentence::Call(cells, function) => Ok(Some(command_made(CommandNode::Call(
            number, cells, function,
        )))),
        Sentence::Partition(kind) => {
            let Some(block) = read_block(alloc, lines, indent, depth)? else {
                return Ok(None);
            };
            Ok(Some(command_made(CommandNode::Partition(number, kind, block))))
        }
        Sentence::If(condition) => {
            let Some(block) = read_block(alloc, lines, indent, depth)? else {
                return Ok(None);
            };
            let other = read_otherwise(alloc, lines, indent, depth)?;
            Ok(Some(command_made(CommandNode::If(number, condition, block, other))))
        }
        Sentence::Function(_) => Ok(None),
        Sentence::Else => Ok(None),
    }
}

// Parses `else:` and its block; if there is none, the block is empty and the cursor hasn't moved.
#[cycle(blocks)]
#[tactic(auto, unfolding(crate::specs::inner::Blocks::otherwise_at))]
fn read_otherwise(
    alloc: Global,
    lines: &mut LineCursor<'_>,
    indent: u32,
    depth: u32,
) -> Result<Vec<Command>, AllocError>
    ensures reads { IfOk result (λ v. otherwise_at (block_at depth) indent lines.old ≡ (v.items, lines.new)) }
    ensures shorter { OnOk result (length lines.new ≤ length lines.old) }
{
    let mut ahead = lines.here();
    if !ahead.take_else(indent) {
        return Ok(Vec::new(alloc));
    }
    let Some(block) = read_block(alloc, &mut ahead, indent, depth)? else {
        return Ok(Vec::new(alloc));
    };
    *lines = ahead;
    Ok(block)
}

// Parses the block under a line of this indentation, in which blocks are nested at most `depth - 1`
// deep.
#[cycle(blocks)]
fn read_block(
    alloc: Global,
    lines: &mut LineCursor<'_>,
    indent: u32,
    depth: u32,
) -> Result<Option<Vec<Command>>, AllocError>
    ensures reads { GivesOne (λ v. v.items) result (block_at depth indent lines.old) lines.new }
    ensures shorter { OnOk result (length lines.new ≤ length lines.old) }
{
    if depth == 0 {
        return Ok(None);
    }
    let Some(first) = lines.first() else {
        return Ok(None);
    };
    if first.indent <= indent {
        return Ok(None);
    }
    let commands = read_commands(alloc, lines, first.indent, depth - 1)?;
    if commands.as_slice().is_empty() {
        return Ok(None);
    }
    Ok(Some(commands))
}

// Parses a function; on `None` the cursor hasn't moved.
#[tactic(auto, unfolding(crate::specs::inner::Blocks::function_at, crate::specs::inner::Blocks::headed_at))]
fn read_function(alloc: Global, lines: &mut LineCursor<'_>) -> Result<Option<Function>, AllocError>
    ensures reads { GivesOne (λ f. f) result (function_at lines.old) lines.new }
    ensures stays { IfOk result (λ o. MatchOption o (lines.new ≡ lines.old) (λ _. length lines.new < length lines.old)) }
{
    let mut ahead = lines.here();
    let Some(line) = ahead.next() else {
        return Ok(None);
    };
    if line.indent != 0 {
        return Ok(None);
    }
    let Some(Sentence::Function(name)) = line_sentence(alloc, line.tokens.as_slice())? else {
        return Ok(None);
    };
    let Some(body) = read_block(alloc, &mut ahead, 0, DRIVER_LEVEL)? else {
        return Ok(None);
    };
    *lines = ahead;
    Ok(Some(Function {
        name,
        line: line.number,
        body: Seq::from_vec(body),
    }))
}

/// Parses as many functions as there are, up to the first line that belongs to none.
#[tactic(auto, unfolding(crate::specs::inner::Blocks::functions_at))]
pub fn read_functions(
    alloc: Global,
    lines: &mut LineCursor<'_>,
) -> Result<Vec<Function>, AllocError>
    ensures { IfOk result (λ v. functions_at lines.old ≡ (v.items, lines.new)) }
{
    let mut functions = Vec::new(alloc);
    'functions: while let Some(function) = read_function(alloc, lines)? {
        functions.push(function)?;
    }
    Ok(functions)
}
