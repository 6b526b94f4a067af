//! The cells of a variable, and the one that an index names.

ghost use Rattle.std.specs.Prelude.{◌≡◌, ◌+◌, ◌<◌, ◌≤◌, ◌^◌, IfSome, MatchOption, Some, None};
ghost use Rattle.m_ast.specs.Items.{size_in};
ghost use Rattle.m_symbols.specs.Cells.{cell_by, cell_within, parsed_index, before_closing, plain_number, may_be_plain};
ghost use Rattle.m_symbols.specs.Spans.{span_of};

use crate::Variable;
use m_ast::Role;
use m_text::whole_number;

/// Where the cells of a variable begin, and the size of a table.
#[derive(Clone, Copy)]
pub struct Span {
    pub first_cell: u32,
    /// None, if the variable isn't a table.
    pub size: Option<u32>,
}

/// The cells of a variable. Takes no memory, as all functions of this file.
pub fn span_of(variable: &Variable) -> Span
    ensures { result ≡ span_of variable.now }
{
    Span {
        first_cell: variable.first_cell,
        size: table_size(&variable.item.role),
    }
}

// The size of a table.
fn table_size(role: &Role) -> Option<u32>
    ensures { result ≡ size_in role.now }
{
    match role {
        Role::Computed(size) => *size,
        Role::Input(_) => None,
        Role::Constant(_) => None,
    }
}

/// The cell of a variable without an index: a table has none.
pub fn cell_without_index(span: Span) -> Option<u32>
    ensures { result ≡ cell_by None span.size span.first_cell }
{
    match span.size {
        Some(_) => None,
        None => Some(span.first_cell),
    }
}

/// The cell of a table at an index, given the text after `[`. `all` is the count of cells.
pub fn cell_at_index(span: Span, index: &[u8], all: u32) -> Option<u32>
    requires { IfSome span.size (λ size. span.first_cell + size ≤ all) }
    ensures { result ≡ cell_by (Some index.now) span.size span.first_cell }
{
    let _ = all;
    match span.size {
        Some(size) => cell_within(span.first_cell, size, parsed_index(index)?),
        None => None,
    }
}

fn cell_within(first: u32, size: u32, k: u32) -> Option<u32>
    requires { first + size < 2 ^ 32 }
    ensures { result ≡ cell_within first size k }
{
    if k < size { Some(first + k) } else { None }
}

// The index of a cell, from the text after `[`.
fn parsed_index(text: &[u8]) -> Option<u32>
    ensures { result ≡ parsed_index text.now }
{
    match before_closing(text) {
        Some(digits) => plain_number(digits),
        None => None,
    }
}

// The text before a final `]`, if it ends so.
fn before_closing(text: &[u8]) -> Option<&[u8]>
    ensures { MatchOption result (before_closing text.now ≡ None) (λ digits. before_closing text.now ≡ Some digits.now) }
{
    if text.is_empty() {
        return None;
    }
    let last = text.len() - 1;
    if text[last] == b']' {
        Some(&text[..last])
    } else {
        None
    }
}

// The number that one to four digits without leading zeros denote.
fn plain_number(digits: &[u8]) -> Option<u32>
    ensures { result ≡ plain_number digits.now }
{
    if may_be_plain(digits) {
        whole_number(digits)
    } else {
        None
    }
}

fn may_be_plain(digits: &[u8]) -> bool
    ensures { result ≡ may_be_plain digits.now }
{
    match digits {
        [] => false,
        [first, rest @ ..] => rest.len() <= 3 && (b'0' < *first || rest.len() == 0),
    }
}
