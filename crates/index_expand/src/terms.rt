//! Terms with their loops expanded.
ghost use Rattle.std.specs.Prelude.{◌≡◌, ◌∷◌, ◌++◌, ◌<◌, ◌≤◌, All, IfOk, OnOk, length, map, take};
ghost use Rattle.m_ast.specs.Syntax as tree;
ghost use Rattle.m_ast.specs.View.{terms_of, links_of, members_of};
ghost use Rattle.loop_values.specs.Headers.{IsSingle, instances};
ghost use Rattle.loop_values.specs.Letters.{bind};
ghost use Rattle.index_expand.specs.Terms as spec;
ghost use Rattle.index_expand.specs.inner.Operands.{link_expanded, member_expanded, instance_link};

use crate::build::{
    add_link, add_member, add_term, boxed, boxed_value, boxed_word, boxed_x, summed, without,
    word_with,
};
use crate::template::Binding;
use crate::words::Words;
use loop_values::{bind_singles, index_values, put_back, single_count};
use m_ast::{Header, Index, Link, Member, Node, PLink, PMember, PNode, PTerm, Term};
use m_fixed::Op;
use m_places::{Name, Place};
use std::alloc::AllocError;
use std::mem::replace;

/// A term after the substitution of its letters, with its loops expanded and `X` replaced by
/// `cell`, if it is given. The only error is out of memory.
pub(crate) fn expanded(
    words: &Words<'_>,
    letters: &mut [Option<Name>],
    cell: Option<u32>,
    term: &Term,
) -> Result<PTerm, AllocError>
    requires { length letters.old ≡ 256 }
    ensures term { IfOk result (λ t. t ≡ spec.expanded cell letters.old term.now) }
    ensures letters { OnOk result (letters.new ≡ letters.old) }
{
    let term = expanded_box(words, letters, cell, term)?;
    Ok(Box::into_inner(term))
}

#[cycle(expanded)]
fn expanded_box(
    words: &Words<'_>,
    letters: &mut [Option<Name>],
    cell: Option<u32>,
    term: &Term,
) -> Result<Box<PTerm>, AllocError>
    requires { length letters.old ≡ 256 }
    ensures term { IfOk result (λ t. t.value ≡ spec.expanded cell letters.old term.now) }
    ensures letters { OnOk result (letters.new ≡ letters.old) }
{
    match &term.node {
        Node::Lit(value) => boxed_value(words.alloc, value),
        Node::Named(word, place) => boxed_word(words, letters, word, *place),
        Node::X(place) => boxed_x(words.alloc, cell, *place),
        Node::Cell(word, index, place) => expanded_cell(words, letters, cell, word, index, *place),
        Node::Apply(op, arguments) => expanded_apply(words, letters, cell, *op, arguments),
        Node::Chain(first, links) => expanded_chain(words, letters, cell, first, links),
        Node::Among(negated, first, members) => {
            expanded_among(words, letters, cell, *negated, first, members)
        }
        Node::Loop(header, body) => expanded_loop(words, letters, cell, header, body),
    }
}

// A read of a table's cell.
#[inline(never)]
#[cycle(expanded)]
fn expanded_cell(
    words: &Words<'_>,
    letters: &mut [Option<Name>],
    cell: Option<u32>,
    word: &Name,
    index: &Term,
    place: Place,
) -> Result<Box<PTerm>, AllocError>
    requires { length letters.old ≡ 256 }
    ensures term { IfOk result (λ t. t.value ≡ spec.expanded cell letters.old (tree.cell word.now index.now place)) }
    ensures letters { OnOk result (letters.new ≡ letters.old) }
{
    let index = expanded_box(words, letters, cell, index)?;
    match word_with(words, letters, word) {
        Ok(word) => boxed(words.alloc, PNode::Cell(word, index, place)),
        Err(error) => Err(without(index, error)),
    }
}

// An operator and its arguments.
#[inline(never)]
#[cycle(expanded)]
fn expanded_apply(
    words: &Words<'_>,
    letters: &mut [Option<Name>],
    cell: Option<u32>,
    op: Op,
    arguments: &[Term],
) -> Result<Box<PTerm>, AllocError>
    requires { length letters.old ≡ 256 }
    ensures term { IfOk result (λ t. t.value ≡ spec.expanded cell letters.old (tree.apply op (terms_of arguments.now))) }
    ensures letters { OnOk result (letters.new ≡ letters.old) }
{
    let arguments = expanded_terms(words, letters, cell, arguments)?;
    boxed(words.alloc, PNode::Apply(op, arguments))
}

// A chain.
#[inline(never)]
#[cycle(expanded)]
fn expanded_chain(
    words: &Words<'_>,
    letters: &mut [Option<Name>],
    cell: Option<u32>,
    first: &Term,
    links: &[Link],
) -> Result<Box<PTerm>, AllocError>
    requires { length letters.old ≡ 256 }
    ensures term { IfOk result (λ t. t.value ≡ spec.expanded cell letters.old (tree.chain first.now (links_of links.now))) }
    ensures letters { OnOk result (letters.new ≡ letters.old) }
{
    let first = expanded_box(words, letters, cell, first)?;
    match expanded_links(words, letters, cell, links) {
        Ok(links) => boxed(words.alloc, PNode::Chain(first, links)),
        Err(error) => Err(without(first, error)),
    }
}

// A membership.
#[inline(never)]
#[cycle(expanded)]
fn expanded_among(
    words: &Words<'_>,
    letters: &mut [Option<Name>],
    cell: Option<u32>,
    negated: bool,
    first: &Term,
    members: &[Member],
) -> Result<Box<PTerm>, AllocError>
    requires { length letters.old ≡ 256 }
    ensures term { IfOk result (λ t. t.value ≡ spec.expanded cell letters.old (tree.among negated first.now (members_of members.now))) }
    ensures letters { OnOk result (letters.new ≡ letters.old) }
{
    let first = expanded_box(words, letters, cell, first)?;
    match expanded_members(words, letters, cell, members) {
        Ok(members) => boxed(words.alloc, PNode::Among(negated, first, members)),
        Err(error) => Err(without(first, error)),
    }
}

// A loop: the sum of its instances.
#[inline(never)]
#[cycle(expanded)]
fn expanded_loop(
    words: &Words<'_>,
    letters: &mut [Option<Name>],
    cell: Option<u32>,
    header: &Header,
    body: &Term,
) -> Result<Box<PTerm>, AllocError>
    requires { length letters.old ≡ 256 }
    ensures term { IfOk result (λ t. t.value ≡ spec.expanded cell letters.old (tree.loop header.now body.now)) }
    ensures letters { OnOk result (letters.new ≡ letters.old) }
{
    let mut links = Vec::new(words.alloc);
    let indexes = header.indexes.as_slice();
    match expand_instances(words, letters, cell, indexes, body, &mut links) {
        Ok(()) => summed(words.alloc, links),
        Err(error) => Err(without(links, error)),
    }
}

#[cycle(expanded)]
fn expanded_terms(
    words: &Words<'_>,
    letters: &mut [Option<Name>],
    cell: Option<u32>,
    terms: &[Term],
) -> Result<Vec<PTerm>, AllocError>
    requires { length letters.old ≡ 256 }
    ensures terms { IfOk result (λ v. v.items ≡ map (spec.expanded cell letters.old) terms.now) }
    ensures letters { OnOk result (letters.new ≡ letters.old) }
{
    let mut copies = Vec::with_capacity(words.alloc, terms.len())?;
    for term in terms {
        let copy = match expanded_box(words, letters, cell, term) {
            Ok(copy) => copy,
            Err(error) => return Err(without(copies, error)),
        };
        match add_term(&mut copies, copy) {
            Ok(()) => {}
            Err(error) => return Err(without(copies, error)),
        }
    }
    Ok(copies)
}

#[cycle(expanded)]
fn expanded_links(
    words: &Words<'_>,
    letters: &mut [Option<Name>],
    cell: Option<u32>,
    links: &[Link],
) -> Result<Vec<PLink>, AllocError>
    requires { length letters.old ≡ 256 }
    ensures links { IfOk result (λ v. v.items ≡ map (link_expanded cell letters.old) links.now) }
    ensures letters { OnOk result (letters.new ≡ letters.old) }
{
    let mut copies = Vec::with_capacity(words.alloc, links.len())?;
    for link in links {
        let term = match expanded_box(words, letters, cell, &link.term) {
            Ok(term) => term,
            Err(error) => return Err(without(copies, error)),
        };
        match add_link(&mut copies, link.op, term) {
            Ok(()) => {}
            Err(error) => return Err(without(copies, error)),
        }
    }
    Ok(copies)
}

#[cycle(expanded)]
fn expanded_members(
    words: &Words<'_>,
    letters: &mut [Option<Name>],
    cell: Option<u32>,
    members: &[Member],
) -> Result<Vec<PMember>, AllocError>
    requires { length letters.old ≡ 256 }
    ensures members { IfOk result (λ v. v.items ≡ map (member_expanded cell letters.old) members.now) }
    ensures letters { OnOk result (letters.new ≡ letters.old) }
{
    let mut copies = Vec::with_capacity(words.alloc, members.len())?;
    for member in members {
        let low = match expanded_box(words, letters, cell, &member.low) {
            Ok(low) => low,
            Err(error) => return Err(without(copies, error)),
        };
        let high = match expanded_box(words, letters, cell, &member.high) {
            Ok(high) => high,
            Err(error) => return Err(without((copies, low), error)),
        };
        match add_member(&mut copies, low, high) {
            Ok(()) => {}
            Err(error) => return Err(without(copies, error)),
        }
    }
    Ok(copies)
}

// Appends the instances of a loop's body to the operands of a sum.
#[cycle(expanded)]
fn expand_instances(
    words: &Words<'_>,
    letters: &mut [Option<Name>],
    cell: Option<u32>,
    indexes: &[Index],
    body: &Term,
    links: &mut Vec<PLink>,
) -> Result<(), AllocError>
    requires { length letters.old ≡ 256 }
    ensures links { OnOk result (links.new.items
        ≡ links.old.items ++ map (instance_link cell body.now) (instances indexes.now letters.old)) }
    ensures letters { OnOk result (letters.new ≡ letters.old) }
{
    let singles = single_count(indexes);
    if singles > 0 {
        return expand_singles(words, letters, cell, singles, indexes, body, links);
    }
    match indexes {
        [] => {
            let term = expanded_box(words, letters, cell, body)?;
            add_link(links, Op::Add, term)
        }
        [index, rest @ ..] => expand_index(words, letters, cell, index, rest, body, links),
    }
}

// The same if indexes of one value come first. They are bound together, so that a header with many
// of them recurses no deeper than one with a single index. The previous bindings are restored.
#[inline(never)]
#[cycle(expanded)]
fn expand_singles(
    words: &Words<'_>,
    letters: &mut [Option<Name>],
    cell: Option<u32>,
    singles: usize,
    indexes: &[Index],
    body: &Term,
    links: &mut Vec<PLink>,
) -> Result<(), AllocError>
    requires letters { length letters.old ≡ 256 }
    requires some { 0 < singles }
    requires within { singles ≤ length indexes.now }
    requires single { All IsSingle (take singles indexes.now) }
    ensures links { OnOk result (links.new.items
        ≡ links.old.items ++ map (instance_link cell body.now) (instances indexes.now letters.old)) }
    ensures letters { OnOk result (letters.new ≡ letters.old) }
{
    let outer = bind_singles(words.alloc, letters, &indexes[..singles])?;
    match expand_instances(words, letters, cell, &indexes[singles..], body, links) {
        Ok(()) => {
            put_back(letters, &indexes[..singles], outer);
            Ok(())
        }
        Err(error) => Err(without(outer, error)),
    }
}

// The same with an outer index.
#[cycle(expanded)]
fn expand_index(
    words: &Words<'_>,
    letters: &mut [Option<Name>],
    cell: Option<u32>,
    index: &Index,
    indexes: &[Index],
    body: &Term,
    links: &mut Vec<PLink>,
) -> Result<(), AllocError>
    requires { length letters.old ≡ 256 }
    ensures links { OnOk result (links.new.items
        ≡ links.old.items ++ map (instance_link cell body.now) (instances (index.now ∷ indexes.now) letters.old)) }
    ensures letters { OnOk result (letters.new ≡ letters.old) }
{
    let values = index_values(words.alloc, index)?;
    for value in &values {
        let binding = Binding {
            letter: index.letter,
            value,
        };
        expand_bound(words, letters, cell, &binding, indexes, body, links)?;
    }
    Ok(())
}

// The same with a letter bound to a value. The previous binding is restored.
#[cycle(expanded)]
fn expand_bound(
    words: &Words<'_>,
    letters: &mut [Option<Name>],
    cell: Option<u32>,
    binding: &Binding<'_>,
    indexes: &[Index],
    body: &Term,
    links: &mut Vec<PLink>,
) -> Result<(), AllocError>
    requires { length letters.old ≡ 256 }
    ensures links { OnOk result (links.new.items
        ≡ links.old.items ++ map (instance_link cell body.now) (instances indexes.now (bind letters.old binding.now.letter binding.now.value.now))) }
    ensures letters { OnOk result (letters.new ≡ letters.old) }
{
    let value = binding.value.copy(words.alloc)?;
    let outer = replace(&mut letters[binding.letter as usize], Some(value));
    expand_instances(words, letters, cell, indexes, body, links)?;
    letters[binding.letter as usize] = outer;
    Ok(())
}
