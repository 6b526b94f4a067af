//! Builds the edges of a sheet: which nodes read which.
ghost use Rattle.std.specs.Prelude.{◌≡◌, ◌*◌, ◌<◌, IfOk, length, map};
ghost use Rattle.std.specs.List.{flat_map};
ghost use Rattle.value_sheet.specs.inner.Readers.{argument_sources, input_source, IsReaders, IsInputRows};

use crate::rows::Rows;
use flat_code::Node;
use m_fixed::arity;
use std::alloc::{AllocError, Global};

/// For each node the nodes that read it.
pub(crate) fn readers_of(alloc: Global, nodes: &[Node]) -> Result<Rows, AllocError>
    requires { 3 * length nodes.now < 4_294_967_295 }
    ensures { IfOk result (λ rows. IsReaders rows nodes.now) }
{
    let sources = sources_of(alloc, nodes, nodes.len() as u32)?;
    Rows::of_sources(alloc, &sources, 3, nodes.len())
}

/// For each input its nodes.
pub(crate) fn input_rows_of(alloc: Global, nodes: &[Node], inputs: u32) -> Result<Rows, AllocError>
    requires { 3 * length nodes.now < 4_294_967_295 }
    ensures { IfOk result (λ rows. IsInputRows rows nodes.now inputs) }
{
    let sources = input_sources_of(alloc, nodes, inputs)?;
    Rows::of_sources(alloc, &sources, 1, inputs as usize)
}

// Three sources for each node: its arguments, and `none` for each that it lacks.
fn sources_of(alloc: Global, nodes: &[Node], none: u32) -> Result<Vec<u32>, AllocError>
    requires { 3 * length nodes.now < 4_294_967_295 }
    ensures { IfOk result (λ sources. sources.items ≡ flat_map (argument_sources none) nodes.now) }
{
    let mut sources = Vec::with_capacity(alloc, 3 * nodes.len())?;
    for node in nodes {
        let three = three_sources(*node, none);
        sources.extend_from_slice(&three)?;
    }
    Ok(sources)
}

fn three_sources(node: Node, none: u32) -> [u32; 3]
    ensures { result ≡ argument_sources none node }
{
    match node {
        Node::Input(_) => [none, none, none],
        Node::Lit(_) => [none, none, none],
        Node::Do(op, a, b, c) => [
            a,
            if arity(op) > 1 { b } else { none },
            if arity(op) > 2 { c } else { none },
        ],
    }
}

// One source for each node: its input, or `none` if the node isn't an input.
fn input_sources_of(alloc: Global, nodes: &[Node], none: u32) -> Result<Vec<u32>, AllocError>
    ensures { IfOk result (λ sources. sources.items ≡ map (input_source none) nodes.now) }
{
    let mut sources = Vec::with_capacity(alloc, nodes.len())?;
    for node in nodes {
        sources.push(source_of(*node, none))?;
    }
    Ok(sources)
}

fn source_of(node: Node, none: u32) -> u32
    ensures { result ≡ input_source none node }
{
    match node {
        Node::Input(n) => n,
        Node::Lit(_) => none,
        Node::Do(_, _, _, _) => none,
    }
}
