//! The facts of all inputs, from ranges for some of them.
ghost use Rattle.std.specs.Prelude.{◌≡◌, ◌<◌, IfOk, length, map};
ghost use Rattle.std.specs.List.{AllByRecursion};
ghost use Rattle.input_ranges.specs.Ranges.{facts_within, type_fact, type_facts};

use crate::bounds::type_fact;
use definedness::Fact;
use m_places::Seq;
use observables::Coded;
use std::alloc::{AllocError, Global};

/// An input and its possible values.
#[derive(Clone, Copy, Debug)]
pub(crate) struct InputRange {
    /// The input's number: its position among all inputs, from 0.
    pub(crate) input: u32,
    pub(crate) fact: Fact,
}

/// The facts of inputs without ranges: undefined, or any amount of the type. Its only error is
/// running out of memory.
pub fn type_facts(alloc: Global, inputs: &[Coded]) -> Result<Seq<Fact>, AllocError>
    ensures { IfOk result (λ facts. facts ≡ type_facts inputs.now) }
{
    Ok(Seq::from_vec(facts_of_types(alloc, inputs)?))
}

/// The facts of inputs with these ranges: that of its range, or without one that of its type. Its
/// only error is running out of memory.
pub(crate) fn facts_within(
    alloc: Global,
    inputs: &[Coded],
    ranges: &[InputRange],
) -> Result<Seq<Fact>, AllocError>
    requires { AllByRecursion (λ range. range.input < length inputs.now) ranges.now }
    ensures { IfOk result (λ facts. facts ≡ facts_within ranges.now inputs.now) }
{
    let mut facts = facts_of_types(alloc, inputs)?;
    put_ranges(inputs, ranges, &mut facts);
    Ok(Seq::from_vec(facts))
}

// The fact of each input by its type.
fn facts_of_types(alloc: Global, inputs: &[Coded]) -> Result<Vec<Fact>, AllocError>
    ensures { IfOk result (λ facts. facts.items ≡ map (λ input. type_fact input.kind) inputs.now) }
{
    let mut facts = Vec::with_capacity(alloc, inputs.len())?;
    for input in inputs {
        facts.push(type_fact(input.kind))?;
    }
    Ok(facts)
}

// Replaces the facts of inputs that have ranges. For an input with several ranges the first one is
// used.
fn put_ranges(inputs: &[Coded], ranges: &[InputRange], facts: &mut [Fact])
    requires known { AllByRecursion (λ range. range.input < length inputs.now) ranges.now }
    requires types { facts.old ≡ type_facts inputs.now }
    ensures { facts.new ≡ facts_within ranges.now inputs.now }
{
    let mut left = ranges.len();
    while left > 0 {
        left -= 1;
        let InputRange { input, fact } = ranges[left];
        facts[input as usize] = fact;
    }
}
