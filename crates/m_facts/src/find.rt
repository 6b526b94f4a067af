//! Computes the findings.
ghost use Rattle.std.specs.Prelude.{◌≡◌, ◌<◌, ◌^◌, IfOk, length, map, take};
ghost use Rattle.std.specs.List.{AllByRecursion};
ghost use Rattle.observables.specs.declared.face.FaceLabel.TheVariants.{Verif};
ghost use Rattle.flat_code.specs.Faces.{IsFaceOf};
ghost use Rattle.flat_code.specs.Runs.{IsFlat};
ghost use Rattle.input_reads.specs.Reads.{depends_on};
ghost use Rattle.micro_m.specs.Bases.{IsValidBase};
ghost use Rattle.flat_code.specs.Facts.{fact_at};
ghost use Rattle.m_facts.specs.Found.{node_of, found_by, found_of};

use crate::FactsFound;
use crate::firsts::firsts_of;
use definedness::Fact;
use flat_code::{Flat, Tidy};
use input_reads::dependences;
use m_lint::{facts_of, never_stopping};
use m_places::Seq;
use micro_m::Base;
use observables::Face;
use std::alloc::{AllocError, Global};

/// The findings about a base and the program compiled from it, with the program's interface, given
/// the facts of the first inputs. Each further input may be undefined or any amount. The only error
/// is running out of memory.
///
/// For the nodes `Input(0)`, `Lit(2 units)` and `Do(Op::Mul, 0, 1, 0)`, with the last as output,
/// and an input of 0 to 5 units, the output is 0 to 10 units, and it depends on input 0.
///
/// Takes one step for each node, check and output, and for each byte of labels and names; then, for
/// every 64 requested cells, one step for each node and input, and one for each input in a result.
pub fn find_facts(
    alloc: Global,
    base: &Base,
    tidy: &Tidy,
    face: &Face,
    given: &[Fact],
) -> Result<FactsFound, AllocError>
    requires valid { IsValidBase base.now }
    requires few { length base.now.checks < 2 ^ 32 }
    requires shown { IsFaceOf face.now tidy.now }
    requires first_labels { take (length base.now.labels) face.now.labels ≡ map Verif base.now.labels }
    ensures { IfOk result (λ found. found ≡ found_of base.now tidy.now face.now given.now) }
{
    let flat = tidy.flat();
    let known = facts_of(alloc, flat.nodes.as_slice(), flat.inputs, given)?;
    found_by(alloc, &known, base, flat, face)
}

// The same, given the facts of all nodes.
fn found_by(
    alloc: Global,
    known: &[Fact],
    base: &Base,
    flat: &Flat,
    face: &Face,
) -> Result<FactsFound, AllocError>
    requires known { length known.now ≡ length flat.now.nodes }
    requires valid { IsValidBase base.now }
    requires few { length base.now.checks < 2 ^ 32 }
    requires flat { IsFlat flat.now }
    requires shown { IsFaceOf face.now flat.now }
    requires first_labels { take (length base.now.labels) face.now.labels ≡ map Verif base.now.labels }
    ensures { IfOk result (λ found. found ≡ found_by known.now base.now flat.now face.now) }
{
    let possible = facts_at(alloc, known, flat.outputs.as_slice())?;
    let silent = never_stopping(alloc, known, base, flat, face)?;
    let firsts = firsts_of(alloc, face.outputs.as_slice())?;
    let reads = reads_of(alloc, known, flat, &firsts)?;
    Ok(FactsFound {
        possible: Seq::from_vec(possible),
        silent: Seq::from_vec(silent),
        firsts: Seq::from_vec(firsts),
        reads,
    })
}

// The facts of these nodes.
fn facts_at(alloc: Global, known: &[Fact], nodes: &[u32]) -> Result<Vec<Fact>, AllocError>
    requires { AllByRecursion (λ p. p < length known.now) nodes.now }
    ensures { IfOk result (λ facts. facts.items ≡ map (fact_at known.now) nodes.now) }
{
    let mut facts = Vec::with_capacity(alloc, nodes.len())?;
    for p in nodes {
        facts.push(known[*p as usize])?;
    }
    Ok(facts)
}

// For each of these outputs the inputs on which its value may depend.
fn reads_of(
    alloc: Global,
    known: &[Fact],
    flat: &Flat,
    outputs: &[u32],
) -> Result<Seq<Seq<u32>>, AllocError>
    requires known { length known.now ≡ length flat.now.nodes }
    requires flat { IsFlat flat.now }
    requires within { AllByRecursion (λ k. k < length flat.now.outputs) outputs.now }
    ensures { IfOk result (λ reads. reads ≡ map (depends_on known.now flat.now.nodes flat.now.inputs) (map (node_of flat.now.outputs) outputs.now)) }
{
    let wanted = nodes_of(alloc, flat.outputs.as_slice(), outputs)?;
    dependences(alloc, flat.nodes.as_slice(), flat.inputs, known, &wanted)
}

// The nodes of these outputs.
fn nodes_of(alloc: Global, nodes: &[u32], outputs: &[u32]) -> Result<Vec<u32>, AllocError>
    requires { AllByRecursion (λ k. k < length nodes.now) outputs.now }
    ensures { IfOk result (λ wanted. wanted.items ≡ map (node_of nodes.now) outputs.now) }
{
    let mut wanted = Vec::with_capacity(alloc, outputs.len())?;
    for k in outputs {
        wanted.push(nodes[*k as usize])?;
    }
    Ok(wanted)
}
