//! The whole pass.

ghost use Rattle.std.specs.Prelude.{◌≡◌, ℕ, ◌<◌, ◌≤◌, ◌+◌, ◌*◌, ◌^◌, List, length, map, IfOk, OnOk};
ghost use Rattle.m_places.specs.Refusals.{Outcome};
ghost use Rattle.m_places.specs.declared.limits.TheConstants.{CELLS, PARTS, DRIVER_WEIGHT};
ghost use Rattle.m_symbols.specs.Declarations.{Declared, owners_from, inputs_from, placed_from};
ghost use Rattle.micro_m.specs.declared.base.Base.{Base};
ghost use Rattle.micro_m.specs.Bases.{IsValidBase};
ghost use Rattle.rule_order.specs.Orders.{IsOrder};
ghost use Rattle.mpp_inline.specs.declared.fault.InlineFault.TheVariants.{Memory};
ghost use Rattle.driver_core.specs.declared.program.Core.{Core};
ghost use Rattle.driver_core.specs.Weights.{weight_of};
ghost use Rattle.mpp_inline.specs.Inlined.{IsInlined, HasWeight, IsTooLarge};
ghost use Rattle.mpp_inline.specs.inner.Growth.{HasLiterals, kinds_from};
ghost use Rattle.mpp_inline.specs.inner.Sizes.{load};
ghost use Rattle.mpp_inline.specs.inner.Observation.{Answers, numbers_of};

use crate::InlineFault;
use crate::begin::{first_cells, first_nodes, input_types, numbers_of, outputs_of};
use crate::blocks::emit_all;
use crate::builder::Builder;
use crate::ruleless::{is_ruleless, without_rules};
use driver_core::{Core, weight};
use flat_code::Flat;
use m_places::Seq;
use m_places::limits::DRIVER_WEIGHT;
use m_symbols::Symbols;
use observables::FaceLabel;
use rule_order::Ordered;
use std::alloc::{AllocError, Global};

/// The flat program of a driver over the rules of an ordered base, its labels, and the label number
/// of each note. For all values that the inputs may have, the observation of its run is the
/// driver's answer. The inputs are those of the symbols, in order. An input of type `Truth` is read
/// only by an `And` of it with itself, which replaces it everywhere else. There is an output for
/// each note, in order, then one for each requested cell.
///
/// The base has the cells of the symbols, and is ordered by `order`. A driver whose weight is above
/// 4,000,000 is rejected before any node is made. Otherwise the program has at most 6 nodes,
/// checks, labels and notes for each unit of the weight, two nodes for each cell, 3 literals and
/// the labels of the base. No depth of calls overflows a stack, since nothing recurses over calls.
pub fn inline(
    alloc: Global,
    core: &Core,
    ordered: &Ordered,
    symbols: &Symbols,
    requests: &[u32],
) -> Result<(Flat, Seq<FaceLabel>, Seq<u32>), InlineFault>
    requires base { IsValidBase ordered.now.base }
    requires order { IsOrder ordered.now.base ordered.now.sequence }
    requires cells { ordered.now.base.cells ≡ length (owners_from 0 symbols.now.variables) }
    requires placed { symbols.now.variables ≡ placed_from 0 (map (λ v. v.item) symbols.now.variables) }
    requires few_cells { ordered.now.base.cells ≤ CELLS }
    requires few_labels { length ordered.now.base.labels ≤ PARTS }
    ensures outcome { Outcome Memory result
        (λ made. HasWeight core.now ordered.now.base
        × IsInlined core.now ordered.now.base symbols.now requests.now made.0 made.1 made.2)
        (IsTooLarge core.now ordered.now.base) }
{
    let weight = weight(alloc, core, &ordered.base)?;
    if weight > DRIVER_WEIGHT {
        return Err(InlineFault::DriverTooLarge(weight));
    }
    let made = flat_program(alloc, core, ordered, symbols, requests)?;
    Ok(made)
}

/// The same, for a driver within the limit of weight.
///
/// Calls of the rules have no weight if the base has none, so a driver may have any number of such
/// calls. They are removed first.
fn flat_program(
    alloc: Global,
    core: &Core,
    ordered: &Ordered,
    symbols: &Symbols,
    requests: &[u32],
) -> Result<(Flat, Seq<FaceLabel>, Seq<u32>), AllocError>
    requires base { IsValidBase ordered.now.base }
    requires order { IsOrder ordered.now.base ordered.now.sequence }
    requires cells { ordered.now.base.cells ≡ length (owners_from 0 symbols.now.variables) }
    requires placed { symbols.now.variables ≡ placed_from 0 (map (λ v. v.item) symbols.now.variables) }
    requires few_cells { ordered.now.base.cells ≤ CELLS }
    requires few_labels { length ordered.now.base.labels ≤ PARTS }
    requires light { weight_of core.now ordered.now.base ≤ DRIVER_WEIGHT }
    ensures { IfOk result (λ made. IsInlined core.now ordered.now.base symbols.now requests.now made.0 made.1 made.2) }
{
    if is_ruleless(&ordered.base) {
        let left = without_rules(alloc, core)?;
        return whole_program(alloc, &left, ordered, symbols, requests);
    }
    whole_program(alloc, core, ordered, symbols, requests)
}

/// The same, for a driver from which nothing is removed.
fn whole_program(
    alloc: Global,
    core: &Core,
    ordered: &Ordered,
    symbols: &Symbols,
    requests: &[u32],
) -> Result<(Flat, Seq<FaceLabel>, Seq<u32>), AllocError>
    requires base { IsValidBase ordered.now.base }
    requires order { IsOrder ordered.now.base ordered.now.sequence }
    requires cells { ordered.now.base.cells ≡ length (owners_from 0 symbols.now.variables) }
    requires placed { symbols.now.variables ≡ placed_from 0 (map (λ v. v.item) symbols.now.variables) }
    requires few_cells { ordered.now.base.cells ≤ CELLS }
    requires few_labels { length ordered.now.base.labels ≤ PARTS }
    requires light { weight_of core.now ordered.now.base ≤ DRIVER_WEIGHT }
    ensures { IfOk result (λ made. IsInlined core.now ordered.now.base symbols.now requests.now made.0 made.1 made.2) }
{
    let inputs = input_types(alloc, symbols)?;
    let mut b = first_nodes(alloc, inputs, &ordered.base)?;
    let outputs = emit_driver(alloc, &mut b, core, ordered, symbols, requests)?;
    let notes = numbers_of(alloc, &b.notes)?;
    Ok(finished(b, symbols.inputs(), outputs, notes))
}

/// Emits the driver. Returns the nodes of the outputs.
fn emit_driver(
    alloc: Global,
    b: &mut Builder,
    core: &Core,
    ordered: &Ordered,
    symbols: &Symbols,
    requests: &[u32],
) -> Result<Vec<u32>, AllocError>
    requires base { IsValidBase ordered.now.base }
    requires order { IsOrder ordered.now.base ordered.now.sequence }
    requires cells { ordered.now.base.cells ≡ length (owners_from 0 symbols.now.variables) }
    requires inputs { b.old.inputs ≡ kinds_from symbols.now.variables }
    requires placed { symbols.now.variables ≡ placed_from 0 (map (λ v. v.item) symbols.now.variables) }
    requires room { load b.old + 2 * ordered.now.base.cells + 6 * weight_of core.now ordered.now.base < 2 ^ 32 }
    ensures size { OnOk result (load b.new ≤ load b.old + 2 * ordered.now.base.cells + 6 * weight_of core.now ordered.now.base) }
    ensures answers { IfOk result (λ outputs. HasLiterals ordered.now.base.labels b.old
        → Answers core.now ordered.now.base symbols.now requests.now b.new outputs.items) }
{
    let mut env = first_cells(alloc, b, symbols)?;
    emit_all(alloc, b, &mut env, core, ordered)?;
    outputs_of(alloc, &b.notes, &env, requests)
}

/// The finished program, its labels, and the label numbers of its notes.
fn finished(
    b: Builder,
    inputs: u32,
    outputs: Vec<u32>,
    notes: Vec<u32>,
) -> (Flat, Seq<FaceLabel>, Seq<u32>)
    ensures { (core : Core) (base : Base) (declared : Declared) (requests : List ℕ)
        → Answers core base declared requests b outputs.items → notes.items ≡ numbers_of b.notes.items
        → inputs ≡ length (inputs_from 0 declared.variables)
        → base.cells ≤ CELLS → weight_of core base ≤ DRIVER_WEIGHT
        → load b ≤ 3 + length base.labels + 2 * base.cells + 6 * weight_of core base
        → IsInlined core base declared requests result.0 result.1 result.2 }
{
    let Builder {
        inputs: _,
        nodes,
        checks,
        labels,
        notes: _,
    } = b;
    let flat = Flat {
        inputs,
        nodes: Seq::from_vec(nodes),
        checks: Seq::from_vec(checks),
        outputs: Seq::from_vec(outputs),
    };
    (flat, Seq::from_vec(labels), Seq::from_vec(notes))
}
