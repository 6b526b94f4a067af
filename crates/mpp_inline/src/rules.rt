//! Calls of the rules: definitions in order, then checks.

ghost use Rattle.std.specs.Prelude.{◌≡◌, ℕ, List, [], ◌<◌, ◌≤◌, ◌+◌, ◌*◌, ◌^◌, length, OnOk, IfOk};
ghost use Rattle.std.specs.List.{sum_by};
ghost use Rattle.micro_m.specs.Bases.{IsValidBase};
ghost use Rattle.micro_m.specs.Failures.{Check};
ghost use Rattle.micro_m.specs.Values.{environment, term_value};
ghost use Rattle.rule_order.specs.Orders.{IsOrder, cells_at};
ghost use Rattle.driver_core.specs.Meaning.{goes};
ghost use Rattle.driver_core.specs.Weights.{check_weight, base_weight};
ghost use Rattle.mpp_inline.specs.declared.builder.Builder.{Builder};
ghost use Rattle.mpp_inline.specs.Labelling.{with_check, with_rules};
ghost use Rattle.mpp_inline.specs.inner.Cells.{picked};
ghost use Rattle.mpp_inline.specs.inner.Growth.{Sane, Known, Ready, TermStep, Computed, Stage, SameBut, judged, checked, computed, rules_in_turn};
ghost use Rattle.mpp_inline.specs.inner.Work.{Step};
ghost use Rattle.mpp_inline.specs.inner.Labels.{labelling_by};
ghost use Rattle.mpp_inline.specs.inner.Sizes.{load, positions_weight};

use crate::builder::{Builder, ZERO};
use crate::cells::{look, pick_cells, put, write};
use crate::terms::emit_term;
use crate::writes::write_under;
use flat_code::Node;
use m_fixed::Op;
use m_places::Label;
use micro_m::{Base, is_stopping, kind_at};
use rule_order::Ordered;
use std::alloc::{AllocError, Global};

/// The defined cells with their nodes, in the order of the definitions.
fn pick_defined(
    alloc: Global,
    env: &[u32],
    ordered: &Ordered,
) -> Result<Vec<(u32, u32)>, AllocError>
    requires { IsOrder ordered.now.base ordered.now.sequence }
    ensures { IfOk result (λ entries. entries.items
        ≡ picked 0 (cells_at ordered.now.base ordered.now.sequence) env.now) }
{
    let definitions = ordered.base.definitions.as_slice();
    let mut entries = Vec::new(alloc);
    for position in ordered.sequence.as_slice() {
        let definition = &definitions[*position as usize];
        entries.push((definition.0, look(env, definition.0 as usize)))?;
    }
    Ok(entries)
}

/// Emits the definitions in order.
fn emit_definitions(b: &mut Builder, env: &mut [u32], ordered: &Ordered) -> Result<(), AllocError>
    requires order { IsOrder ordered.now.base ordered.now.sequence }
    requires room { load b.old + 2 * positions_weight ordered.now.base ordered.now.sequence < 2 ^ 32 }
    ensures step { OnOk result (Sane b.old → Known b.old env.old
        → Computed b.old b.new env.old env.new (λ e. e) (computed ordered.now.base ordered.now.sequence)) }
    ensures frame { OnOk result (SameBut (cells_at ordered.now.base ordered.now.sequence) env.old env.new) }
    ensures size { OnOk result (load b.new + length ordered.now.sequence
        ≤ load b.old + 2 * positions_weight ordered.now.base ordered.now.sequence) }
{
    let definitions = ordered.base.definitions.as_slice();
    for position in ordered.sequence.as_slice() {
        let definition = &definitions[*position as usize];
        let number = emit_term(b, env, &definition.1)?;
        put(env, definition.0, number);
    }
    Ok(())
}

/// Emits a check under a guard. If the kind of its error stops the run, it is a check of the
/// condition. Otherwise it stops only on `Over`, and is noted: the note's node is 1 if the guard is
/// 1 and the condition is a number other than 0, otherwise 0.
fn emit_check(
    b: &mut Builder,
    guard: u32,
    condition: u32,
    label: u32,
    labels: &[Label],
) -> Result<(), AllocError>
    requires { load b.old + 4 < 2 ^ 32 }
    ensures step { OnOk result ((before : Builder) (env : List ℕ) (d : Check)
        → (Sane before → Known before env → TermStep before b.old env (λ e. term_value e d.0) condition)
        → d.1 ≡ label → label < length labels.now → Ready labels.now before env guard
        → Stage before b.new guard env env (λ e. goes [] e)
        (λ e. judged labels.now d.1 (term_value (environment e) d.0) e)) }
    ensures labelling { OnOk result (labelling_by b.new ≡ with_check labels.now label (labelling_by b.old)) }
    ensures size { OnOk result (load b.new ≤ load b.old + 4) }
{
    if is_stopping(kind_at(labels, label)) {
        return b.check_rule(guard, condition, false, label);
    }
    b.check_rule(guard, condition, true, label)?;
    let truth = b.push(Node::Do(Op::Truth, condition, condition, condition))?;
    let node = b.push(Node::Do(Op::Choose, guard, truth, ZERO))?;
    b.note(node, label)
}

/// Emits the checks in order, under a guard.
fn emit_checks(b: &mut Builder, env: &[u32], guard: u32, base: &Base) -> Result<(), AllocError>
    requires valid { IsValidBase base.now }
    requires room { load b.old + 4 * sum_by check_weight base.now.checks < 2 ^ 32 }
    ensures step { OnOk result (Ready base.now.labels b.old env.now guard
        → Stage b.old b.new guard env.now env.now (λ e. goes [] e) (checked base.now.labels base.now.checks)) }
    ensures labelling { OnOk result (Ready base.now.labels b.old env.now guard
        → labelling_by b.new ≡ with_rules base.now (labelling_by b.old)) }
    ensures size { OnOk result (load b.new ≤ load b.old + 4 * sum_by check_weight base.now.checks) }
{
    for (condition, label, _) in base.checks.as_slice() {
        let value = emit_term(b, env, condition)?;
        emit_check(b, guard, value, *label, base.labels.as_slice())?;
    }
    Ok(())
}

/// Emits the rules on a copy of the environment, from which these cells are copied back. Only the
/// defined cells are saved, not the whole environment. If there are more cells to copy back than
/// defined cells (cells may repeat), the choices under the guard are made for the defined cells
/// instead. So the weight of the definitions covers all choices.
pub fn emit_rules(
    alloc: Global,
    b: &mut Builder,
    env: &mut [u32],
    guard: u32,
    ordered: &Ordered,
    cells: &[u32],
) -> Result<(), AllocError>
    requires valid { IsValidBase ordered.now.base }
    requires order { IsOrder ordered.now.base ordered.now.sequence }
    requires room { load b.old + 4 * base_weight ordered.now.base < 2 ^ 32 }
    ensures step { OnOk result (Ready ordered.now.base.labels b.old env.old guard
        → Step b.old b.new guard env.old env.new (rules_in_turn ordered.now.base ordered.now.sequence cells.now)
        (with_rules ordered.now.base)) }
    ensures size { OnOk result (load b.new ≤ load b.old + 4 * base_weight ordered.now.base) }
{
    let before = pick_defined(alloc, env, ordered)?;
    emit_definitions(b, env, ordered)?;
    emit_checks(b, env, guard, &ordered.base)?;
    if cells.len() <= before.len() {
        let given = pick_cells(alloc, env, cells)?;
        write(env, &before);
        return write_under(b, env, guard, &given);
    }
    let after = pick_defined(alloc, env, ordered)?;
    write(env, &before);
    write_under(b, env, guard, &after)?;
    let given = pick_cells(alloc, env, cells)?;
    write(env, &before);
    write(env, &given);
    Ok(())
}
