//! What terms read, as nodes: cells, and whether some cell of a kind is defined.

ghost use Rattle.std.specs.Prelude.{◌<◌, ◌≤◌, ◌+◌, ◌*◌, ◌^◌, length, IfOk, OnOk};
ghost use Rattle.micro_m.specs.Values.{environment, term_value, folded};
ghost use Rattle.driver_core.specs.Leaves.{then_present, any_present};
ghost use Rattle.driver_core.specs.Weights.{tree_weight};
ghost use Rattle.mpp_inline.specs.inner.Growth.{IsUsable, Sane, Known, Gives, TermStep, at, denoted};
ghost use Rattle.mpp_inline.specs.inner.Sizes.{load};

use crate::builder::{Builder, UNDEF, ZERO};
use crate::cells::look;
use driver_core::{CLeaf, KindCells};
use flat_code::Node;
use m_fixed::Op;
use micro_m::Leaf;
use std::alloc::AllocError;

/// A leaf that becomes a node.
pub trait Emitted: Leaf {
    /// The node with the value of the leaf.
    fn emit(&self, b: &mut Builder, env: &[u32]) -> Result<u32, AllocError>
        requires { load b.old + 2 * tree_weight (Self.leaf_tree self.now) ≤ 2 ^ 32 }
        ensures step { IfOk result (λ k. Sane b.old → Known b.old env.now
            → TermStep b.old b.new env.now (λ e. term_value e (Self.leaf_tree self.now)) k) }
        ensures size { OnOk result (load b.new < load b.old + 2 * tree_weight (Self.leaf_tree self.now)) };
}

impl Emitted for u32 {
    fn emit(&self, _b: &mut Builder, env: &[u32]) -> Result<u32, AllocError> {
        Ok(look(env, *self as usize))
    }
}

impl Emitted for CLeaf {
    fn emit(&self, b: &mut Builder, env: &[u32]) -> Result<u32, AllocError> {
        match self {
            CLeaf::Cell(cell) => Ok(look(env, *cell as usize)),
            CLeaf::Exists(kind) => emit_exists(b, env, kind),
        }
    }
}

/// Whether some cell of a kind is defined; 0 if the kind has no cells.
fn emit_exists(b: &mut Builder, env: &[u32], kind: &KindCells) -> Result<u32, AllocError>
    requires { load b.old + length kind.now + 1 < 2 ^ 32 }
    ensures step { IfOk result (λ k. Sane b.old → Known b.old env.now
        → TermStep b.old b.new env.now (λ e. term_value e (any_present kind.now)) k) }
    ensures size { OnOk result (load b.new ≤ load b.old + length kind.now) }
{
    let cells = kind.cells(b.alloc())?;
    emit_any(b, env, &cells)
}

/// Whether one of these cells is defined; 0 if there are none.
fn emit_any(b: &mut Builder, env: &[u32], cells: &[u32]) -> Result<u32, AllocError>
    requires { load b.old + length cells.now + 1 < 2 ^ 32 }
    ensures step { IfOk result (λ k. Sane b.old → Known b.old env.now
        → TermStep b.old b.new env.now (λ e. term_value e (any_present cells.now)) k) }
    ensures size { OnOk result (load b.new ≤ load b.old + length cells.now) }
{
    match cells.split_first() {
        Some((first, rest)) => emit_present(b, env, look(env, *first as usize), rest),
        None => Ok(ZERO),
    }
}

/// Whether the node so far or one of these cells is defined.
fn emit_present(b: &mut Builder, env: &[u32], so_far: u32, cells: &[u32]) -> Result<u32, AllocError>
    requires { load b.old + length cells.now + 1 < 2 ^ 32 }
    ensures size { OnOk result (load b.new ≤ load b.old + length cells.now + 1) }
    ensures step { IfOk result (λ k. Sane b.old → Known b.old env.now → IsUsable b.old so_far
        → Gives b.old b.new
        (λ inputs. folded (environment (denoted b.old inputs env.now)) (at b.old inputs so_far) (then_present cells.now)) k) }
{
    let mut number = so_far;
    for cell in cells {
        number = b.push(Node::Do(Op::Or, number, look(env, *cell as usize), UNDEF))?;
    }
    b.push(Node::Do(Op::Present, number, UNDEF, UNDEF))
}
