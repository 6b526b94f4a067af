//! Tables read at an index: each read becomes a node.

ghost use Rattle.std.specs.Prelude.{◌≡◌, ℕ, ◌<◌, ◌≤◌, ◌+◌, ◌*◌, ◌^◌, pos, negsuc, IfOk, OnOk};
ghost use Rattle.m_fixed.specs.declared.amount.Value.TheVariants.{Num, Undef};
ghost use Rattle.m_fixed.specs.declared.operator.Op.TheVariants.{At};
ghost use Rattle.m_fixed.specs.Operators.{op_value, chosen};
ghost use Rattle.micro_m.specs.Values.{environment, picked, picked_value};
ghost use Rattle.mpp_inline.specs.inner.Growth.{IsUsable, Sane, Known, Gives, TermStep, at, denoted};
ghost use Rattle.mpp_inline.specs.inner.Tables.{outside};
ghost use Rattle.mpp_inline.specs.inner.Sizes.{load};

use crate::builder::{Builder, UNDEF, ZERO};
use crate::cells::look;
use flat_code::Node;
use m_fixed::{Amount, Op, Value};
use micro_m::Picked;
use std::alloc::AllocError;

/// One unit, in millionths.
const UNIT: i128 = 1_000_000;

/// The node of a table read at a literal index.
pub fn emit_picked(b: &mut Builder, env: &[u32], place: Picked) -> Result<u32, AllocError>
    requires { load b.old < 2 ^ 32 }
    ensures step { IfOk result (λ k. Sane b.old → Known b.old env.now
        → TermStep b.old b.new env.now (λ e. picked_value e place) k) }
    ensures size { OnOk result (load b.new ≤ load b.old + 1) }
{
    match place {
        Picked::Cell(cell) => Ok(look(env, cell)),
        Picked::Fixed(value) => b.push(Node::Lit(value)),
    }
}

/// The node of a table read at a computed index: a choice for each cell. An index of at
/// most -1 gives 0, and an index past the last cell gives undefined.
pub fn emit_table(
    b: &mut Builder,
    env: &[u32],
    first: u32,
    size: u32,
    index: u32,
) -> Result<u32, AllocError>
    requires { load b.old + 3 * size + 3 < 2 ^ 32 }
    ensures step { IfOk result (λ k. Sane b.old → Known b.old env.now → IsUsable b.old index
        → Gives b.old b.new
        (λ inputs. picked_value (environment (denoted b.old inputs env.now)) (picked first size (at b.old inputs index))) k) }
    ensures size { OnOk result (load b.new ≤ load b.old + 3 * size + 3) }
{
    let mut number = emit_outside(b, index)?;
    let mut left = size;
    while left > 0 {
        left -= 1;
        let cell = look(env, first as usize + left as usize);
        number = emit_cell(b, index, left, cell, number)?;
    }
    Ok(number)
}

/// The node of a table read at an index that selects no cell.
fn emit_outside(b: &mut Builder, index: u32) -> Result<u32, AllocError>
    requires { load b.old + 3 < 2 ^ 32 }
    ensures step { IfOk result (λ k. Sane b.old → IsUsable b.old index
        → Gives b.old b.new (λ inputs. outside (at b.old inputs index)) k) }
    ensures size { OnOk result (load b.new ≤ load b.old + 3) }
{
    let limit = b.push(Node::Lit(unit_below()))?;
    let below = b.push(Node::Do(Op::Le, index, limit, UNDEF))?;
    b.push(Node::Do(Op::Choose, below, ZERO, UNDEF))
}

/// The cell at a place if the index selects it, otherwise the other node.
fn emit_cell(
    b: &mut Builder,
    index: u32,
    place: u32,
    cell: u32,
    other: u32,
) -> Result<u32, AllocError>
    requires { load b.old + 3 < 2 ^ 32 }
    ensures step { IfOk result (λ k. Sane b.old → IsUsable b.old index → IsUsable b.old cell → IsUsable b.old other
        → Gives b.old b.new
        (λ inputs. chosen (op_value At (at b.old inputs index) (Num (pos (place * 1000000))) Undef)
        (at b.old inputs cell) (at b.old inputs other)) k) }
    ensures size { OnOk result (load b.new ≤ load b.old + 3) }
{
    let meant = b.push(Node::Lit(units(place)))?;
    let test = b.push(Node::Do(Op::At, index, meant, UNDEF))?;
    b.push(Node::Do(Op::Choose, test, cell, other))
}

/// The number of a place as an amount: place 2 is 2 units.
fn units(place: u32) -> Value
    ensures { result ≡ Num (pos (place * 1000000)) }
{
    match Amount::new(place as i128 * UNIT) {
        Some(amount) => Value::Num(amount),
        None => Value::Undef,
    }
}

/// The number -1.
fn unit_below() -> Value
    ensures { result ≡ Num (negsuc 999999) }
{
    match Amount::new(-UNIT) {
        Some(amount) => Value::Num(amount),
        None => Value::Undef,
    }
}
