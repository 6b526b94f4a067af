//! Tables of the nodes in registers.

ghost use Rattle.std.specs.Prelude.{◌≡◌, ℕ, ◌<◌, ◌↔◌, length, IsTrue, IfSome, IfNone, Some};
ghost use Rattle.reg_machine.specs.declared.instr.TheConstants.{REGISTERS};
ghost use Rattle.register_alloc.specs.inner.Tables.{look};

use reg_machine::REGISTERS;

/// Whether an entry is this node.
fn is_node(entry: Option<usize>, x: usize) -> bool
    ensures { IsTrue result ↔ (entry ≡ Some x) }
{
    match entry {
        Some(y) => y == x,
        None => false,
    }
}

/// The register that holds a node, if there is one.
pub fn find(table: &[Option<usize>], x: usize) -> Option<u8>
    requires { length table.now ≡ REGISTERS }
    ensures within { IfSome result (λ k. k < REGISTERS) }
    ensures found { IfSome result (λ k. look table.now k ≡ Some x) }
    ensures absent { IfNone result ((k : ℕ) → look table.now k ≡ Some x → ⊥) }
{
    for i in 0..REGISTERS {
        if is_node(table[i as usize], x) {
            return Some(i);
        }
    }
    None
}
