//! The registers of a node's arguments, and its instruction.

ghost use Rattle.std.specs.Prelude.{◌≡◌, ◌<◌};
ghost use Rattle.reg_machine.specs.declared.instr.TheConstants.{REGISTERS};
ghost use Rattle.register_alloc.specs.inner.Sound.{instr_of};

use flat_code::Node;
use reg_machine::Instr;

/// The registers of a node's arguments.
#[derive(Clone, Copy)]
pub struct Sources {
    pub first: u8,
    pub second: u8,
    pub third: u8,
}

/// The instruction of a node.
pub fn instr_of(node: Node, register: u8, sources: Sources) -> Instr
    ensures { result ≡ instr_of node register sources }
{
    match node {
        Node::Input(n) => Instr::Take(register, n),
        Node::Lit(v) => Instr::Lit(register, v),
        Node::Do(op, _, _, _) => {
            Instr::Do(op, register, sources.first, sources.second, sources.third)
        }
    }
}

/// A register other than these two.
pub fn other_than(one: u8, two: u8) -> u8
    ensures within { result < REGISTERS }
    ensures one { result ≡ one → ⊥ }
    ensures two { result ≡ two → ⊥ }
{
    if one != 0 && two != 0 {
        0
    } else if one != 1 && two != 1 {
        1
    } else {
        2
    }
}
