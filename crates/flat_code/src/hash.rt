//! Hashing of nodes, for hash tables.
ghost use Rattle.std.specs.Prelude.{◌≡◌, fold};
ghost use Rattle.std.proofs.Common.{rules};
ghost use Rattle.std.specs.Cmp.Rules.{hashing};
ghost use Rattle.flat_code.specs.inner.Hashing.{node_fed, value_fed};

use crate::Node;
use m_fixed::Value;
use std::hash::{Hash, Hasher};

impl Hash for Node {
    ghost hash_input = { node_fed };

    ghost respects_eq = { Prim.search (hashing, rules) };

    fn hash<H: Hasher>(&self, state: &mut H) {
        match *self {
            Node::Input(n) => {
                state.write_u8(0);
                state.write_u32(n);
            }
            Node::Lit(value) => feed_value(value, state),
            Node::Do(op, a, b, c) => {
                state.write_u8(4);
                state.write_u8(op as u8);
                state.write_u32(a);
                state.write_u32(b);
                state.write_u32(c);
            }
        }
    }
}

fn feed_value<H: Hasher>(value: Value, state: &mut H)
    ensures { state.new ≡ fold H.write state.old (value_fed value) }
{
    match value {
        Value::Undef => state.write_u8(1),
        Value::Over => state.write_u8(2),
        Value::Num(amount) => {
            state.write_u8(3);
            state.write_i128(amount.millionths());
        }
    }
}
