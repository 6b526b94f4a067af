//! The weights of functions, found one by one.

ghost use Rattle.std.specs.Prelude.{◌≡◌, ◌≤◌, ℕ, length};
ghost use Rattle.micro_m.specs.declared.base.Base.{Base};
ghost use Rattle.driver_core.specs.Weights.{base_weight};
ghost use Rattle.driver_core.specs.inner.Capped.{capped};
ghost use Rattle.driver_core.specs.inner.WeightTable.{IsTable};

use crate::Core;
use crate::weigh_blocks::{calls_are_done, weigh_block};

/// The known weights of functions, and their count.
#[derive(Drop)]
pub struct Table {
    pub weights: Vec<u64>,
    pub done: Vec<bool>,
    pub count: usize,
}

impl Table {
    /// Computes the weight of a function, unless the weight of one that it calls isn't known.
    pub fn weigh(&mut self, core: &Core, function: u32, rules: u64, cells: u32)
        requires few { self.old.count ≤ length core.now.bodies }
        ensures table { (base : Base) → rules ≡ capped (base_weight base) → cells ≡ base.cells
            → IsTable core.now base self.old.weights.items self.old.done.items self.old.count
            → IsTable core.now base self.new.weights.items self.new.done.items self.new.count }
        ensures few { self.new.count ≤ length core.now.bodies }
    {
        let place = function as usize;
        let bodies = core.bodies.as_slice();
        if place >= bodies.len() || place >= self.done.len() || place >= self.weights.len() {
            return;
        }
        let body = bodies[place].as_slice();
        if self.count >= bodies.len() || !calls_are_done(body, &self.done) {
            return;
        }
        self.weights[place] = weigh_block(body, rules, cells as u64, &self.weights);
        self.done[place] = true;
        self.count += 1;
    }
}
