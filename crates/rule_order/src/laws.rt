//! Laws of orders: empty functions whose contracts are the laws.

ghost use Rattle.std.specs.Prelude.{ℕ, List};
ghost use Rattle.micro_m.specs.declared.base.Base.{Base};
ghost use Rattle.micro_m.specs.Bases.{IsValidBase};
ghost use Rattle.micro_m.specs.Reads.{HasNoCycle};
ghost use Rattle.rule_order.specs.Orders.{IsOrder};

/// A base that has an order has no cycle.
pub fn ordered_has_no_cycle()
    ensures { (base : Base) (sequence : List ℕ) → IsValidBase base → IsOrder base sequence → HasNoCycle base }
{}
