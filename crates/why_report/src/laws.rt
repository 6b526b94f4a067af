//! Laws of derivations. Each function does nothing: its contract is the law.

ghost use Rattle.std.specs.Prelude.{◌≡◌, ◌<◌, ℕ, List, All};
ghost use Rattle.micro_m.specs.declared.base.Base.{Base};
ghost use Rattle.micro_m.specs.Bases.{IsValidBase};
ghost use Rattle.micro_m.specs.Values.{Environment, value_of};
ghost use Rattle.rule_order.specs.declared.ordered.Ordered.{Ordered};
ghost use Rattle.rule_order.specs.Orders.{IsOrder};
ghost use Rattle.why_report.specs.declared.line.ReportLine.{ReportLine};
ghost use Rattle.why_report.specs.Derivations.{IsSound};
ghost use Rattle.why_report.specs.Reasons.{IsReasonOf, why_lines};

/// Each value of a sound derivation is its cell's value by the base's meaning, even if other cells
/// of the base are on a cycle.
pub fn sound_lines_hold_values()
    ensures { (base : Base) (given : Environment) (lines : List ReportLine) → IsSound base given lines
        → All (λ line. line.value ≡ value_of base given line.cell) lines }
{}

/// In an ordered base, the lines of `why_lines` are the reason for a cell's value over any
/// environment: they are sound, the last line is the cell's, and each other line's cell is read by
/// a later line.
pub fn why_lines_are_a_reason()
    ensures { (ordered : Ordered) (given : Environment) (c : ℕ) → IsValidBase ordered.base → IsOrder ordered.base ordered.sequence
        → c < ordered.base.cells → IsReasonOf ordered.base given c (why_lines ordered given c) }
{}
