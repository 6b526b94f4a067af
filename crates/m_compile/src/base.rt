//! Compiles rule files alone, or as the compiler's first step.

ghost use Rattle.std.specs.Prelude.{◌≡◌, IfOk, length};
ghost use Rattle.m_places.specs.Refusals.{Outcome};
ghost use Rattle.m_places.specs.SourceLimits.{TextsAreWithin};
ghost use Rattle.m_symbols.specs.Declarations.{owners_from};
ghost use Rattle.m_symbols.specs.Placed.{IsPlaced};
ghost use Rattle.micro_m.specs.Bases.{IsValidBase};
ghost use Rattle.micro_m.specs.Reads.{HasNoCycle};
ghost use Rattle.rule_order.specs.Orders.{IsOrder};
ghost use Rattle.rule_base.specs.Base.{IsBaseOf};
ghost use Rattle.m_compile.specs.Faults.{IsBaseFault};
ghost use Rattle.m_compile.specs.declared.fault.SourceFault.TheVariants.{Memory};

use crate::SourceFault;
use m_places::Text;
use rule_base::{RuleBase, rule_base};
use std::alloc::Global;
use std::thread::Threads;

/// Compiles rule files without a driver or requests: to the base of the application and an order of
/// its definitions, or to the fault of the earliest step that has one. Several workers read the
/// files; their scheduling doesn't change the result.
pub fn compile_base<R: Threads + Sync>(
    rt: &R,
    alloc: Global,
    texts: &[Text],
    application: &[u8],
) -> Result<RuleBase, SourceFault>
    requires { TextsAreWithin texts.now }
    ensures outcome { Outcome Memory result
        (λ made. IsBaseOf texts.now application.now made.symbols made.ordered.base × IsOrder made.ordered.base made.ordered.sequence)
        (IsBaseFault texts.now application.now) }
    ensures valid { IfOk result (λ made. IsValidBase made.ordered.base) }
    ensures no_cycle { IfOk result (λ made. HasNoCycle made.ordered.base) }
    ensures placed { IfOk result (λ made. IsPlaced made.symbols) }
    ensures cells { IfOk result (λ made. made.ordered.base.cells ≡ length (owners_from 0 made.symbols.variables)) }
{
    let made = rule_base(rt, alloc, texts, application)?;
    Ok(made)
}
