//! The base of rule files.

ghost use Rattle.m_places.specs.Refusals.{Outcome};
ghost use Rattle.std.specs.Prelude.{◌≡◌, ◌≢◌, ◌<◌, All, IfOk, OnOk, length, map};
ghost use Rattle.m_places.specs.SourceLimits.{TextsAreWithin};
ghost use Rattle.m_ast.specs.Whole.{IsWholeItem};
ghost use Rattle.m_symbols.specs.Declarations.{owners_from};
ghost use Rattle.m_symbols.specs.TableSizes.{TablesHaveCells};
ghost use Rattle.m_symbols.specs.Cells.{cell_name};
ghost use Rattle.m_symbols.specs.Placed.{IsPlaced};
ghost use Rattle.micro_m.specs.Bases.{IsValidBase};
ghost use Rattle.micro_m.specs.Reads.{HasNoCycle};
ghost use Rattle.rule_order.specs.Orders.{IsOrder};
ghost use Rattle.rule_base.specs.Base.{IsBaseOf};
ghost use Rattle.rule_base.specs.Faults.{IsRuleFault};
ghost use Rattle.rule_base.specs.inner.Parts.{IsBaseOver, IsOverFault, ShowsNamedCycle};
ghost use Rattle.rule_base.specs.declared.fault.RuleFault.TheVariants.{Cycle, Memory};

use crate::RuleFault;
use crate::files::items_of;
use index_expand::expand;
use m_ast::Item;
use m_places::Text;
use m_resolve::resolve;
use m_symbols::{Symbols, cell_names, declare};
use micro_m::Base;
use rule_order::{OrderFault, Ordered, order};
use std::alloc::{AllocError, Global};
use std::thread::Threads;

/// The declarations of rule files, and the rules of one application over the declared cells.
#[derive(Drop)]
pub struct RuleBase {
    pub symbols: Symbols,
    pub ordered: Ordered,
}

/// The base of the application in these rule files, with an order of its definitions, or the error
/// of the earliest step that fails: lexing or parsing a file, the declarations, the loops, the
/// names, or the order, which a cycle of cells excludes.
///
/// For the one file `A : const = 1 ; B : calculee : "b" ; regle 1 : application : iliad ; B = A ;`
/// the base of `iliad` has two cells and one definition.
pub fn rule_base<R: Threads + Sync>(
    rt: &R,
    alloc: Global,
    texts: &[Text],
    application: &[u8],
) -> Result<RuleBase, RuleFault>
    requires { TextsAreWithin texts.now }
    ensures outcome { Outcome Memory result
        (λ made. IsBaseOf texts.now application.now made.symbols made.ordered.base × IsOrder made.ordered.base made.ordered.sequence)
        (IsRuleFault texts.now application.now) }
    ensures valid { IfOk result (λ made. IsValidBase made.ordered.base) }
    ensures no_cycle { IfOk result (λ made. HasNoCycle made.ordered.base) }
    ensures placed { IfOk result (λ made. IsPlaced made.symbols) }
    ensures cells { IfOk result (λ made. made.ordered.base.cells ≡ length (owners_from 0 made.symbols.variables)) }
{
    let items = items_of(rt, alloc, texts)?;
    let symbols = declare(alloc, &items)?;
    let base = base_over(alloc, &items, application, &symbols)?;
    ordered_base(alloc, symbols, base)
}

// The application's rules over the declared cells.
fn base_over(
    alloc: Global,
    items: &[Item],
    application: &[u8],
    symbols: &Symbols,
) -> Result<Base, RuleFault>
    requires whole { All IsWholeItem items.now }
    requires placed { IsPlaced symbols.now }
    requires tables { TablesHaveCells symbols.now }
    ensures outcome { Outcome Memory result (IsBaseOver items.now application.now symbols.now) (IsOverFault items.now application.now symbols.now) }
    ensures valid { IfOk result IsValidBase }
    ensures cells { IfOk result (λ base. base.cells ≡ length (owners_from 0 symbols.now.variables)) }
{
    let plain = expand(alloc, items, application, symbols)?;
    let base = resolve(alloc, &plain, symbols)?;
    Ok(base)
}

// The base with an order, or a cycle as the names of its cells.
fn ordered_base(alloc: Global, symbols: Symbols, base: Base) -> Result<RuleBase, RuleFault>
    requires valid { IsValidBase base }
    requires cells { base.cells ≡ length (owners_from 0 symbols.variables) }
    ensures outcome { Outcome Memory result
        (λ made. (made.symbols ≡ symbols) × (made.ordered.base ≡ base) × IsOrder base made.ordered.sequence)
        (ShowsNamedCycle symbols base) }
    ensures no_cycle { OnOk result (HasNoCycle base) }
{
    match order(alloc, base) {
        Ok(ordered) => Ok(RuleBase { symbols, ordered }),
        Err(OrderFault::Cycle(cells)) => Err(cycle_of(alloc, &symbols, cells.as_slice())),
        Err(OrderFault::Memory) => Err(RuleFault::Memory),
    }
}

// The error of a cycle: the names of its cells, or `Memory` if there is none for them.
fn cycle_of(alloc: Global, symbols: &Symbols, cells: &[u32]) -> RuleFault
    requires { All (λ c. c < length (owners_from 0 symbols.now.variables)) cells.now }
    ensures { result ≢ Memory → result ≡ Cycle (map (cell_name symbols.now) cells.now) }
{
    match cell_names(alloc, symbols, cells) {
        Ok(names) => RuleFault::Cycle(names),
        Err(AllocError) => RuleFault::Memory,
    }
}
