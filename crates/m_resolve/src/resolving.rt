//! The whole base.

ghost use Rattle.std.specs.Prelude.{◌≡◌, ◌++◌, ◌≤◌, [], Ok, Err, IfOk, OnOk, length};
ghost use Rattle.std.specs.List.{cons_option};
ghost use Rattle.m_places.specs.Refusals.{Says};
ghost use Rattle.m_places.specs.declared.limits.TheConstants.{PARTS};
ghost use Rattle.micro_m.specs.Bases.{IsValidBase};
ghost use Rattle.m_symbols.specs.Placed.{IsPlaced};
ghost use Rattle.m_resolve.specs.Bases.{resolved, constants_of, constant_in};
ghost use Rattle.m_resolve.specs.declared.fault.ResolveFault.TheVariants.{Memory};

use crate::ResolveFault;
use crate::checks::{Checked, checks};
use crate::definitions::definitions;
use m_ast::{Plain, Role};
use m_fixed::Amount;
use m_places::Seq;
use m_symbols::{Symbols, Variable};
use micro_m::Base;
use std::alloc::{AllocError, Global};

/// The base of expanded rules over the declared cells, or the first error. All definitions are
/// resolved first, in order, and then all conditions; in a definition the target before the term,
/// and in a condition the term before the error.
///
/// `IRN = REV - 1000` with the input `REV` and the variable `IRN` becomes the definition of cell 1
/// as cell 0 minus 1000.
pub fn resolve(alloc: Global, plain: &Plain, symbols: &Symbols) -> Result<Base, ResolveFault>
    requires placed { IsPlaced symbols.now }
    requires few { length plain.now.conditions ≤ PARTS }
    ensures outcome { Says Memory result (λ base. base) (resolved symbols.now plain.now) }
    ensures valid { IfOk result IsValidBase }
{
    let definitions = definitions(alloc, plain.definitions.as_slice(), symbols)?;
    let Checked { checks, labels } = checks(alloc, plain.conditions.as_slice(), symbols)?;
    let constants = constants(alloc, symbols)?;
    Ok(Base {
        cells: symbols.cells(),
        constants,
        definitions: Seq::from_vec(definitions),
        checks: Seq::from_vec(checks),
        labels: Seq::from_vec(labels),
    })
}

// The cells of constants and their amounts, in order of declaration.
fn constants(alloc: Global, symbols: &Symbols) -> Result<Seq<(u32, Amount)>, AllocError>
    ensures { IfOk result (λ constants. constants ≡ constants_of symbols.now) }
{
    let mut constants = Vec::new(alloc);
    for number in 0..symbols.count() {
        add_constant(symbols.variable(number), &mut constants)?;
    }
    Ok(Seq::from_vec(constants))
}

// Adds the cell of a variable and its amount, if it is a constant.
fn add_constant(variable: &Variable, constants: &mut Vec<(u32, Amount)>) -> Result<(), AllocError>
    ensures { OnOk result (constants.new.items ≡ constants.old.items ++ cons_option (constant_in variable.now.first_cell variable.now.item.role) []) }
{
    match &variable.item.role {
        Role::Constant(amount) => constants.push((variable.first_cell, *amount))?,
        Role::Input(_) => {}
        Role::Computed(_) => {}
    }
    Ok(())
}
