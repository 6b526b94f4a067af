//! The driver of a source without one.

ghost use Rattle.std.specs.Prelude.{◌≡◌, ◌<◌, All, IfOk, length};
ghost use Rattle.m_symbols.specs.Cells.{owner_of};
ghost use Rattle.m_symbols.specs.Declarations.{owners_from};
ghost use Rattle.driver_core.specs.Valid.{IsValidCore};
ghost use Rattle.mpp_core.specs.Cores.{plain_core, received_cells};
ghost use Rattle.mpp_core.specs.Names.{is_a_constant};

use driver_core::{CCommand, CCommandNode, Core};
use m_ast::Role;
use m_places::{Name, Seq};
use m_symbols::Symbols;
use std::alloc::{AllocError, Global};

/// The driver of a source without one: `main` with one call of the rules, which receives the
/// requested cells except those of constants. Its only error is running out of memory.
pub fn plain_driver(alloc: Global, requests: &[u32], symbols: &Symbols) -> Result<Core, AllocError>
    requires { All (λ c. c < length (owners_from 0 symbols.now.variables)) requests.now }
    ensures core { IfOk result (λ core. core ≡ plain_core requests.now symbols.now) }
    ensures valid { IfOk result IsValidCore }
    ensures cells { IfOk result (λ core. core.cells ≡ length (owners_from 0 symbols.now.variables)) }
{
    main_alone(alloc, requests, symbols)
}

// The function `main` with one call of the rules.
fn main_alone(alloc: Global, requests: &[u32], symbols: &Symbols) -> Result<Core, AllocError>
    requires { All (λ c. c < length (owners_from 0 symbols.now.variables)) requests.now }
    ensures { IfOk result (λ core. core ≡ plain_core requests.now symbols.now) }
{
    let received = received_cells(alloc, requests, symbols)?;
    let mut commands = Vec::with_capacity(alloc, 1)?;
    let names = received.as_slice().len() as u64;
    commands.push(CCommand::new(CCommandNode::Rules(1, names, received)))?;
    let mut bodies = Vec::with_capacity(alloc, 1)?;
    bodies.push(Seq::from_vec(commands))?;
    let mut names = Vec::with_capacity(alloc, 1)?;
    names.push(Name::new(alloc, b"main")?)?;
    Ok(Core {
        cells: symbols.cells(),
        names: Seq::from_vec(names),
        bodies: Seq::from_vec(bodies),
        main: 0,
    })
}

// The requested cells, without those of constants.
fn received_cells(
    alloc: Global,
    requests: &[u32],
    symbols: &Symbols,
) -> Result<Seq<u32>, AllocError>
    requires { All (λ c. c < length (owners_from 0 symbols.now.variables)) requests.now }
    ensures { IfOk result (λ cells. cells ≡ received_cells requests.now symbols.now) }
{
    let mut cells = Vec::new(alloc);
    for cell in requests {
        if !is_constant_cell(*cell, symbols) {
            cells.push(*cell)?;
        }
    }
    Ok(Seq::from_vec(cells))
}

// Whether a cell is a constant's.
fn is_constant_cell(cell: u32, symbols: &Symbols) -> bool
    requires { cell < length (owners_from 0 symbols.now.variables) }
    ensures { result ≡ is_a_constant (owner_of symbols.now cell) }
{
    match &symbols.variable(symbols.owner(cell)).item.role {
        Role::Constant(_) => true,
        Role::Input(_) => false,
        Role::Computed(_) => false,
    }
}
