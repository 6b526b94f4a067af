//! Cells that are read and never defined.

ghost use Rattle.std.specs.Prelude.{◌≡◌, ◌<◌, ◌++◌, ◌&&◌, ℕ, All, false, not, OnOk, IfOk, length, map, slice_index_or};
ghost use Rattle.m_symbols.specs.Declarations.{owners_from};
ghost use Rattle.micro_m.specs.Bases.{IsValidBase, is_among, targets_of};
ghost use Rattle.m_lint.specs.declared.finding.Finding.TheVariants.{NeverDefined};
ghost use Rattle.m_lint.specs.Readings.{is_read};
ghost use Rattle.m_lint.specs.Findings.{is_given, is_set, is_never_defined, numbers_with};
ghost use Rattle.m_lint.specs.inner.Marks.{cleared};

use crate::Finding;
use crate::finding::add_if;
use crate::reads::read_marks;
use m_ast::Role;
use m_places::Place;
use m_symbols::{Symbols, Variable};
use micro_m::{Base, MTerm};
use std::alloc::{AllocError, Global};

/// Appends the cells that are read, belong to no input or constant, and have no definition.
pub(crate) fn add_never_defined(
    alloc: Global,
    base: &Base,
    symbols: &Symbols,
    findings: &mut Vec<Finding>,
) -> Result<(), AllocError>
    requires valid { IsValidBase base.now }
    requires cells { base.now.cells ≡ length (owners_from 0 symbols.now.variables) }
    ensures { OnOk result (findings.new.items ≡ findings.old.items ++ map NeverDefined (numbers_with (is_never_defined symbols.now base.now) base.now.cells)) }
{
    let marks = undefined_marks(alloc, base)?;
    add_marked(&marks, symbols, findings)
}

// For each cell whether it is read and has no definition.
fn undefined_marks(alloc: Global, base: &Base) -> Result<Vec<bool>, AllocError>
    requires { IsValidBase base.now }
    ensures count { IfOk result (λ marks. length marks.items ≡ base.now.cells) }
    ensures marks { IfOk result (λ marks. (c : ℕ) → c < base.now.cells
        → slice_index_or marks.items c false ≡ (is_read base.now c && not (is_among c (targets_of base.now)))) }
{
    let marks = read_marks(alloc, base)?;
    Ok(without_defined(base.definitions.as_slice(), marks))
}

// The marks without those of the cells that have definitions.
fn without_defined(definitions: &[(u32, MTerm, Place)], marks: Vec<bool>) -> Vec<bool>
    requires { All (λ d. d.0 < length marks.items) definitions.now }
    ensures { result.items ≡ cleared definitions.now marks.items }
{
    let mut left = marks;
    clear_defined(definitions, &mut left);
    left
}

// Clears the marks of the cells that have definitions.
fn clear_defined(definitions: &[(u32, MTerm, Place)], marks: &mut [bool])
    requires { All (λ d. d.0 < length marks.old) definitions.now }
    ensures { marks.new ≡ cleared definitions.now marks.old }
{
    for definition in definitions {
        marks[definition.0 as usize] = false;
    }
}

// Appends the marked cells that belong to no input or constant.
fn add_marked(
    marks: &[bool],
    symbols: &Symbols,
    findings: &mut Vec<Finding>,
) -> Result<(), AllocError>
    requires { length marks.now ≡ length (owners_from 0 symbols.now.variables) }
    ensures { OnOk result (findings.new.items ≡ findings.old.items
        ++ map NeverDefined (numbers_with (λ c. slice_index_or marks.now c false && not (is_given symbols.now c)) (length marks.now))) }
{
    for cell in 0..symbols.cells() {
        let open = is_open(marks, symbols, cell);
        add_if(open, Finding::NeverDefined(cell), findings)?;
    }
    Ok(())
}

// Whether a cell is marked and belongs to no input or constant.
fn is_open(marks: &[bool], symbols: &Symbols, cell: u32) -> bool
    requires count { length marks.now ≡ length (owners_from 0 symbols.now.variables) }
    requires within { cell < length marks.now }
    ensures { result ≡ (slice_index_or marks.now cell false && not (is_given symbols.now cell)) }
{
    marks[cell as usize] && !is_given(symbols, cell)
}

// Whether a cell belongs to an input or a constant.
fn is_given(symbols: &Symbols, cell: u32) -> bool
    requires { cell < length (owners_from 0 symbols.now.variables) }
    ensures { result ≡ is_given symbols.now cell }
{
    is_set(symbols.variable(symbols.owner(cell)))
}

fn is_set(variable: &Variable) -> bool
    ensures { result ≡ is_set variable.now }
{
    match &variable.item.role {
        Role::Input(_) => true,
        Role::Constant(_) => true,
        Role::Computed(_) => false,
    }
}
