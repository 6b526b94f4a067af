//! The steps of the compiler, in order.

ghost use Rattle.std.specs.Prelude.{◌≡◌, ◌<◌, ◌≤◌, ◌^◌, All, IfOk, IfSome, IsTrue, Ok, length};
ghost use Rattle.m_places.specs.Refusals.{Outcome};
ghost use Rattle.m_places.specs.declared.limits.TheConstants.{CELLS, FILE_BYTES, PARTS, REQUESTS};
ghost use Rattle.m_places.specs.SourceLimits.{SourceKeepsLimits, FileIsWithin};
ghost use Rattle.m_symbols.specs.Declarations.{owners_from};
ghost use Rattle.m_symbols.specs.Placed.{IsPlaced};
ghost use Rattle.micro_m.specs.Bases.{IsValidBase};
ghost use Rattle.rule_order.specs.Orders.{IsOrder};
ghost use Rattle.m_compile.specs.Sources.{HasRules, IsWritten, running};
ghost use Rattle.m_compile.specs.Faults.{IsSourceFault};
ghost use Rattle.flat_code.specs.Faces.{IsFaceOf};
ghost use Rattle.register_alloc.specs.Allocation.{IsAllocation, IsSmall};
ghost use Rattle.code_file.specs.Loading.{counts_agree};
ghost use Rattle.m_compile.specs.Compiled.{IsCompiled, IsProgramOf, IsRunnable};
ghost use Rattle.m_compile.specs.inner.Parts.{AreRequests, IsRequestsFault, IsProgramBy, IsHeavy, IsDriverFault, IsReady};
ghost use Rattle.m_compile.specs.declared.fault.SourceFault.TheVariants.{Memory};

use crate::SourceFault;
use crate::base::compile_base;
use crate::face::face_of;
use code_file::Loaded;
use dead_rules::tidy;
use driver_core::Core;
use flat_code::Tidy;
use m_places::{Seq, Source};
use m_symbols::{Symbols, read_requests};
use mpp_core::{plain_driver, resolve_driver};
use mpp_inline::inline;
use mpp_parser::parse_driver;
use observables::Face;
use reg_machine::Code;
use register_alloc::allocate;
use rule_base::RuleBase;
use std::alloc::{AllocError, Global};
use std::thread::Threads;

/// The program of a source, in the tidy form.
#[derive(Drop)]
pub struct Program {
    /// The inputs with their types; the labels, by which stops and notes are reported; and as
    /// outputs the notes, then the names of the requested cells.
    pub face: Face,
    pub tidy: Tidy,
}

/// Compiles a source to register code, or reports the fault of its earliest faulty step: rule files,
/// driver syntax, driver names, requests, weight.
///
/// For every list of values that the inputs may have by their types, the code's answer, read
/// through its face, is that of the source: the verifications that are noted and the values of the
/// requested cells, or the first stop. The code has one label for each of the face.
pub fn compile_with<R: Threads + Sync>(
    rt: &R,
    alloc: Global,
    source: &Source,
) -> Result<Loaded, SourceFault>
    requires { SourceKeepsLimits source.now }
    ensures { Outcome Memory result (IsCompiled source.now) (IsSourceFault source.now) }
{
    let program = program_of(rt, alloc, source)?;
    let code = coded(alloc, &program)?;
    let Program { face, tidy: _tidy } = program;
    Ok(Loaded { code, face })
}

/// Compiles a source to its program, without register code, and also returns its rules in their
/// order, for callers that report on both. Its faults are those of `compile_with`.
pub fn compile_with_rules<R: Threads + Sync>(
    rt: &R,
    alloc: Global,
    source: &Source,
) -> Result<(RuleBase, Program), SourceFault>
    requires { SourceKeepsLimits source.now }
    ensures outcome { Outcome Memory result (λ given. IsProgramOf source.now given.1) (IsSourceFault source.now) }
    ensures runnable { IfOk result (λ given. IsRunnable given.1.face given.1.tidy) }
    ensures rules { IfOk result (λ given. HasRules source.now given.0.symbols given.0.ordered.base) }
    ensures valid { IfOk result (λ given. IsValidBase given.0.ordered.base) }
    ensures order { IfOk result (λ given. IsOrder given.0.ordered.base given.0.ordered.sequence) }
    ensures placed { IfOk result (λ given. IsPlaced given.0.symbols) }
    ensures cells { IfOk result (λ given. given.0.ordered.base.cells ≡ length (owners_from 0 given.0.symbols.variables)) }
{
    let made = rules_of(rt, alloc, source)?;
    let program = program_over(alloc, source, &made)?;
    Ok((made, program))
}

// The base of a source's rule files, in an order.
fn rules_of<R: Threads + Sync>(
    rt: &R,
    alloc: Global,
    source: &Source,
) -> Result<RuleBase, SourceFault>
    requires { SourceKeepsLimits source.now }
    ensures outcome { Outcome Memory result (λ made. HasRules source.now made.symbols made.ordered.base) (IsSourceFault source.now) }
    ensures valid { IfOk result (λ made. IsValidBase made.ordered.base) }
    ensures order { IfOk result (λ made. IsOrder made.ordered.base made.ordered.sequence) }
    ensures placed { IfOk result (λ made. IsPlaced made.symbols) }
    ensures cells { IfOk result (λ made. made.ordered.base.cells ≡ length (owners_from 0 made.symbols.variables)) }
{
    let made = compile_base(
        rt,
        alloc,
        source.texts.as_slice(),
        source.application.bytes(),
    )?;
    Ok(made)
}

// The program of a source.
fn program_of<R: Threads + Sync>(
    rt: &R,
    alloc: Global,
    source: &Source,
) -> Result<Program, SourceFault>
    requires { SourceKeepsLimits source.now }
    ensures { Outcome Memory result (IsReady source.now) (IsSourceFault source.now) }
{
    let made = rules_of(rt, alloc, source)?;
    program_over(alloc, source, &made)
}

// The register code of a program, with one label for each of the face. The program is small enough,
// so the only error is running out of memory.
fn coded(alloc: Global, program: &Program) -> Result<Code, AllocError>
    requires shown { IsFaceOf program.now.face program.now.tidy }
    requires few { length program.now.face.labels < 2 ^ 32 }
    requires small { IsSmall program.now.tidy (length program.now.face.labels) }
    ensures allocated { IfOk result (IsAllocation program.now.tidy (length program.now.face.labels)) }
    ensures loadable { IfOk result (λ code. IsTrue (counts_agree code program.now.face.inputs program.now.face.labels program.now.face.outputs)) }
{
    let labels = program.face.labels.as_slice().len() as u32;
    allocate(alloc, &program.tidy, labels)
}

// The program of a source over its rules in an order.
fn program_over(alloc: Global, source: &Source, made: &RuleBase) -> Result<Program, SourceFault>
    requires limits { SourceKeepsLimits source.now }
    requires rules { HasRules source.now made.now.symbols made.now.ordered.base }
    requires base { IsValidBase made.now.ordered.base }
    requires order { IsOrder made.now.ordered.base made.now.ordered.sequence }
    requires cells { made.now.ordered.base.cells ≡ length (owners_from 0 made.now.symbols.variables) }
    requires placed { IsPlaced made.now.symbols }
    ensures { Outcome Memory result (IsReady source.now) (IsSourceFault source.now) }
{
    let (core, requests) = core_and_requests(alloc, source, &made.symbols)?;
    faced(alloc, made, &core, requests.as_slice())
}

// The driver that runs, and the cells of the requests.
fn core_and_requests(
    alloc: Global,
    source: &Source,
    symbols: &Symbols,
) -> Result<(Core, Seq<u32>), SourceFault>
    requires limits { SourceKeepsLimits source.now }
    requires placed { IsPlaced symbols.now }
    ensures outcome { Outcome Memory result (λ given. AreRequests symbols.now source.now given.0 given.1) (IsRequestsFault symbols.now source.now) }
    ensures known { IfOk result (λ given. All (λ c. c < length (owners_from 0 symbols.now.variables)) given.1) }
{
    let written = written(alloc, &source.driver, symbols)?;
    let requests = read_requests(alloc, &source.requests, symbols)?;
    let core = running(alloc, written, requests.as_slice(), symbols)?;
    Ok((core, requests))
}

// The driver over the declared cells, if the source has one.
fn written(
    alloc: Global,
    driver: &Option<Seq<u8>>,
    symbols: &Symbols,
) -> Result<Option<Core>, SourceFault>
    requires within { FileIsWithin driver.now }
    requires placed { IsPlaced symbols.now }
    ensures { Outcome Memory result (IsWritten symbols.now driver.now) (IsDriverFault symbols.now driver.now) }
{
    match driver {
        Some(bytes) => Ok(Some(core_of(alloc, bytes.as_slice(), symbols)?)),
        None => Ok(None),
    }
}

// Parses a driver and resolves its names.
fn core_of(alloc: Global, bytes: &[u8], symbols: &Symbols) -> Result<Core, SourceFault>
    requires within { length bytes.now ≤ FILE_BYTES }
    requires placed { IsPlaced symbols.now }
    ensures { Outcome Memory result (λ core. IsWritten symbols.now (Some bytes.now) (Some core)) (IsDriverFault symbols.now (Some bytes.now)) }
{
    let driver = parse_driver(alloc, bytes)?;
    let core = resolve_driver(alloc, &driver, symbols)?;
    Ok(core)
}

// The driver that runs: the source's, or without one a single call of the rules. The only error is
// running out of memory.
fn running(
    alloc: Global,
    written: Option<Core>,
    requests: &[u32],
    symbols: &Symbols,
) -> Result<Core, AllocError>
    requires { All (λ c. c < length (owners_from 0 symbols.now.variables)) requests.now }
    ensures { IfOk result (λ core. core ≡ running written requests.now symbols.now) }
{
    match written {
        Some(core) => Ok(core),
        None => plain_driver(alloc, requests, symbols),
    }
}

// The program of a driver over rules in an order.
fn faced(
    alloc: Global,
    made: &RuleBase,
    core: &Core,
    requests: &[u32],
) -> Result<Program, SourceFault>
    requires base { IsValidBase made.now.ordered.base }
    requires order { IsOrder made.now.ordered.base made.now.ordered.sequence }
    requires cells { made.now.ordered.base.cells ≡ length (owners_from 0 made.now.symbols.variables) }
    requires placed { IsPlaced made.now.symbols }
    requires few_cells { made.now.ordered.base.cells ≤ CELLS }
    requires few_labels { length made.now.ordered.base.labels ≤ PARTS }
    requires known { All (λ c. c < length (owners_from 0 made.now.symbols.variables)) requests.now }
    requires few { length requests.now ≤ REQUESTS }
    ensures { Outcome Memory result (IsProgramBy made.now.symbols made.now.ordered.base core.now requests.now) (IsHeavy core.now made.now.ordered.base) }
{
    let (flat, labels, notes) = inline(alloc, core, &made.ordered, &made.symbols, requests)?;
    let tidy = tidy(alloc, &flat)?;
    let face = face_of(alloc, &made.symbols, labels, notes.as_slice(), requests)?;
    Ok(Program { face, tidy })
}
