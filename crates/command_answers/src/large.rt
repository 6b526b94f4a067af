//! `large N`: prepares the code of the generated source, and prints its answer to the generated household.
ghost use Rattle.std.specs.Prelude.{◌≡◌, ◌≤◌, IfOk};
ghost use Rattle.m_places.specs.declared.limits.TheConstants.{LARGE};
ghost use Rattle.household.specs.declared.fault.HouseholdFault.TheVariants as household;
ghost use Rattle.m_compile.specs.declared.fault.SourceFault.TheVariants as source;
ghost use Rattle.large_validity.specs.Sources.{large_requests, large_source};
ghost use Rattle.command_plans.specs.Printing.{IsAnswered};
ghost use Rattle.command_plans.specs.declared.status.Status.TheVariants as status;
ghost use Rattle.command_plans.specs.Views.{output_view};
ghost use Rattle.command_answers.specs.LargeAnswers.{LargeReplies};

use crate::program::prepare_code;
use code_answers::answer_large;
use command_plans::Status;
use itoa::Buffer;
use m_compile::SourceFault;
use m_large::large_base;
use m_places::{Name, Seq, Source};
use m_ports::Sink;
use m_text::append_pieces;
use std::alloc::{AllocError, Global};
use std::thread::Threads;

/// Prepares the code of the generated source with this many inputs, and prints the line `large N` and the answer to
/// the generated household.
pub fn run_large<R: Threads + Sync, K: Sink>(rt: &R, alloc: Global, n: u32, out: &mut K) -> Status
    requires some { 1 ≤ n }
    requires few { n ≤ LARGE }
    ensures { IsAnswered (LargeReplies n) (output_view K.written K.faults out.old) (output_view K.written K.faults out.new) result }
{
    let Ok(source) = large_source(alloc, n) else {
        return Status::Memory;
    };
    match prepare_code(rt, alloc, &source) {
        Ok(loaded) => answer_large(alloc, n, &loaded, out),
        Err(fault) => without_code(fault),
    }
}

// The status if the generated source has no code: it has no fault, so memory ran out.
fn without_code(fault: SourceFault) -> Status
    requires { fault ≡ source.Memory }
    ensures { result ≡ status.Memory }
{
    match fault {
        SourceFault::Memory => Status::Memory,
        SourceFault::Rules(_)
        | SourceFault::Driver(_)
        | SourceFault::Core(_)
        | SourceFault::Requests(_)
        | SourceFault::DriverTooLarge(_) => unreachable!(),
    }
}

// The generated source.
fn large_source(alloc: Global, n: u32) -> Result<Source, AllocError>
    requires some { 1 ≤ n }
    requires few { n ≤ LARGE }
    ensures { IfOk result (λ source. source ≡ large_source n) }
{
    let mut texts = Vec::new(alloc);
    texts.push(large_base(alloc, n)?)?;
    let application = Name::new(alloc, b"iliad")?;
    let requests = large_requests(alloc, n)?;
    Ok(Source {
        application,
        texts: Seq::from_vec(texts),
        driver: None,
        requests: Some(Seq::from_vec(requests)),
    })
}

// The requests of the generated source.
fn large_requests(alloc: Global, n: u32) -> Result<Vec<u8>, AllocError>
    requires { 1 ≤ n }
    ensures { IfOk result (λ text. text.items ≡ large_requests n) }
{
    let mut text = Vec::new(alloc);
    let mut buffer = Buffer::new();
    append_pieces(&mut text, &[b"T", buffer.format(n - 1).as_bytes(), b"\n"])?;
    Ok(text)
}
