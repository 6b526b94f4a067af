//! Files of requests.

ghost use Rattle.std.specs.Prelude.{◌≡◌, ◌<◌, ◌≤◌, All, IfOk, Ok, Err, [], length, option_map};
ghost use Rattle.m_places.specs.Refusals.{Outcome, Says};
ghost use Rattle.m_places.specs.declared.limits.TheConstants.{FILE_BYTES};
ghost use Rattle.m_text.specs.Lines.{lines_of};
ghost use Rattle.m_symbols.specs.Declarations.{owners_from};
ghost use Rattle.m_symbols.specs.Placed.{IsPlaced};
ghost use Rattle.m_symbols.specs.Requests.{parsed_requests, parsed_lines, few};
ghost use Rattle.m_symbols.specs.declared.request_fault.RequestFault.TheVariants.{Memory};
ghost use Rattle.m_places.specs.SourceLimits.{FileIsWithin};

use crate::Symbols;
use crate::cells::{find_request, returned};
use crate::request_fault::RequestFault;
use m_places::Seq;
use m_places::limits::REQUESTS;
use m_text::first_line;
use std::alloc::Global;

/// The requested cells: those that the lines of a file name, or without a file all returned cells.
/// Each line that isn't empty names one cell, and a cell may be requested twice.
///
/// The first bad line is reported; if there is none, that there are more than 100,000 requests.
pub fn read_requests(
    alloc: Global,
    requests: &Option<Seq<u8>>,
    symbols: &Symbols,
) -> Result<Seq<u32>, RequestFault>
    requires placed { IsPlaced symbols.now }
    requires small { FileIsWithin requests.now }
    ensures outcome { Says Memory result (λ cells. cells) (parsed_requests requests.now symbols.now) }
    ensures known { IfOk result (All (λ c. c < length (owners_from 0 symbols.now.variables))) }
{
    match requests {
        Some(bytes) => few(read_lines(alloc, bytes.as_slice(), symbols)?),
        None => few(returned(alloc, symbols)?),
    }
}

// The cells that the lines of a file name.
fn read_lines(alloc: Global, bytes: &[u8], symbols: &Symbols) -> Result<Seq<u32>, RequestFault>
    requires placed { IsPlaced symbols.now }
    requires small { length bytes.now ≤ FILE_BYTES }
    ensures outcome { Outcome Memory result (λ cells. parsed_lines symbols.now 1 [] (lines_of bytes.now) ≡ Ok cells)
        (λ fault. parsed_lines symbols.now 1 [] (lines_of bytes.now) ≡ Err fault) }
    ensures known { IfOk result (All (λ c. c < length (owners_from 0 symbols.now.variables))) }
{
    let mut cells = Vec::new(alloc);
    let mut number = 1u32;
    let mut left = bytes;
    while let Some((line, rest)) = first_line(left) {
        if !line.is_empty() {
            let Some(cell) = find_request(symbols, line) else {
                return Err(RequestFault::BadRequest(number));
            };
            cells.push(cell)?;
        }
        number += 1;
        left = rest;
    }
    Ok(Seq::from_vec(cells))
}

// The cells, if they aren't too many.
fn few(cells: Seq<u32>) -> Result<Seq<u32>, RequestFault>
    ensures { result ≡ few (Ok cells) }
{
    if cells.as_slice().len() > REQUESTS as usize {
        Err(RequestFault::TooManyRequests)
    } else {
        Ok(cells)
    }
}
