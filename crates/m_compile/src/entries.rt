//! Maps each fault of a source to its message. Takes no memory.

ghost use Rattle.std.specs.Prelude.{◌≡◌, ◌++◌, codes};
ghost use Rattle.std.specs.Option.{option_map};
ghost use Rattle.tax_print.specs.FaultLines.{fault_line, at_line, at_place};
ghost use Rattle.m_compile.specs.Lines.{file_of, source_line, rule_line, lex_line, parse_line, declare_line};
ghost use Rattle.m_compile.specs.Lines.{expand_line, resolve_line, driver_fault_line, core_line, request_fault_line};

use crate::SourceFault;
use index_expand::ExpandFault;
use m_items::ParseFault;
use m_lexer::LexFault;
use m_places::{Name, Place, Text};
use m_resolve::ResolveFault;
use m_symbols::{DeclareFault, RequestFault};
use mpp_core::CoreFault;
use mpp_lexer::DriverFault;
use rule_base::RuleFault;
use tax_print::Fault;

/// Maps a fault of a source with these rule files to its message, which names the file, the line
/// and the byte; `None` for running out of memory.
pub fn fault_entry<'a>(texts: &'a [Text], fault: &'a SourceFault) -> Option<Fault<'a>>
    ensures { option_map fault_line result ≡ source_line texts.now fault.now }
{
    match fault {
        SourceFault::Rules(fault) => rules_entry(texts, fault),
        SourceFault::Driver(fault) => observation_lines(*fault),
        SourceFault::Core(fault) => core_entry(fault),
        SourceFault::Requests(fault) => requests_entry(*fault),
        SourceFault::DriverTooLarge(weight) => Some(Fault::OfNumber(
            b"refused driver too large ",
            *weight,
        )),
        SourceFault::Memory => None,
    }
}

fn rules_entry<'a>(texts: &'a [Text], fault: &'a RuleFault) -> Option<Fault<'a>>
    ensures { option_map fault_line result ≡ rule_line texts.now fault.now }
{
    match fault {
        RuleFault::Lex(fault) => tokens_entry(texts, *fault),
        RuleFault::Parse(fault) => items_entry(texts, *fault),
        RuleFault::Declare(fault) => declarations_entry(texts, fault),
        RuleFault::Expand(fault) => loops_entry(texts, *fault),
        RuleFault::Resolve(fault) => names_entry(texts, fault),
        RuleFault::Cycle(names) => Some(Fault::OfNames(b"refused cycle", names.as_slice())),
        RuleFault::Memory => None,
    }
}

fn tokens_entry(texts: &[Text], fault: LexFault) -> Option<Fault<'_>>
    ensures { option_map fault_line result ≡ lex_line texts.now fault }
{
    match fault {
        LexFault::BadByte(place) => Some(at_place(texts, place, b"bad byte")),
        LexFault::OpenString(place) => Some(at_place(texts, place, b"open string")),
        LexFault::NumberTooGreat(place) => Some(at_place(texts, place, b"number too great")),
        LexFault::Memory => None,
    }
}

fn items_entry(texts: &[Text], fault: ParseFault) -> Option<Fault<'_>>
    ensures { option_map fault_line result ≡ parse_line texts.now fault }
{
    match fault {
        ParseFault::TooDeep(place) => Some(at_place(texts, place, b"too deep")),
        ParseFault::Syntax(place) => Some(at_place(texts, place, b"syntax")),
        ParseFault::Memory => None,
    }
}

fn declarations_entry<'a>(texts: &'a [Text], fault: &'a DeclareFault) -> Option<Fault<'a>>
    ensures { option_map fault_line result ≡ declare_line texts.now fault.now }
{
    match fault {
        DeclareFault::DeclaredTwice(name, _, place) => Some(at_name(
            texts,
            *place,
            b"declared twice ",
            name,
        )),
        DeclareFault::AliasTwice(code, _, place) => Some(at_name(
            texts,
            *place,
            b"alias twice ",
            code,
        )),
        DeclareFault::TableSize(place) => Some(at_place(texts, *place, b"table size")),
        DeclareFault::TooManyCells(place) => Some(at_place(texts, *place, b"too many cells")),
        DeclareFault::Memory => None,
    }
}

fn loops_entry(texts: &[Text], fault: ExpandFault) -> Option<Fault<'_>>
    ensures { option_map fault_line result ≡ expand_line texts.now fault }
{
    match fault {
        ExpandFault::BadRange(place) => Some(at_place(texts, place, b"bad range")),
        ExpandFault::LoopTooLarge(place) => Some(at_place(texts, place, b"loop too large")),
        ExpandFault::UnboundIndex(place) => Some(at_place(texts, place, b"unbound index")),
        ExpandFault::TooManyParts(place) => Some(at_place(texts, place, b"too many parts")),
        ExpandFault::Memory => None,
    }
}

fn names_entry<'a>(texts: &'a [Text], fault: &'a ResolveFault) -> Option<Fault<'a>>
    ensures { option_map fault_line result ≡ resolve_line texts.now fault.now }
{
    match fault {
        ResolveFault::UnknownName(name, place) => Some(at_name(
            texts,
            *place,
            b"unknown name ",
            name,
        )),
        ResolveFault::NotATable(name, place) => Some(at_name(texts, *place, b"not a table ", name)),
        ResolveFault::IsATable(name, place) => Some(at_name(texts, *place, b"is a table ", name)),
        ResolveFault::BadTarget(name, place) => Some(at_name(texts, *place, b"bad target ", name)),
        ResolveFault::DefinedTwice(name, place) => Some(at_name(
            texts,
            *place,
            b"defined twice ",
            name,
        )),
        ResolveFault::UnknownError(name, place) => Some(at_name(
            texts,
            *place,
            b"unknown error ",
            name,
        )),
        ResolveFault::Memory => None,
    }
}

fn observation_lines<'a>(fault: DriverFault) -> Option<Fault<'a>>
    ensures { option_map fault_line result ≡ driver_fault_line fault }
{
    match fault {
        DriverFault::DriverToken(line) => Some(Fault::AtLine(b"driver", line, b"bad token")),
        DriverFault::DriverTooDeep(line) => Some(Fault::AtLine(b"driver", line, b"too deep")),
        DriverFault::DriverSyntax(line) => Some(Fault::AtLine(b"driver", line, b"syntax")),
        DriverFault::Memory => None,
    }
}

fn core_entry(fault: &CoreFault) -> Option<Fault<'_>>
    ensures { option_map fault_line result ≡ core_line fault.now }
{
    match fault {
        CoreFault::FunctionTwice(name, line) => Some(of_name(*line, b"function twice ", name)),
        CoreFault::NoMain => Some(Fault::InInput(b"driver", b"no main")),
        CoreFault::UnknownInDriver(name, line) => Some(of_name(*line, b"unknown ", name)),
        CoreFault::BadTargetInDriver(name, line) => Some(of_name(*line, b"bad target ", name)),
        CoreFault::DriverRecursion(names) => Some(Fault::OfNames(
            b"refused driver recursion",
            names.as_slice(),
        )),
        CoreFault::Memory => None,
    }
}

fn requests_entry<'a>(fault: RequestFault) -> Option<Fault<'a>>
    ensures { option_map fault_line result ≡ request_fault_line fault }
{
    match fault {
        RequestFault::BadRequest(line) => Some(Fault::OfNumber(
            b"refused requests line ",
            line.into(),
        )),
        RequestFault::TooManyRequests => Some(Fault::Words(b"refused too many requests")),
        RequestFault::Memory => None,
    }
}

// A fault in a line of the driver, with the name in question.
fn of_name<'a>(line: u32, words: &'a [u8], name: &'a Name) -> Fault<'a>
    ensures { fault_line result ≡ at_line (codes "driver") line (words.now ++ name.now) }
{
    Fault::AtLineName(b"driver", line, words, name.bytes())
}

// A fault at a place in a rule file.
fn at_place<'a>(texts: &'a [Text], place: Place, words: &'a [u8]) -> Fault<'a>
    ensures { fault_line result ≡ at_place (file_of texts.now place) place words.now }
{
    Fault::AtPlace(file_of(texts, place), place, words)
}

// A fault at a place in a rule file, with the name in question.
fn at_name<'a>(texts: &'a [Text], place: Place, words: &'a [u8], name: &'a Name) -> Fault<'a>
    ensures { fault_line result ≡ at_place (file_of texts.now place) place (words.now ++ name.now) }
{
    Fault::AtPlaceName(file_of(texts, place), place, words, name.bytes())
}

// The name of the file of a place.
fn file_of(texts: &[Text], place: Place) -> &[u8]
    ensures { result.now ≡ file_of texts.now place }
{
    match texts.get(place.file as usize) {
        Some(text) => text.name.bytes(),
        None => &[],
    }
}
