//! Findings are written through a buffer, in pieces of one size.
ghost use Rattle.std.specs.Prelude.{◌≡◌, ◌<◌, length};
ghost use Rattle.m_ports.specs.Giving.{Gives};
ghost use Rattle.m_symbols.specs.Declarations.{inputs_from, owners_from};
ghost use Rattle.micro_m.specs.Bases.{IsValidBase};
ghost use Rattle.m_lint.specs.Findings.{AreWithinCounts};
ghost use Rattle.m_lint.specs.Lines.{findings_text};

use m_lint::{Finding, print_findings};
use m_ports::{BufferedSink, Failed, Origin, Printed, Sink};
use rule_base::RuleBase;
use std::marker::Brand;

// The size of the buffer in bytes.
const BUFFER_ROOM: usize = 65_536;

/// Writes the lines of findings, in pieces of one size. Takes no memory.
pub(crate) fn give_findings<K: Sink>(
    made: &RuleBase,
    findings: &[Finding],
    out: &mut K,
) -> Result<(), Failed>
    requires valid { IsValidBase made.now.ordered.base }
    requires within { AreWithinCounts (length (owners_from 0 made.now.symbols.variables)) (length made.now.ordered.base.checks)
        (length (inputs_from 0 made.now.symbols.variables)) findings.now }
    ensures { Gives K.written K.faults out.old out.new result (findings_text made.now.symbols made.now.ordered.base findings.now) }
{
    let mut room = [0; BUFFER_ROOM];
    let printed = buffer_findings::<K, Brand>(made, findings, &mut room, out);
    printed.result
}

// Writes them through a buffer over these bytes.
fn buffer_findings<'a, K: Sink, O: Origin>(
    made: &RuleBase,
    findings: &[Finding],
    room: &'a mut [u8],
    out: &'a mut K,
) -> Printed<'a, K>
    requires valid { IsValidBase made.now.ordered.base }
    requires within { AreWithinCounts (length (owners_from 0 made.now.symbols.variables)) (length made.now.ordered.base.checks)
        (length (inputs_from 0 made.now.symbols.variables)) findings.now }
    requires name { out.ghost_name ≡ O.name }
    requires start { K.written out.old ≡ O.start }
    requires some { 0 < length room.old }
    ensures name { result.out.ghost_name ≡ out.entry.ghost_name }
    ensures gives { Gives K.written K.faults out.old result.out.now result.result (findings_text made.now.symbols made.now.ordered.base findings.now) }
{
    let mut buffered = BufferedSink::<'a, K, O>::new(out, room);
    let printed = print_findings(&made.symbols, &made.ordered.base, findings, &mut buffered);
    buffered.finish(printed)
}
