//! A session that answers `why`.
ghost use Rattle.std.specs.Prelude.{◌≡◌, ◌+◌, ◌∷◌, ◌<◌, List, ℕ, All, None, IfOk, length};
ghost use Rattle.m_ports.specs.Giving.{Gives};
ghost use Rattle.observables.specs.Inputs.{AreValuesOf};
ghost use Rattle.m_names.specs.Names.{AreDistinct};
ghost use Rattle.m_symbols.specs.Declarations.{Declared, inputs_from, names_of, owners_from};
ghost use Rattle.m_symbols.specs.Placed.{IsPlaced};
ghost use Rattle.micro_m.specs.Bases.{IsValidBase};
ghost use Rattle.rule_order.specs.Orders.{IsOrder};
ghost use Rattle.household_session.specs.Repliers.{replied_then};
ghost use Rattle.household_session.specs.Replies.{reply_of};
ghost use Rattle.household_session.specs.Seats.{line_cost, seated_reply};
ghost use Rattle.why_report.specs.Starts.{IsStart};
ghost use Rattle.why_session.specs.Explains.{why_name, report_lines_of};
ghost use Rattle.why_session.specs.Joined.{explains_in, joined_replies};

use crate::why_line::why_name;
use household_session::{Replier, Session};
use m_ports::{Failed, Sink, give_pieces};
use m_symbols::Symbols;
use rule_order::Ordered;
use std::alloc::{AllocError, Global};
use std::marker::Model;
use std::sync::ledger::Ledger;
use value_sheet::Steps;
use why_report::{CellNames, ReportLine, Reporter, print_report};

/// A session, and a reporter that holds the current values of its inputs. Contracts see both, and the declarations,
/// of which only the names of cells are kept.
#[derive(Drop)]
pub struct Explainer {
    session: Session,
    reporter: Reporter,
    names: CellNames,
}

impl Model for Explainer {
    ghost use Rattle.std.specs.Coded.{codes};
    ghost use Rattle.micro_m.specs.inner.Coding.{coded_tree};
    ghost use Rattle.why_session.specs.Joined.{Joined};
    ghost use Rattle.why_session.specs.inner.Parts.{AreJoined};

    ghost Value = { Joined };

    ghost coded = { Prim.hlevel (codes, coded_tree) };

    ghost view = { λ e. record { seated = e.session; reporting = e.reporter; declared = e.names } };

    ghost invariant = { λ e. AreJoined e.session e.reporter e.names };
}

impl Explainer {
    /// Joins a session to a reporter, whose inputs are the session's and have the same values. The only error is out
    /// of memory, and no later call takes memory.
    pub fn new(
        alloc: Global,
        session: Session,
        ordered: Ordered,
        symbols: Symbols,
    ) -> Result<Explainer, AllocError>
        requires valid { IsValidBase ordered.base }
        requires order { IsOrder ordered.base ordered.sequence }
        requires placed { IsPlaced symbols }
        requires distinct { AreDistinct (names_of symbols.variables) }
        requires cells { ordered.base.cells ≡ length (owners_from 0 symbols.variables) }
        requires values { AreValuesOf session.sitting.face.inputs session.sitting.values }
        requires many { length session.sitting.face.inputs ≡ length (inputs_from 0 symbols.variables) }
        ensures session { IfOk result (λ joined. joined.seated ≡ session) }
        ensures declared { IfOk result (λ joined. joined.declared ≡ symbols) }
        ensures ordered { IfOk result (λ joined. joined.reporting.ordered ≡ ordered) }
    {
        let mut reporter = Reporter::new(alloc, ordered, &symbols)?;
        let names = CellNames::of(alloc, &symbols)?;
        drop(symbols);
        put_inputs(&mut reporter, &session);
        Ok(Explainer {
            session,
            reporter,
            names,
        })
    }

    // Replies to `why NAME`.
    fn reply_to_why<K: Sink>(&mut self, name: &[u8], out: &mut K) -> Result<(), Failed>
        ensures gives { Gives K.written K.faults out.old out.new result (explains_in self.old name.now) }
        ensures stays { joined_replies self.new ≡ joined_replies self.old }
    {
        match self.names.find(name) {
            Some(cell) => {
                self.reporter.why(cell);
                print_lines(&self.names, self.reporter.lines(), out)
            }
            None => give_pieces(out, &[b"refused unknown variable\n"]),
        }
    }

    // Does a line other than `why`. An edit is applied to the reporter too.
    fn do_line<K: Sink, L: Ledger>(
        &mut self,
        line: &[u8],
        out: &mut K,
        steps: &mut Steps<L>,
    ) -> Result<(), Failed>
        requires { why_name line.now ≡ None }
        ensures gives { Gives K.written K.faults out.old out.new result (reply_of self.old.seated.sitting line.now) }
        ensures cost { steps.new ≡ steps.old + line_cost self.old.seated line.now }
        ensures goes_on { (lines : List (List ℕ)) → joined_replies self.old (line.now ∷ lines)
            ≡ replied_then (seated_reply self.old.seated line.now) (joined_replies self.new lines) }
    {
        let named = self.session.input_named(line);
        let replied = self.session.command(line, out, steps);
        match named {
            Some(input) => self.reporter.put(input, self.session.input_value(input)),
            None => {}
        }
        replied
    }
}

impl Replier for Explainer {
    ghost use Rattle.std.specs.Prelude.{refl};
    ghost use Rattle.why_session.specs.inner.Parts.{long_alike};

    ghost replies = { joined_replies };

    fn reply<K: Sink, L: Ledger>(
        &mut self,
        line: &[u8],
        out: &mut K,
        steps: &mut Steps<L>,
    ) -> Result<(), Failed> {
        match why_name(line) {
            Some(name) => self.reply_to_why(name, out),
            None => self.do_line(line, out, steps),
        }
    }

    ghost nothing = { λ e. refl };

    ghost long = { long_alike };
}

// Copies the values of a session's inputs to a reporter that has as many inputs.
fn put_inputs(reporter: &mut Reporter, session: &Session)
    requires values { AreValuesOf session.now.sitting.face.inputs session.now.sitting.values }
    requires many { length session.now.sitting.face.inputs ≡ length reporter.old.inputs }
    ensures inputs { reporter.new.inputs ≡ session.now.sitting.values }
    ensures ordered { reporter.new.ordered ≡ reporter.old.ordered }
    ensures start { (declared : Declared) → IsStart declared reporter.old → IsStart declared reporter.new }
{
    let mut input = 0;
    let count = session.count();
    while input < count {
        reporter.put(input, session.input_value(input));
        input += 1;
    }
}

// Writes the lines of a report, and then a line with a point.
fn print_lines<K: Sink>(names: &CellNames, lines: &[ReportLine], out: &mut K) -> Result<(), Failed>
    requires { All (λ line. line.cell < length (owners_from 0 names.now.variables)) lines.now }
    ensures { Gives K.written K.faults out.old out.new result (report_lines_of names.now lines.now) }
{
    print_report(names, lines, out)?;
    give_pieces(out, &[b".\n"])
}
