//! Laws of reports, as sessions print them and `check` reads them. Each function does nothing: its contract is the
//! law.

ghost use Rattle.std.specs.Prelude.{◌≡◌, ◌<◌, ℕ, ℤ, List, length, Some, Ok};
ghost use Rattle.std.specs.List.{AllByRecursion};
ghost use Rattle.m_fixed.specs.declared.amount.Value.{Value};
ghost use Rattle.m_fixed.specs.Laws.{IsValue};
ghost use Rattle.household.specs.Household.{household_of, values_of};
ghost use Rattle.m_places.specs.declared.source.Source.{Source};
ghost use Rattle.m_symbols.specs.Declarations.{Declared};
ghost use Rattle.m_symbols.specs.Cells.{cell_name, request_cell};
ghost use Rattle.micro_m.specs.declared.base.Base.{Base};
ghost use Rattle.micro_m.specs.Values.{environment};
ghost use Rattle.driver_core.specs.Answers.{start_of};
ghost use Rattle.driver_core.specs.Inputs.{inputs_declared};
ghost use Rattle.why_report.specs.declared.line.ReportLine.{ReportLine};
ghost use Rattle.why_report.specs.Reasons.{IsReasonOf};
ghost use Rattle.why_report.specs.Reports.{parsed_report, report_text};
ghost use Rattle.why_session.specs.Explains.{Explaining, report_lines_of};
ghost use Rattle.m_compile.specs.Sources.{HasRules};
ghost use Rattle.command_plans.specs.declared.status.Status.{Status};
ghost use Rattle.rule_answers.specs.Checks.{CheckReplies, sound_line};
ghost use Rattle.command_answers.specs.Explained.{IsExplained};
ghost use Rattle.report_laws.specs.Readable.{CanBeRead};

/// Printed lines parse to these lines, if each can be read; so does the text of a session, which has the line `.`
/// after them.
pub fn printed_reports_read_back()
    ensures printed { (declared : Declared) (lines : List ReportLine) → AllByRecursion (CanBeRead declared) lines
        → parsed_report declared (report_text declared lines) ≡ Ok lines }
    ensures reported { (declared : Declared) (lines : List ReportLine) → AllByRecursion (CanBeRead declared) lines
        → parsed_report declared (report_lines_of declared lines) ≡ Ok lines }
{}

/// The printed name of each cell of a source's rules resolves to this cell. So the printed names of cells are
/// distinct.
pub fn cells_are_named()
    ensures { (source : Source) (declared : Declared) (base : Base) (c : ℕ) → HasRules source declared base → c < base.cells
        → request_cell declared (cell_name declared c) ≡ Some c }
{}

/// The lines of a reason by a source's rules can be read, if the inputs are undefined or have amounts.
pub fn reasons_can_be_read()
    ensures { (source : Source) (declared : Declared) (base : Base) (values : List Value) (c : ℕ) (lines : List ReportLine)
        → HasRules source declared base → AllByRecursion IsValue values → c < base.cells → IsReasonOf base (environment (start_of declared values)) c lines
        → AllByRecursion (CanBeRead declared) lines }
{}

/// A session's explanation of a cell's name is sound: if the inputs have the values that a household gives them, a
/// check of the explanation, with the same rules and household, prints `sound` with status 0.
pub fn printed_reasons_are_sound()
    ensures { (source : Source) (explains : Explaining) (declared : Declared) (base : Base) (rows name : List ℕ) (pairs : List (ℕ × ℤ))
        (c : ℕ) → IsExplained source explains → HasRules source declared base → household_of (inputs_declared declared) rows ≡ Ok pairs
        → request_cell declared name ≡ Some c → CheckReplies source rows (explains (values_of pairs (length (inputs_declared declared))) name) sound_line
        Status.Done }
{}
