//! The lines of cells, each after the lines of the cells that it reads.

ghost use Rattle.std.specs.Prelude.{◌≡◌, ◌<◌, ◌≤◌, [], All, length, take, slice_set};
ghost use Rattle.std.specs.Option.{option_map_or};
ghost use Rattle.micro_m.specs.Bases.{definition_of};
ghost use Rattle.micro_m.specs.Values.{environment, term_value};
ghost use Rattle.why_report.specs.Reasons.{lines_over};
ghost use Rattle.why_report.specs.inner.Held.{AreFollowing};
ghost use Rattle.why_report.specs.inner.Terms.{AreTerms};

use crate::ReportLine;
use crate::check::value_at;
use crate::evaluate::evaluate;
use crate::terms::Terms;
use m_fixed::Value;
use rule_order::Ordered;
use std::snapshot::Snapshot;

/// Writes the lines of these cells to the start of a list. The table's former values are
/// irrelevant.
pub(crate) fn fill_lines(
    ordered: &Snapshot<Ordered>,
    terms: &Terms,
    env: &[Value],
    cells: &[u32],
    values: &mut [Value],
    stack: &mut [Value],
    lines: &mut [ReportLine],
)
    requires terms { AreTerms ordered.now.value.base ordered.now.value.base.cells terms.now }
    requires stack { terms.now.height ≤ length stack.old }
    requires cells { All (λ c. c < ordered.now.value.base.cells) cells.now }
    requires following { AreFollowing ordered.now.value.base [] cells.now }
    requires values { length values.old ≡ ordered.now.value.base.cells }
    requires lines { length cells.now ≤ length lines.old }
    ensures lines { take (length cells.now) lines.new ≡ lines_over ordered.now.value.base (environment env.now) [] cells.now }
    ensures values_size { length values.new ≡ length values.old }
    ensures lines_size { length lines.new ≡ length lines.old }
    ensures stack_size { length stack.new ≡ length stack.old }
{
    for (position, cell) in cells.iter().enumerate() {
        values[*cell as usize] = cell_value(ordered, terms, env, *cell as usize, values, stack);
        put_line(*cell, values[*cell as usize], position, lines);
    }
}

// The value of a cell under the values of the cells that it reads.
fn cell_value(
    ordered: &Snapshot<Ordered>,
    terms: &Terms,
    env: &[Value],
    cell: usize,
    values: &[Value],
    stack: &mut [Value],
) -> Value
    requires terms { AreTerms ordered.now.value.base ordered.now.value.base.cells terms.now }
    requires stack { terms.now.height ≤ length stack.old }
    requires cell { cell < ordered.now.value.base.cells }
    ensures value { result ≡ option_map_or (term_value (environment values.now)) (definition_of ordered.now.value.base cell) (environment env.now cell) }
    ensures stack_size { length stack.new ≡ length stack.old }
{
    let _ = ordered;
    evaluate(terms.of(cell), values, value_at(env, cell), stack)
}

// Writes a line at a position.
fn put_line(cell: u32, value: Value, position: usize, lines: &mut [ReportLine])
    requires { position < length lines.old }
    ensures { lines.new ≡ slice_set lines.old position (record { cell = cell; value = value }) }
{
    lines[position] = ReportLine { cell, value };
}
