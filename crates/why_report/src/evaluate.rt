//! Evaluates terms in reverse Polish form.

ghost use Rattle.std.specs.Prelude.{◌≡◌, ◌≤◌, [], length, slice_index_or, slice_range};
ghost use Rattle.micro_m.specs.Values.{environment};
ghost use Rattle.why_report.specs.inner.Parts.{executed, height, pushed};

use crate::part::{Part, pushed, taken};
use m_fixed::Value;

/// The value of a term, given the value of each cell by its number, or `otherwise` if it has no
/// parts. The stack's former values are irrelevant.
pub(crate) fn evaluate(
    parts: &[Part],
    values: &[Value],
    otherwise: Value,
    stack: &mut [Value],
) -> Value
    requires { height 0 parts.now ≤ length stack.old }
    ensures value { result ≡ slice_index_or (executed (environment values.now) parts.now []) 0 otherwise }
    ensures size { length stack.new ≡ length stack.old }
{
    let mut depth = 0usize;
    for part in parts {
        let kept = depth.saturating_sub(taken(part));
        let value = value_over(part, stack, kept, depth, values);
        stack[kept] = value;
        depth = kept + 1;
    }
    if depth == 0 { otherwise } else { stack[0] }
}

// The value that a part gives, where it takes those of the stack from `kept` on.
fn value_over(part: &Part, stack: &[Value], kept: usize, depth: usize, values: &[Value]) -> Value
    requires order { kept ≤ depth }
    requires room { depth ≤ length stack.now }
    ensures { result ≡ pushed (environment values.now) (slice_range stack.now kept depth) part.now }
{
    pushed(part, &stack[kept..depth], values)
}

/// No stack of these parts holds more values.
pub(crate) fn height_of(parts: &[Part]) -> usize
    ensures { height 0 parts.now ≤ result }
{
    let mut depth = 0usize;
    let mut most = 0;
    for part in parts {
        depth = depth.saturating_sub(taken(part)) + 1;
        if depth > most {
            most = depth;
        }
    }
    most
}
