//! A session over an input, and the line that reports why it ended before the input did.
ghost use Rattle.std.specs.Prelude.{◌≡◌, ◌<◌};
ghost use Rattle.household_session.specs.Repliers.{ended_of, whole_of};
ghost use Rattle.command_plans.specs.Views.{input_view, output_view};
ghost use Rattle.command_answers.specs.Serving.{Served};

use command_plans::{Status, print_fault};
use household_session::{Replier, ServeEnd, serve};
use m_ports::{Sink, Source};
use std::marker::Brand;
use std::sync::ledger::{Blank, Ledger};
use tax_print::Fault;
use value_sheet::Steps;

/// Executes the lines of an input, and gives the status. Takes no memory.
pub(crate) fn serve_session<R: Replier, S: Source, K: Sink>(
    replier: &mut R,
    input: &mut S,
    out: &mut K,
) -> Status
    ensures { Served (whole_of (R.replies replier.old)) (ended_of (R.replies replier.old))
        (input_view S.left S.faults input.old) (input_view S.left S.faults input.new)
        (output_view K.written K.faults out.old) (output_view K.written K.faults out.new) result }
{
    serve_counted::<R, S, K, Brand>(replier, input, out, Blank::new(1))
}

// The same with a counter of steps, which takes no bytes.
fn serve_counted<R: Replier, S: Source, K: Sink, L: Ledger>(
    replier: &mut R,
    input: &mut S,
    out: &mut K,
    blank: Blank,
) -> Status
    requires name { blank.name ≡ L.name }
    requires parts { blank.parts ≡ L.parts }
    requires some { 0 < L.parts }
    ensures { Served (whole_of (R.replies replier.old)) (ended_of (R.replies replier.old))
        (input_view S.left S.faults input.old) (input_view S.left S.faults input.new)
        (output_view K.written K.faults out.old) (output_view K.written K.faults out.new) result }
{
    let mut steps = Steps::<L>::begin(blank);
    match serve(replier, input, out, &mut steps) {
        ServeEnd::Done => Status::Done,
        ServeEnd::ReadFault => {
            print_fault(out, Fault::Words(b"unreadable input"), Status::ReadFault)
        }
        ServeEnd::WriteFault => Status::WriteFault,
        ServeEnd::TooLong => {
            print_fault(
                out,
                Fault::Words(b"refused input too long"),
                Status::Refused,
            )
        }
    }
}
