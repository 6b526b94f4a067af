//! A value sheet of the program written by hand.
ghost use Rattle.std.specs.Prelude.{◌≡◌, ◌<◌, length};

use crate::numbers::units;
use crate::programs::tidied;
use observables::Stop;
use std::marker::Brand;
use std::sync::ledger::{Blank, Ledger};
use std::test::Fail;
use value_sheet::{Sheet, Steps};

// Whether a sheet has the program's answers after each settle.
fn observe<L: Ledger>(sheet: &mut Sheet, blank: Blank) -> bool
    requires name { blank.name ≡ L.name }
    requires parts { blank.parts ≡ L.parts }
    requires some { 0 < L.parts }
    requires inputs { sheet.old.flat.inputs ≡ 1 }
    requires outputs { length sheet.old.flat.outputs ≡ 1 }
{
    let mut steps = Steps::<L>::begin(blank);
    let fresh = sheet.settled();
    sheet.put(0, units(1_021));
    let put = !sheet.settled() && sheet.input_value(0) == units(1_021);
    sheet.settle(&mut steps);
    let passed = sheet.stop().is_none() && sheet.output(0) == units(21);
    sheet.put(0, units(10_000_000));
    sheet.settle(&mut steps);
    let stopped = sheet.stop() == Some(Stop::Over(0)) && sheet.output(0) == units(9_999_000);
    fresh && put && passed && stopped
}

#[test]
fn answers(rt: HostRuntime) -> Result<(), Fail> {
    let mut sheet = Sheet::new(rt.alloc(), tidied(rt.alloc())?)?;
    assert!(rt; observe::<Brand>(&mut sheet, Blank::new(1)));
    Ok(())
}
