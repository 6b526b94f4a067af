//! The set of values that the fields of a record allow.
ghost use Rattle.std.specs.Prelude.{◌≡◌, ◌≤ℤ◌, option_map};
ghost use Rattle.m_fixed.specs.Amounts.{IsAmount};
ghost use Rattle.m_fixed.specs.Text.{amount_read, text_value};
ghost use Rattle.input_ranges.specs.Ranges.{amounts_of, are_empty, parsed_bounds, in_order, is_typed, nothing, parsed_possible, type_fact, type_range};

use crate::given::Given;
use definedness::Fact;
use m_fixed::{Amount, read_amount};
use observables::{InputType, is_of_type};

// The greatest amount, in millionths.
const MOST: i128 = 10_000_000_000_000_000_000;

// One unit, in millionths.
const UNIT: i128 = 1_000_000;

/// The values of an input of this type without a record: undefined, or any amount of the type.
/// Takes no memory.
pub(crate) fn type_fact(kind: InputType) -> Fact
    ensures { result ≡ type_fact kind }
{
    amounts_of_type(true, kind)
}

/// The values of an input of this type by a record's word and two bounds; `None` if the bounds are
/// invalid. Takes no memory.
pub(crate) fn parsed_possible(
    kind: InputType,
    given: Given,
    least: &[u8],
    greatest: &[u8],
) -> Option<Fact>
    ensures { result ≡ parsed_possible kind given least.now greatest.now }
{
    match given {
        Given::Yes => parsed_bounds(false, kind, least, greatest),
        Given::Maybe => parsed_bounds(true, kind, least, greatest),
        Given::No => {
            if are_empty(least, greatest) {
                Some(nothing())
            } else {
                None
            }
        }
    }
}

/// Whether the bounds of a fact are amounts of this type. Takes no memory.
pub(crate) fn is_typed(kind: InputType, fact: Fact) -> bool
    ensures { result ≡ is_typed kind fact }
{
    match fact.range {
        None => true,
        Some((least, greatest)) => is_of_type(kind, least) && is_of_type(kind, greatest),
    }
}

// The amounts within two bounds, or of the type if both are empty, optionally with undefined.
fn parsed_bounds(undef: bool, kind: InputType, least: &[u8], greatest: &[u8]) -> Option<Fact>
    ensures { result ≡ parsed_bounds undef kind least.now greatest.now }
{
    if are_empty(least, greatest) {
        return Some(amounts_of_type(undef, kind));
    }
    let Ok(low) = read_amount(least) else {
        return None;
    };
    let Ok(high) = read_amount(greatest) else {
        return None;
    };
    in_order(undef, low, high)
}

// Whether both bounds are empty.
fn are_empty(least: &[u8], greatest: &[u8]) -> bool
    ensures { result ≡ are_empty least.now greatest.now }
{
    least.is_empty() && greatest.is_empty()
}

// The amounts from one to another, if the first isn't greater.
fn in_order(undef: bool, least: Amount, greatest: Amount) -> Option<Fact>
    ensures { result ≡ in_order undef (least, greatest) }
{
    if least.millionths() <= greatest.millionths() {
        Some(amounts_of(undef, least, greatest))
    } else {
        None
    }
}

// The amounts of a type, optionally with undefined.
fn amounts_of_type(undef: bool, kind: InputType) -> Fact
    ensures { result ≡ amounts_of undef (type_range kind) }
{
    match kind {
        InputType::Any => amounts_of(undef, amount(-MOST), amount(MOST)),
        InputType::Whole => amounts_of(undef, amount(-MOST), amount(MOST)),
        InputType::Truth => amounts_of(undef, amount(0), amount(UNIT)),
    }
}

// These amounts, optionally with undefined.
fn amounts_of(undef: bool, least: Amount, greatest: Amount) -> Fact
    requires { least ≤ℤ greatest }
    ensures { result ≡ amounts_of undef (least, greatest) }
{
    let low = amount(least.millionths());
    let high = amount(greatest.millionths());
    Fact {
        undef,
        over: false,
        range: Some((low, high)),
    }
}

// Undefined alone.
fn nothing() -> Fact
    ensures { result ≡ nothing }
{
    Fact {
        undef: true,
        over: false,
        range: None,
    }
}

// The amount of this number of millionths.
fn amount(millionths: i128) -> Amount
    requires { IsAmount millionths }
    ensures { result ≡ millionths }
{
    match Amount::new(millionths) {
        Some(amount) => amount,
        None => unreachable!(),
    }
}
