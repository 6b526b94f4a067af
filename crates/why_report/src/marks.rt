//! Marks the cells that definitions read.

ghost use Rattle.std.specs.Prelude.{◌≡◌, ◌+◌, ◌<◌, ◌≤◌, ◌==◌, length};
ghost use Rattle.micro_m.specs.Bases.{IsValidBase};
ghost use Rattle.micro_m.specs.ReadTests.{is_in_run};
ghost use Rattle.why_report.specs.Reasons.{cell_reads};
ghost use Rattle.why_report.specs.inner.Parts.{ArePartsWithin, IsPartWithin, part_reads, parts_read};
ghost use Rattle.why_report.specs.inner.Plans.{AllMarked, AreSpots, IsMarking, Marks};
ghost use Rattle.why_report.specs.inner.Terms.{AreTerms};

use crate::part::Part;
use crate::terms::Terms;
use dirty_set::Bits;
use rule_order::Ordered;
use std::snapshot::Snapshot;

/// Marks the cells that a cell's definition reads, if it has one.
pub(crate) fn mark_read(
    ordered: &Snapshot<Ordered>,
    terms: &Terms,
    cell: usize,
    spots: &[u32],
    marked: &mut Bits,
    known: &mut [usize],
)
    requires valid { IsValidBase ordered.now.value.base }
    requires terms { AreTerms ordered.now.value.base ordered.now.value.base.cells terms.now }
    requires cell { cell < ordered.now.value.base.cells }
    requires size { length spots.now ≡ ordered.now.value.base.cells }
    requires marking { IsMarking spots.now marked.old known.old }
    ensures marks { Marks spots.now marked.old marked.new (cell_reads ordered.now.value.base cell) }
    ensures marking { IsMarking spots.now marked.new known.new }
{
    let _ = ordered;
    mark_parts(terms.of(cell), spots, marked, known);
}

/// Marks the cells that parts of a term read. From each cell on, `known` of its cells are known to
/// be marked, so a table that is read often is scanned once.
fn mark_parts(parts: &[Part], spots: &[u32], marked: &mut Bits, known: &mut [usize])
    requires within { ArePartsWithin (length spots.now) parts.now }
    requires marking { IsMarking spots.now marked.old known.old }
    ensures marks { Marks spots.now marked.old marked.new (parts_read parts.now) }
    ensures marking { IsMarking spots.now marked.new known.new }
{
    for part in parts {
        mark_part(part, spots, marked, known);
    }
}

// Marks the cells that a part reads: for a table read all cells of the table.
fn mark_part(part: &Part, spots: &[u32], marked: &mut Bits, known: &mut [usize])
    requires within { IsPartWithin (length spots.now) part.now }
    requires marking { IsMarking spots.now marked.old known.old }
    ensures marks { Marks spots.now marked.old marked.new (part_reads part.now) }
    ensures marking { IsMarking spots.now marked.new known.new }
{
    match part {
        Part::Undefined => {}
        Part::Overflow => {}
        Part::Number(_) => {}
        Part::Read(cell) => mark_cell(*cell, spots, marked),
        Part::ReadAt(first, size) => {
            mark_run(*first as usize, *size as usize, spots, marked, known)
        }
        Part::Do(_, _) => {}
    }
}

// Marks a cell.
pub(crate) fn mark_cell(cell: usize, spots: &[u32], marked: &mut Bits)
    requires within { cell < length spots.now }
    requires spots { AreSpots spots.now (length marked.old) }
    ensures { Marks spots.now marked.old marked.new (λ c. c == cell) }
{
    marked.insert(spots[cell]);
}

// Marks `size` cells from `first` on, skipping those known to be marked.
fn mark_run(first: usize, size: usize, spots: &[u32], marked: &mut Bits, known: &mut [usize])
    requires within { first + size ≤ length spots.now }
    requires marking { IsMarking spots.now marked.old known.old }
    ensures marks { Marks spots.now marked.old marked.new (is_in_run first size) }
    ensures marking { IsMarking spots.now marked.new known.new }
{
    if size > 0 && size > known[first] {
        mark_rest(first, size, known[first], spots, marked);
        known[first] = size;
    }
}

// Marks `size` cells from `first` on, of which the first `known` are marked.
fn mark_rest(first: usize, size: usize, known: usize, spots: &[u32], marked: &mut Bits)
    requires within { first + size ≤ length spots.now }
    requires few { known ≤ size }
    requires spots { AreSpots spots.now (length marked.old) }
    requires known { AllMarked spots.now marked.old first known }
    ensures { Marks spots.now marked.old marked.new (is_in_run first size) }
{
    for passed in known..size {
        mark_cell(first + passed, spots, marked);
    }
}
