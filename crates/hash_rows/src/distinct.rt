// Distinct of one row: first occurrences, by a table of the elements before.
ghost use Rattle.std.specs.Prelude.{◌+◌, ◌<◌, ◌≤◌, length, ◌≡◌};
ghost use Rattle.column.specs.Outputs.{RoomForElems, Writes};
ghost use Rattle.hash_rows.specs.RunTables.{RunTable};
ghost use Rattle.hash_slots.specs.Slots.{CleanFrom};
ghost use Rattle.hash_tables.specs.Table.{Within};
ghost use Rattle.model.specs.Elements.{distinct};
ghost use Rattle.model.specs.Limits.{narrow};
ghost use Rattle.set_rows.specs.Runs.{ReadableRun, run_elems};

use column::elements::ValueOutput;
use kept_elements::distinct;
use set_rows::runs::Run;

// How many of a row's elements are first occurrences; their table is left.
pub(crate) fn measure_new(row: Run, area: &mut [u32], o: usize) -> usize
    requires row { ReadableRun row }
    requires few { row.count < 4294967296 }
    requires room { o + row.count + row.count ≤ length area.old }
    requires clean { CleanFrom o area.old }
    ensures value { result ≡ length (distinct (run_elems row.entry)) }
    ensures table { RunTable row.entry row.entry.count o area.new }
    ensures within { Within o (o + row.entry.count + row.entry.count) area.old area.new }
{
    let mut len: usize = 0;
    for k in 0..row.count {
        let new = hash_tables::enter(row.column, row.from, row.count, k, area, o);
        len += usize::from(new);
    }
    len
}

// Writes the first occurrences among a row's elements; their table is left.
pub(crate) fn write_new(
    row: Run,
    out: &mut ValueOutput,
    at: usize,
    area: &mut [u32],
    o: usize,
) -> usize
    requires row { ReadableRun row }
    requires place { RoomForElems (distinct (run_elems row)) at out.old }
    requires few { row.count < 4294967296 }
    requires room { o + row.count + row.count ≤ length area.old }
    requires clean { CleanFrom o area.old }
    ensures writes { Writes (distinct (run_elems row.entry)) at out.old out.new result }
    ensures table { RunTable row.entry row.entry.count o area.new }
    ensures within { Within o (o + row.entry.count + row.entry.count) area.old area.new }
{
    let mut p = at;
    for k in 0..row.count {
        if hash_tables::enter(row.column, row.from, row.count, k, area, o) {
            out.put_elem(row.column, row.from + k, p);
            p += 1;
        }
    }
    p
}

// How many of a row's elements are first occurrences.
fn measure_distinct(row: Run, area: &mut [u32]) -> usize
    requires row { ReadableRun row }
    requires few { row.count < 4294967296 }
    requires room { row.count + row.count ≤ length area.old }
    requires clean { CleanFrom 0 area.old }
    ensures value { result ≡ length (distinct (run_elems row.entry)) }
    ensures clean_from { CleanFrom 0 area.new }
{
    let len = measure_new(row, area, 0);
    hash_slots::clear_tables(area, row.count, 0);
    len
}

// Writes the first occurrences among a row's elements.
fn write_distinct(row: Run, out: &mut ValueOutput, at: usize, area: &mut [u32]) -> usize
    requires row { ReadableRun row }
    requires place { RoomForElems (distinct (run_elems row)) at out.old }
    requires few { row.count < 4294967296 }
    requires room { row.count + row.count ≤ length area.old }
    requires clean { CleanFrom 0 area.old }
    ensures writes { Writes (distinct (run_elems row.entry)) at out.old out.new result }
    ensures clean_from { CleanFrom 0 area.new }
{
    let end = write_new(row, out, at, area, 0);
    hash_slots::clear_tables(area, row.count, 0);
    end
}

// Rows with fewer elements are compared element by element.
const FEW: usize = 32;

// How many first occurrences there are, counted as is quicker.
pub(crate) fn measure_first(row: Run, area: &mut [u32]) -> usize
    requires row { ReadableRun row }
    requires few { row.count ≤ narrow.offset }
    requires room { row.count + row.count ≤ length area.old }
    requires clean { CleanFrom 0 area.old }
    ensures value { result ≡ length (distinct (run_elems row.entry)) }
    ensures clean_from { CleanFrom 0 area.new }
{
    if row.count < FEW {
        return distinct::measure_distinct(row.column, row.from, row.count);
    }
    measure_distinct(row, area)
}

// Writes them.
pub(crate) fn write_first(row: Run, out: &mut ValueOutput, at: usize, area: &mut [u32]) -> usize
    requires row { ReadableRun row }
    requires place { RoomForElems (distinct (run_elems row)) at out.old }
    requires few { row.count ≤ narrow.offset }
    requires room { row.count + row.count ≤ length area.old }
    requires clean { CleanFrom 0 area.old }
    ensures writes { Writes (distinct (run_elems row.entry)) at out.old out.new result }
    ensures clean_from { CleanFrom 0 area.new }
{
    if row.count < FEW {
        return distinct::write_distinct(row.column, row.from, row.count, out, at);
    }
    write_distinct(row, out, at, area)
}
