// Union and intersect of one pair of rows, by two tables in the work area: the others' first, then that of the row walked.
ghost use Rattle.std.specs.Prelude.{◌+◌, ◌<◌, ◌≤◌, length, true, [], ◌≡◌};
ghost use Rattle.column.specs.Columns.{elem_in, elems_in};
ghost use Rattle.column.specs.Outputs.{RoomForElems, Writes};
ghost use Rattle.hash_rows.specs.RunTables.{RunTable};
ghost use Rattle.hash_slots.specs.Slots.{CleanFrom};
ghost use Rattle.hash_tables.specs.Table.{Within};
ghost use Rattle.model.specs.Elements.{set_elems};
ghost use Rattle.set_elements.specs.Pairs.{keeps, kept};
ghost use Rattle.set_rows.specs.Runs.{ReadableRun, run_elems};

use crate::distinct;
use column::elements::ValueOutput;
use model::SetOp;
use set_rows::runs::Run;

// Whether element k of a row is kept: it is not among those before it, and it is among the others where shared ones are wanted, and
// is not where new ones are.
fn is_kept(row: Run, k: usize, others: Run, shared: bool, area: &mut [u32]) -> bool
    requires row { ReadableRun row }
    requires other { ReadableRun others }
    requires there { k < row.count }
    requires few { row.count < 4294967296 }
    requires low { others.count < 4294967296 }
    requires listed { RunTable others others.count 0 area.old }
    requires table { RunTable row k (others.count + others.count) area.old }
    ensures value { result ≡ keeps shared (run_elems others.entry) (elems_in row.entry.column row.entry.from k) (elem_in row.entry.column (row.entry.from + k)) }
    ensures table_2 { RunTable row.entry (k + 1) (others.entry.count + others.entry.count) area.new }
    ensures within { Within (others.entry.count + others.entry.count) (others.entry.count + others.entry.count + row.entry.count + row.entry.count) area.old area.new }
{
    let start = others.count + others.count;
    if !hash_tables::enter(row.column, row.from, row.count, k, area, start) {
        return false;
    }
    let found = hash_tables::is_listed(
        row.column,
        row.from + k,
        others.column,
        others.from,
        others.count,
        area,
        0,
    );
    if shared { found } else { !found }
}

// How many of a row's elements are kept; their table is left after the others'.
fn measure_kept(row: Run, others: Run, shared: bool, area: &mut [u32]) -> usize
    requires row { ReadableRun row }
    requires other { ReadableRun others }
    requires few { row.count < 4294967296 }
    requires low { others.count < 4294967296 }
    requires room { others.count + others.count + row.count + row.count ≤ length area.old }
    requires listed { RunTable others others.count 0 area.old }
    requires clean { CleanFrom (others.count + others.count) area.old }
    ensures value { result ≡ length (kept shared (run_elems others.entry) [] (run_elems row.entry)) }
    ensures within { Within (others.entry.count + others.entry.count) (others.entry.count + others.entry.count + row.entry.count + row.entry.count) area.old area.new }
{
    let mut len: usize = 0;
    for k in 0..row.count {
        let new = is_kept(row, k, others, shared, area);
        len += usize::from(new);
    }
    len
}

// Writes those of a row's elements that are kept; their table is left after the others'.
fn write_kept(
    row: Run,
    others: Run,
    shared: bool,
    out: &mut ValueOutput,
    at: usize,
    area: &mut [u32],
) -> usize
    requires row { ReadableRun row }
    requires other { ReadableRun others }
    requires place { RoomForElems (kept shared (run_elems others) [] (run_elems row)) at out.old }
    requires few { row.count < 4294967296 }
    requires low { others.count < 4294967296 }
    requires room { others.count + others.count + row.count + row.count ≤ length area.old }
    requires listed { RunTable others others.count 0 area.old }
    requires clean { CleanFrom (others.count + others.count) area.old }
    ensures writes { Writes (kept shared (run_elems others.entry) [] (run_elems row.entry)) at out.old out.new result }
    ensures within { Within (others.entry.count + others.entry.count) (others.entry.count + others.entry.count + row.entry.count + row.entry.count) area.old area.new }
{
    let mut p = at;
    for k in 0..row.count {
        if is_kept(row, k, others, shared, area) {
            out.put_elem(row.column, row.from + k, p);
            p += 1;
        }
    }
    p
}

// The length of the union.
pub(crate) fn measure_union(left: Run, right: Run, area: &mut [u32]) -> usize
    requires left { ReadableRun left }
    requires right { ReadableRun right }
    requires few { left.count < 4294967296 }
    requires low { right.count < 4294967296 }
    requires room { left.count + left.count + right.count + right.count ≤ length area.old }
    requires clean { CleanFrom 0 area.old }
    ensures value { result ≡ length (set_elems SetOp.Union (run_elems left.entry) (run_elems right.entry)) }
    ensures clean_from { CleanFrom 0 area.new }
{
    let first = distinct::measure_new(left, area, 0);
    let second = measure_kept(right, left, false, area);
    hash_slots::clear_tables(area, left.count, right.count);
    first + second
}

// Writes the union: the first occurrences of the left row, then those of the right row that the left row doesn't have.
pub(crate) fn write_union(
    left: Run,
    right: Run,
    out: &mut ValueOutput,
    at: usize,
    area: &mut [u32],
) -> usize
    requires left { ReadableRun left }
    requires right { ReadableRun right }
    requires place { RoomForElems (set_elems SetOp.Union (run_elems left) (run_elems right)) at out.old }
    requires few { left.count < 4294967296 }
    requires low { right.count < 4294967296 }
    requires room { left.count + left.count + right.count + right.count ≤ length area.old }
    requires clean { CleanFrom 0 area.old }
    ensures writes { Writes (set_elems SetOp.Union (run_elems left.entry) (run_elems right.entry)) at out.old out.new result }
    ensures clean_from { CleanFrom 0 area.new }
{
    let next = distinct::write_new(left, out, at, area, 0);
    let end = write_kept(right, left, false, out, next, area);
    hash_slots::clear_tables(area, left.count, right.count);
    end
}

// The length of the intersection of a row that is walked with the others, each common element once.
fn measure_shared(row: Run, others: Run, area: &mut [u32]) -> usize
    requires row { ReadableRun row }
    requires other { ReadableRun others }
    requires few { row.count < 4294967296 }
    requires low { others.count < 4294967296 }
    requires room { others.count + others.count + row.count + row.count ≤ length area.old }
    requires clean { CleanFrom 0 area.old }
    ensures value { result ≡ length (kept true (run_elems others.entry) [] (run_elems row.entry)) }
    ensures clean_from { CleanFrom 0 area.new }
{
    distinct::measure_new(others, area, 0);
    let len = measure_kept(row, others, true, area);
    hash_slots::clear_tables(area, others.count, row.count);
    len
}

// Writes the intersection of a row that is walked with the others.
fn write_shared(row: Run, others: Run, out: &mut ValueOutput, at: usize, area: &mut [u32]) -> usize
    requires row { ReadableRun row }
    requires other { ReadableRun others }
    requires place { RoomForElems (kept true (run_elems others) [] (run_elems row)) at out.old }
    requires few { row.count < 4294967296 }
    requires low { others.count < 4294967296 }
    requires room { others.count + others.count + row.count + row.count ≤ length area.old }
    requires clean { CleanFrom 0 area.old }
    ensures writes { Writes (kept true (run_elems others.entry) [] (run_elems row.entry)) at out.old out.new result }
    ensures clean_from { CleanFrom 0 area.new }
{
    distinct::measure_new(others, area, 0);
    let end = write_kept(row, others, true, out, at, area);
    hash_slots::clear_tables(area, others.count, row.count);
    end
}

// The length of the intersection: the longer row is walked, the left one on equal lengths.
pub(crate) fn measure_intersect(left: Run, right: Run, area: &mut [u32]) -> usize
    requires left { ReadableRun left }
    requires right { ReadableRun right }
    requires few { left.count < 4294967296 }
    requires low { right.count < 4294967296 }
    requires room { left.count + left.count + right.count + right.count ≤ length area.old }
    requires clean { CleanFrom 0 area.old }
    ensures value { result ≡ length (set_elems SetOp.Intersect (run_elems left.entry) (run_elems right.entry)) }
    ensures clean_from { CleanFrom 0 area.new }
{
    if left.count < right.count {
        return measure_shared(right, left, area);
    }
    measure_shared(left, right, area)
}

// Writes the intersection, walked as it was measured.
pub(crate) fn write_intersect(
    left: Run,
    right: Run,
    out: &mut ValueOutput,
    at: usize,
    area: &mut [u32],
) -> usize
    requires left { ReadableRun left }
    requires right { ReadableRun right }
    requires place { RoomForElems (set_elems SetOp.Intersect (run_elems left) (run_elems right)) at out.old }
    requires few { left.count < 4294967296 }
    requires low { right.count < 4294967296 }
    requires room { left.count + left.count + right.count + right.count ≤ length area.old }
    requires clean { CleanFrom 0 area.old }
    ensures writes { Writes (set_elems SetOp.Intersect (run_elems left.entry) (run_elems right.entry)) at out.old out.new result }
    ensures clean_from { CleanFrom 0 area.new }
{
    if left.count < right.count {
        return write_shared(right, left, out, at, area);
    }
    write_shared(left, right, out, at, area)
}
