// Union and intersect of one pair of rows, by comparing with the elements before.
// After set_ops.rs of datafusion-functions-nested 55.2.0, Apache License 2.0, Apache Software Foundation; changed, see NOTICE.
ghost use Rattle.std.specs.Prelude.{◌+◌, ◌<◌, ◌^◌, length, ltb, [], ◌++◌, ◌≡◌};
ghost use Rattle.column.specs.Outputs.{RoomForElems, Writes};
ghost use Rattle.model.specs.Basics.{pick};
ghost use Rattle.model.specs.Elements.{set_elems};
ghost use Rattle.set_elements.specs.Pairs.{kept};
ghost use Rattle.set_rows.specs.Runs.{ReadableRun, run_elems};

use crate::runs::Run;
use column::elements::{ValueColumn, ValueOutput};
use kept_elements::set_ops;
use model::SetOp;

// How many of a row's elements are kept.
fn measure_kept(row: Run, others: Run, shared: bool) -> usize
    requires row { ReadableRun row }
    requires other { ReadableRun others }
    ensures { result ≡ length (kept shared (run_elems others.entry) [] (run_elems row.entry)) }
{
    let mut len: usize = 0;
    for k in 0..row.count {
        let new = set_ops::is_kept(
            row.column,
            row.from,
            k,
            others.column,
            others.from,
            others.count,
            shared,
        );
        len += usize::from(new);
    }
    len
}

// Writes those of a row's elements that are kept.
fn write_kept(row: Run, others: Run, shared: bool, out: &mut ValueOutput, at: usize) -> usize
    requires row { ReadableRun row }
    requires other { ReadableRun others }
    requires room { RoomForElems (kept shared (run_elems others) [] (run_elems row)) at out.old }
    ensures { Writes (kept shared (run_elems others.entry) [] (run_elems row.entry)) at out.old out.new result }
{
    let mut p = at;
    for k in 0..row.count {
        if set_ops::is_kept(
            row.column,
            row.from,
            k,
            others.column,
            others.from,
            others.count,
            shared,
        ) {
            out.put_elem(row.column, row.from + k, p);
            p += 1;
        }
    }
    p
}

// A run of no elements.
fn none_of(run: Run) -> Run
    requires { ReadableRun run }
    ensures elems { run_elems result ≡ [] }
    ensures readable { ReadableRun result }
{
    Run { count: 0, ..run }
}

// The length of the union.
fn measure_union(left: Run, right: Run) -> usize
    requires left { ReadableRun left }
    requires right { ReadableRun right }
    requires sum { left.count + right.count < 2 ^ 64 }
    ensures { result ≡ length (set_elems SetOp.Union (run_elems left.entry) (run_elems right.entry)) }
{
    let first = measure_kept(left, none_of(right), false);
    let second = measure_kept(right, left, false);
    first + second
}

// Writes the union: the first occurrences of the left row, then those of the right row that the left row doesn't have.
fn write_union(left: Run, right: Run, out: &mut ValueOutput, at: usize) -> usize
    requires left { ReadableRun left }
    requires right { ReadableRun right }
    requires room { RoomForElems (set_elems SetOp.Union (run_elems left) (run_elems right)) at out.old }
    ensures { Writes (set_elems SetOp.Union (run_elems left.entry) (run_elems right.entry)) at out.old out.new result }
{
    let next = write_kept(left, none_of(right), false, out, at);
    write_kept(right, left, false, out, next)
}

// The row that intersect walks, cut out of its column: the longer one, the left one on equal lengths. Its values are the part that
// `longer` hands back. References with lifetimes of their own can't be one result (the prover doesn't cover it), so both rows share a
// lifetime here and in each caller.
fn walked<'a>(left: Run<'a>, right: Run<'a>) -> Run<'a>
    requires left { ReadableRun left }
    requires right { ReadableRun right }
    ensures elems { run_elems result ≡ pick (ltb left.entry.count right.entry.count) (run_elems right.entry) (run_elems left.entry) }
    ensures readable { ReadableRun result }
{
    let values = set_ops::longer(left.values(), right.values());
    let row = if left.count < right.count {
        right
    } else {
        left
    };
    Run {
        column: ValueColumn {
            values,
            bits: row.bits(),
        },
        from: 0,
        count: row.count,
    }
}

// The other row, whose elements are looked for.
fn looked_in<'a>(left: Run<'a>, right: Run<'a>) -> Run<'a>
    requires left { ReadableRun left }
    requires right { ReadableRun right }
    ensures elems { run_elems result ≡ pick (ltb left.entry.count right.entry.count) (run_elems left.entry) (run_elems right.entry) }
    ensures readable { ReadableRun result }
{
    if left.count < right.count {
        left
    } else {
        right
    }
}

// The length of the intersection.
fn measure_intersect<'a>(left: Run<'a>, right: Run<'a>) -> usize
    requires left { ReadableRun left }
    requires right { ReadableRun right }
    ensures { result ≡ length (set_elems SetOp.Intersect (run_elems left.entry) (run_elems right.entry)) }
{
    measure_kept(walked(left, right), looked_in(left, right), true)
}

// Writes the intersection, walked as it was measured.
fn write_intersect<'a>(left: Run<'a>, right: Run<'a>, out: &mut ValueOutput, at: usize) -> usize
    requires left { ReadableRun left }
    requires right { ReadableRun right }
    requires room { RoomForElems (set_elems SetOp.Intersect (run_elems left) (run_elems right)) at out.old }
    ensures { Writes (set_elems SetOp.Intersect (run_elems left.entry) (run_elems right.entry)) at out.old out.new result }
{
    write_kept(walked(left, right), looked_in(left, right), true, out, at)
}

// The length of what an operation makes of a pair of rows.
pub fn measure_set<'a>(op: SetOp, left: Run<'a>, right: Run<'a>) -> usize
    requires left { ReadableRun left }
    requires right { ReadableRun right }
    requires sum { left.count + right.count < 2 ^ 64 }
    ensures { result ≡ length (set_elems op (run_elems left.entry) (run_elems right.entry)) }
{
    match op {
        SetOp::Union => measure_union(left, right),
        SetOp::Intersect => measure_intersect(left, right),
    }
}

// Writes what an operation makes of a pair of rows.
pub fn write_set<'a>(
    op: SetOp,
    left: Run<'a>,
    right: Run<'a>,
    out: &mut ValueOutput,
    at: usize,
) -> usize
    requires left { ReadableRun left }
    requires right { ReadableRun right }
    requires room { RoomForElems (set_elems op (run_elems left) (run_elems right)) at out.old }
    ensures { Writes (set_elems op (run_elems left.entry) (run_elems right.entry)) at out.old out.new result }
{
    match op {
        SetOp::Union => write_union(left, right, out, at),
        SetOp::Intersect => write_intersect(left, right, out, at),
    }
}
