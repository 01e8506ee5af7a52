// What distinct, union and intersect make of one row or one pair of rows, by tables in a work area whose slots are 0 before and after; short
// rows are compared element by element. An inner crate: its callers meet what it asks.
#![tactic(auto)]

mod distinct;
mod set_ops;

ghost use Rattle.std.specs.Prelude.{◌+◌, ◌≤◌, length, ◌≡◌};
ghost use Rattle.column.specs.Outputs.{RoomForElems, Writes};
ghost use Rattle.hash_checks.specs.Area.{hash_elems, row_need};
ghost use Rattle.hash_slots.specs.Slots.{CleanFrom};
ghost use Rattle.model.specs.Elements.{set_elems};
ghost use Rattle.model.specs.Limits.{narrow};
ghost use Rattle.set_rows.specs.Runs.{ReadableRun, run_elems};

use column::elements::ValueOutput;
use hash_checks::HashOp;
use model::SetOp;
use set_rows::runs::Run;

// Pairs of rows with fewer elements together are compared element by element.
const FEW: usize = 48;

// The length of what union or intersect makes of a pair of rows.
fn measure_set<'a>(op: SetOp, left: Run<'a>, right: Run<'a>, area: &mut [u32]) -> usize
    requires left { ReadableRun left }
    requires right { ReadableRun right }
    requires few { left.count ≤ narrow.offset }
    requires low { right.count ≤ narrow.offset }
    requires room { left.count + right.count + (left.count + right.count) ≤ length area.old }
    requires clean { CleanFrom 0 area.old }
    ensures value { result ≡ length (set_elems op (run_elems left.entry) (run_elems right.entry)) }
    ensures clean_from { CleanFrom 0 area.new }
{
    if left.count + right.count < FEW {
        return set_rows::set_ops::measure_set(op, left, right);
    }
    match op {
        SetOp::Union => set_ops::measure_union(left, right, area),
        SetOp::Intersect => set_ops::measure_intersect(left, right, area),
    }
}

// Writes what union or intersect makes of a pair of rows.
fn write_set<'a>(
    op: SetOp,
    left: Run<'a>,
    right: Run<'a>,
    out: &mut ValueOutput,
    at: usize,
    area: &mut [u32],
) -> usize
    requires left { ReadableRun left }
    requires right { ReadableRun right }
    requires place { RoomForElems (set_elems op (run_elems left) (run_elems right)) at out.old }
    requires few { left.count ≤ narrow.offset }
    requires low { right.count ≤ narrow.offset }
    requires room { left.count + right.count + (left.count + right.count) ≤ length area.old }
    requires clean { CleanFrom 0 area.old }
    ensures writes { Writes (set_elems op (run_elems left.entry) (run_elems right.entry)) at out.old out.new result }
    ensures clean_from { CleanFrom 0 area.new }
{
    if left.count + right.count < FEW {
        return set_rows::set_ops::write_set(op, left, right, out, at);
    }
    match op {
        SetOp::Union => set_ops::write_union(left, right, out, at, area),
        SetOp::Intersect => set_ops::write_intersect(left, right, out, at, area),
    }
}

// The length of what an operation makes of a row, or of a pair of rows.
#[tactic(auto, unfolding(hash_checks::specs::Area::row_need, hash_checks::specs::Area::hash_elems))]
pub fn measure_row<'a>(op: HashOp, left: Run<'a>, right: Run<'a>, area: &mut [u32]) -> usize
    requires left { ReadableRun left }
    requires right { ReadableRun right }
    requires few { left.count ≤ narrow.offset }
    requires low { right.count ≤ narrow.offset }
    requires room { row_need op left.count right.count + row_need op left.count right.count ≤ length area.old }
    requires clean { CleanFrom 0 area.old }
    ensures value { result ≡ length (hash_elems op (run_elems left.entry) (run_elems right.entry)) }
    ensures clean_from { CleanFrom 0 area.new }
{
    match op {
        HashOp::Distinct => distinct::measure_first(left, area),
        HashOp::Pair(k) => measure_set(k, left, right, area),
    }
}

// Writes it.
#[tactic(auto, unfolding(hash_checks::specs::Area::row_need, hash_checks::specs::Area::hash_elems))]
pub fn write_row<'a>(
    op: HashOp,
    left: Run<'a>,
    right: Run<'a>,
    out: &mut ValueOutput,
    at: usize,
    area: &mut [u32],
) -> usize
    requires left { ReadableRun left }
    requires right { ReadableRun right }
    requires place { RoomForElems (hash_elems op (run_elems left) (run_elems right)) at out.old }
    requires few { left.count ≤ narrow.offset }
    requires low { right.count ≤ narrow.offset }
    requires room { row_need op left.count right.count + row_need op left.count right.count ≤ length area.old }
    requires clean { CleanFrom 0 area.old }
    ensures writes { Writes (hash_elems op (run_elems left.entry) (run_elems right.entry)) at out.old out.new result }
    ensures clean_from { CleanFrom 0 area.new }
{
    match op {
        HashOp::Distinct => distinct::write_first(left, out, at, area),
        HashOp::Pair(k) => write_set(k, left, right, out, at, area),
    }
}
