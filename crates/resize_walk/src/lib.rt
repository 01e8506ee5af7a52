// Resize of a list, row by row: the walk that writes. What it makes is measured by the sum of the counts. An inner crate: its callers
// meet what it asks.
#![tactic(auto)]

ghost use Rattle.std.specs.Prelude.{IfSome, ◌<◌, ◌≤◌, length, false, true, ◌≡◌};
ghost use Rattle.arguments.specs.Taken.{Served, Serves};
ghost use Rattle.bitmap.specs.Push.{Covers};
ghost use Rattle.bitmap.specs.Reads.{bits_in};
ghost use Rattle.column.specs.Columns.{column_in, elems_in, values_in};
ghost use Rattle.column.specs.Outputs.{Fills, ReadableElems, RoomFor, RoomForElems, Writes};
ghost use Rattle.column.specs.Put.{Readable};
ghost use Rattle.made_rows.specs.Made.{call_rows};
ghost use Rattle.model.specs.Column.{row_count};
ghost use Rattle.model.specs.Form.{flat};
ghost use Rattle.ops.specs.Ops.{is_resize, op_elems, resize_op};
ghost use Rattle.resize_walk.specs.Resized.{count_for, fill_for, fills_in, fills_of};

use arguments::taken;
use bitmap::Validity;
use column::elements::{ValueColumn, ValueOutput};
use column::lists::{ListColumn, ListOutput};
use column::offsets;
use fills::resize;
use model::offsets::Offset;
use ops::ListOp;
use rows::{Cell, Fill, utils};

// The column of fills, where the operation takes one.
#[tactic(auto, unfolding(crate::specs::Resized::fills_of))]
fn fills_of<'a>(op: ListOp, column: ValueColumn<'a>) -> Option<ValueColumn<'a>>
    ensures { fills_in result ≡ fills_of op (values_in column.entry) }
{
    if 1 < ops::takes(op).columns {
        Some(column)
    } else {
        None
    }
}

// The count of row r of n; a null where the row is null.
#[tactic(auto, unfolding(crate::specs::Resized::count_for))]
fn count_at(rows: Validity, n: usize, counts: ValueColumn, r: usize) -> Cell
    requires covers { Covers (bits_in rows) n }
    requires serves { Serves false n (values_in counts) }
    requires r_lt_n { r < n }
    ensures { result ≡ count_for (bits_in rows.entry) (values_in counts.entry) r }
{
    if !rows.is_valid(r, n) {
        return None;
    }
    taken::taken_at(true, false, counts, n, r)
}

// What row r of n is filled up with.
#[tactic(auto, unfolding(crate::specs::Resized::fill_for))]
fn fill_at(fills: Option<ValueColumn>, n: usize, r: usize) -> Fill
    requires serves { IfSome (fills_in fills) (λ a. Serves false n a) }
    requires r_lt_n { r < n }
    ensures { result ≡ fill_for (fills_in fills.entry) r }
{
    match fills {
        Some(column) => Some(taken::taken_at(true, false, column, n, r)),
        None => None,
    }
}

// Writes the len elements from element a on, cut or filled up to a count: none where it is null. Gives the number of elements then written.
#[tactic(auto, unfolding(ops::specs::Ops::resize_op, ops::specs::Ops::op_elems))]
fn put_elements(
    count: Cell,
    fill: Fill,
    elements: ValueColumn,
    a: usize,
    len: usize,
    out: &mut ValueOutput,
    at: usize,
) -> usize
    requires column { ReadableElems elements a len }
    requires room { RoomForElems (op_elems (resize_op count fill) (elems_in elements a len)) at out.old }
    ensures { Writes (op_elems (resize_op count fill) (elems_in elements.entry a len)) at out.old out.new result }
{
    match count {
        Some(k) => resize::write_resized(elements, a, len, utils::limit_of(k), fill, out, at),
        None => at,
    }
}

// Writes the rows that the operation makes, in result form.
pub fn write_rows<O: Offset>(
    op: ListOp,
    list: ListColumn<O>,
    xs: ValueColumn,
    ys: ValueColumn,
    zs: ValueColumn,
    out: &mut ListOutput<O>,
)
    requires column { Readable (column_in O.numbers list) }
    requires arguments { Served op (row_count (O.numbers list.offsets.now)) (values_in xs) (values_in ys) (values_in zs) }
    requires kind { is_resize op ≡ true }
    requires small { length (flat (call_rows O.LIMITS op (column_in O.numbers list) (values_in xs) (values_in ys) (values_in zs))) ≤ O.LIMITS.offset }
    requires room { RoomFor (row_count (O.numbers list.offsets.now)) (length (flat (call_rows O.LIMITS op (column_in O.numbers list) (values_in xs) (values_in ys) (values_in zs)))) out.old }
    ensures { Fills O.numbers (call_rows O.LIMITS op (column_in O.numbers list.entry) (values_in xs.entry) (values_in ys.entry) (values_in zs.entry)) out.old out.new }
{
    let n = list.row_count();
    let fills = fills_of(op, ys);
    offsets::put_offset(out.offsets, 0, 0);
    let mut at = 0;
    for r in 0..n {
        let a = list.offset_at(r);
        let b = list.offset_at(r + 1);
        let count = count_at(list.rows, n, xs, r);
        let fill = fill_at(fills, n, r);
        bitmap::push_bit(out.rows, r, count.is_some());
        at = put_elements(count, fill, list.elements, a, b - a, out.elements, at);
        offsets::put_offset(out.offsets, r + 1, at);
    }
}
