// Remove, row by row: one walk measures the rows that are made, a second writes them. A third argument column is not taken. An inner crate: its callers meet
// what it asks.
#![tactic(auto)]

ghost use Rattle.arguments.specs.Taken.{Served};
ghost use Rattle.column.specs.Columns.{values_in, column_in};
ghost use Rattle.column.specs.Outputs.{RoomFor, Fills};
ghost use Rattle.column.specs.Put.{Readable};
ghost use Rattle.made_rows.specs.Made.{call_rows};
ghost use Rattle.match_rows.specs.Limits.{none};
ghost use Rattle.model.specs.Column.{row_count};
ghost use Rattle.model.specs.Form.{flat};
ghost use Rattle.std.specs.Prelude.{◌≤◌, length, ◌≡◌};

use arguments::taken;
use column::elements::ValueColumn;
use column::lists::{ListColumn, ListOutput};
use column::offsets;
use match_rows::remove;
use model::offsets::Offset;
use ops::ListOp;

// How many elements remove makes.
pub fn measure_rows<O: Offset>(list: ListColumn<O>, xs: ValueColumn, ys: ValueColumn) -> usize
    requires column { Readable (column_in O.numbers list) }
    requires arguments { Served ListOp.Remove (row_count (O.numbers list.offsets.now)) (values_in xs) (values_in ys) none }
    ensures value { result ≡ length (flat (call_rows O.LIMITS ListOp.Remove (column_in O.numbers list.entry) (values_in xs.entry) (values_in ys.entry) none)) }
    ensures upper_bound { result ≤ O.LIMITS.offset }
{
    let n = list.row_count();
    let mut found: usize = 0;
    let mut a = list.first_offset();
    for r in 0..n {
        let b = list.offset_at(r + 1);
        let limit = match_rows::limit_at(list.rows, n, ys, r);
        let element = taken::taken_at(true, false, xs, n, r);
        let by = remove::removal(limit, element);
        found += remove::measure_row(by, list.elements, a, b - a);
        a = b;
    }
    found
}

// Writes the rows that remove makes, in result form.
pub fn write_rows<O: Offset>(
    list: ListColumn<O>,
    xs: ValueColumn,
    ys: ValueColumn,
    out: &mut ListOutput<O>,
)
    requires column { Readable (column_in O.numbers list) }
    requires arguments { Served ListOp.Remove (row_count (O.numbers list.offsets.now)) (values_in xs) (values_in ys) none }
    requires small { length (flat (call_rows O.LIMITS ListOp.Remove (column_in O.numbers list) (values_in xs) (values_in ys) none)) ≤ O.LIMITS.offset }
    requires room { RoomFor (row_count (O.numbers list.offsets.now)) (length (flat (call_rows O.LIMITS ListOp.Remove (column_in O.numbers list) (values_in xs) (values_in ys) none))) out.old }
    ensures { Fills O.numbers (call_rows O.LIMITS ListOp.Remove (column_in O.numbers list.entry) (values_in xs.entry) (values_in ys.entry) none) out.old out.new }
{
    let n = list.row_count();
    offsets::put_offset(out.offsets, 0, 0);
    let mut at: usize = 0;
    let mut a = list.first_offset();
    for r in 0..n {
        let b = list.offset_at(r + 1);
        let limit = match_rows::limit_at(list.rows, n, ys, r);
        let element = taken::taken_at(true, false, xs, n, r);
        let by = remove::removal(limit, element);
        at = remove::put_row(by, list.elements, a, b - a, r, out, at);
        offsets::put_offset(out.offsets, r + 1, at);
        a = b;
    }
}
