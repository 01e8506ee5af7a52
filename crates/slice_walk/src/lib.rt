// Slices of the rows of one list, with and without strides: one walk measures the rows, a second writes. An inner crate: its callers
// meet what it asks.
#![tactic(auto)]

ghost use Rattle.std.specs.Prelude.{◌≤◌, length, true, ◌≡◌};
ghost use Rattle.arguments.specs.Taken.{Served};
ghost use Rattle.column.specs.Columns.{column_in, values_in};
ghost use Rattle.column.specs.Outputs.{Fills, RoomFor};
ghost use Rattle.column.specs.Put.{Readable};
ghost use Rattle.made_rows.specs.Made.{call_rows, rows_measure};
ghost use Rattle.model.specs.Column.{row_count};
ghost use Rattle.model.specs.Form.{flat};
ghost use Rattle.ops.specs.Ops.{is_slice};
ghost use Rattle.sums.specs.Sums.{let_through, measured};

use column::elements::ValueColumn;
use column::lists::{ListColumn, ListOutput};
use column::offsets;
use model::Refusal;
use model::offsets::Offset;
use ops::ListOp;
use slice_rows::validity::NextBits;
use slice_rows::{SliceColumns, plans};

// How many elements the slices make, or the refusal of the first row that has one.
pub fn measure_rows<O: Offset>(
    op: ListOp,
    list: ListColumn<O>,
    xs: ValueColumn,
    ys: ValueColumn,
    zs: ValueColumn,
) -> Result<usize, Refusal>
    requires column { Readable (column_in O.numbers list) }
    requires arguments { Served op (row_count (O.numbers list.offsets.now)) (values_in xs) (values_in ys) (values_in zs) }
    requires kind { is_slice op ≡ true }
    ensures value { measured result ≡ rows_measure O.LIMITS op (column_in O.numbers list.entry) (values_in xs.entry) (values_in ys.entry) (values_in zs.entry) }
    ensures result_bound { let_through result ≤ O.LIMITS.offset }
{
    let n = list.row_count();
    let columns = SliceColumns::of(op, xs, ys, zs);
    let mut next = NextBits::none();
    let mut found = 0;
    let mut a = list.first_offset();
    for r in 0..n {
        let b = list.offset_at(r + 1);
        let valid = next.take(list.rows, columns, n, r);
        let steps = plans::plan_at::<O>(valid, columns, r, b - a)?;
        found += plans::count_of(Ok(steps));
        a = b;
    }
    Ok(found)
}

// Writes the rows that the slices make, in result form.
pub fn write_rows<O: Offset>(
    op: ListOp,
    list: ListColumn<O>,
    xs: ValueColumn,
    ys: ValueColumn,
    zs: ValueColumn,
    out: &mut ListOutput<O>,
)
    requires column { Readable (column_in O.numbers list) }
    requires arguments { Served op (row_count (O.numbers list.offsets.now)) (values_in xs) (values_in ys) (values_in zs) }
    requires kind { is_slice op ≡ true }
    requires small { length (flat (call_rows O.LIMITS op (column_in O.numbers list) (values_in xs) (values_in ys) (values_in zs))) ≤ O.LIMITS.offset }
    requires room { RoomFor (row_count (O.numbers list.offsets.now)) (length (flat (call_rows O.LIMITS op (column_in O.numbers list) (values_in xs) (values_in ys) (values_in zs)))) out.old }
    ensures { Fills O.numbers (call_rows O.LIMITS op (column_in O.numbers list.entry) (values_in xs.entry) (values_in ys.entry) (values_in zs.entry)) out.old out.new }
{
    let n = list.row_count();
    let columns = SliceColumns::of(op, xs, ys, zs);
    offsets::put_offset(out.offsets, 0, 0);
    let mut next = NextBits::none();
    let mut at = 0;
    let mut a = list.first_offset();
    for r in 0..n {
        let b = list.offset_at(r + 1);
        let len = b - a;
        let valid = next.take(list.rows, columns, n, r);
        let plan = plans::plan_at::<O>(valid, columns, r, len);
        bitmap::push_bit(out.rows, r, valid & plan.is_ok());
        at = slice_rows::write_planned(plan, list.elements, a, len, out.elements, at);
        offsets::put_offset(out.offsets, r + 1, at);
        a = b;
    }
}
