// The operations that make one value a row, any-value and element: the walk over the rows that writes. An inner crate: its callers meet what it
// asks.
// After extract.rs of datafusion-functions-nested 55.2.0, Apache License 2.0, Apache Software Foundation; changed, see NOTICE.
#![tactic(auto)]

mod extract;

ghost use Rattle.bitmap.specs.Push.{push_bit};
ghost use Rattle.column.specs.Columns.{column_in};
ghost use Rattle.column.specs.Outputs.{FillsValues, SameValues, ValueAnswers};
ghost use Rattle.column.specs.Put.{Readable};
ghost use Rattle.model.specs.Bitmap.{bytes_for};
ghost use Rattle.model.specs.Column.{row_count};
ghost use Rattle.model.specs.Form.{is_val, value_of};
ghost use Rattle.model.specs.Outcome.{fitted_values};
ghost use Rattle.std.specs.Prelude.{◌/◌, ◌<◌, ◌≤◌, length, set, ◌≡◌};
ghost use Rattle.value_places.specs.Values.{Indexed, value_at, values_made};

use column::elements::ValueOutput;
use column::lists::ListColumn;
use column::rows;
use model::offsets::Offset;
use model::{Refusal, ValueAnswer};
use value_places::ValueOp;

// Writes the value that is made of row r.
fn put_value<O: Offset>(op: ValueOp, list: ListColumn<O>, r: usize, out: &mut ValueOutput)
    requires column { Readable (column_in O.numbers list) }
    requires indexed { Indexed op (row_count (O.numbers list.offsets.now)) }
    requires r_lt_rows { r < row_count (O.numbers list.offsets.now) }
    requires r_in_bounds { r < length out.old.values.now }
    requires r_in_bounds_2 { r / 8 < length out.old.bits.now }
    ensures values_after { out.new.values.now ≡ set out.old.values.now r (value_of (value_at op.entry (column_in O.numbers list.entry) r)) }
    ensures bits_after { out.new.bits.now ≡ push_bit out.old.bits.now r (is_val (value_at op.entry (column_in O.numbers list.entry) r)) }
    ensures same { SameValues out.old out.new }
{
    let a = list.offset_at(r);
    let b = list.offset_at(r + 1);
    let k = rows::row_len(list.rows, list.row_count(), r, a, b);
    let i = value_places::place_of::<O>(op, list.elements, r, a, k);
    extract::write_found(list.elements, i, a + k, out, r);
}

// Writes the values that the operation makes, in result form.
fn write_values<O: Offset>(op: ValueOp, list: ListColumn<O>, out: &mut ValueOutput)
    requires column { Readable (column_in O.numbers list) }
    requires indexed { Indexed op (row_count (O.numbers list.offsets.now)) }
    requires rows_in_bounds { row_count (O.numbers list.offsets.now) ≤ length out.old.values.now }
    requires rows_in_bounds_2 { bytes_for (row_count (O.numbers list.offsets.now)) ≤ length out.old.bits.now }
    ensures { FillsValues (values_made op.entry (column_in O.numbers list.entry)) out.old out.new }
{
    for r in 0..list.row_count() {
        put_value(op, list, r, out);
    }
}

// Writes the values that the operation makes, where the output has room for them.
pub fn write_fitting<O: Offset>(
    op: ValueOp,
    list: ListColumn<O>,
    out: &mut ValueOutput,
) -> ValueAnswer
    requires column { Readable (column_in O.numbers list) }
    requires indexed { Indexed op (row_count (O.numbers list.offsets.now)) }
    ensures { ValueAnswers (fitted_values (values_made op.entry (column_in O.numbers list.entry))) result out.old out.new }
{
    let n = list.row_count();
    if !out.has_room(n) {
        return Err(Refusal::ShortOutput);
    }
    write_values(op, list, out);
    answers::value_answer(out, n)
}
