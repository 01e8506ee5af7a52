// Reverse, distinct and the pops of a list, which take no arguments: one walk measures the rows, a second writes. An inner crate: its
// callers meet what it asks.
#![tactic(auto)]

ghost use Rattle.std.specs.Prelude.{◌≤◌, length, ◌≡◌};
ghost use Rattle.column.specs.Columns.{column_in, elems_in};
ghost use Rattle.column.specs.Outputs.{Fills, ReadableElems, RoomFor, RoomForElems, Writes};
ghost use Rattle.column.specs.Put.{Readable};
ghost use Rattle.model.specs.Column.{row_count};
ghost use Rattle.model.specs.Form.{elems_of, flat};
ghost use Rattle.plain_walk.specs.Plain.{plain_row, plain_rows};

use column::elements::{ValueColumn, ValueOutput};
use column::lists::{ListColumn, ListOutput};
use column::offsets;
use model::Unary;
use model::offsets::Offset;

// The number of elements of the row that the operation makes: none of a null row.
#[tactic(auto, unfolding(crate::specs::Plain::plain_row, model::specs::Form::elems_of))]
fn measure_row(op: Unary, valid: bool, elements: ValueColumn, a: usize, len: usize) -> usize
    requires column { ReadableElems elements a len }
    ensures { result ≡ length (elems_of (plain_row valid op (elems_in elements.entry a len))) }
{
    if !valid {
        return 0;
    }
    row_ops::measure_plain(op, elements, a, len)
}

// The number of elements that the operation makes.
pub fn measure_rows<O: Offset>(op: Unary, list: ListColumn<O>) -> usize
    requires column { Readable (column_in O.numbers list) }
    ensures value { result ≡ length (flat (plain_rows O.LIMITS op (column_in O.numbers list.entry))) }
    ensures upper_bound { result ≤ O.LIMITS.offset }
{
    let n = list.row_count();
    let mut a = list.first_offset();
    let mut found: usize = 0;
    for r in 0..n {
        let b = list.offset_at(r + 1);
        let len = b - a;
        let valid = list.rows.is_valid(r, n);
        let more = measure_row(op, valid, list.elements, a, len);
        found += more;
        a = b;
    }
    found
}

// Writes the elements of the row that the operation makes: none of a null row; gives the number of elements then written.
fn put_elements(
    op: Unary,
    valid: bool,
    elements: ValueColumn,
    a: usize,
    len: usize,
    out: &mut ValueOutput,
    at: usize,
) -> usize
    requires column { ReadableElems elements a len }
    requires room { RoomForElems (elems_of (plain_row valid op (elems_in elements a len))) at out.old }
    ensures { Writes (elems_of (plain_row valid op (elems_in elements.entry a len))) at out.old out.new result }
{
    if !valid {
        return at;
    }
    row_ops::write_plain(op, elements, a, len, out, at)
}

// Writes the rows that the operation makes, in result form, row by row with their bits.
fn write_each<O: Offset>(op: Unary, list: ListColumn<O>, out: &mut ListOutput<O>)
    requires column { Readable (column_in O.numbers list) }
    requires small { length (flat (plain_rows O.LIMITS op (column_in O.numbers list))) ≤ O.LIMITS.offset }
    requires room { RoomFor (row_count (O.numbers list.offsets.now)) (length (flat (plain_rows O.LIMITS op (column_in O.numbers list)))) out.old }
    ensures { Fills O.numbers (plain_rows O.LIMITS op (column_in O.numbers list.entry)) out.old out.new }
{
    let n = list.row_count();
    offsets::put_offset(out.offsets, 0, 0);
    let mut at: usize = 0;
    let mut a = list.first_offset();
    for r in 0..n {
        let b = list.offset_at(r + 1);
        let len = b - a;
        let valid = list.rows.is_valid(r, n);
        at = put_elements(op, valid, list.elements, a, len, out.elements, at);
        bitmap::push_bit(out.rows, r, valid);
        offsets::put_offset(out.offsets, r + 1, at);
        a = b;
    }
}

// Writes the rows that the operation makes, in result form: all bits at once where none can be 0.
pub fn write_rows<O: Offset>(op: Unary, list: ListColumn<O>, out: &mut ListOutput<O>)
    requires column { Readable (column_in O.numbers list) }
    requires small { length (flat (plain_rows O.LIMITS op (column_in O.numbers list))) ≤ O.LIMITS.offset }
    requires room { RoomFor (row_count (O.numbers list.offsets.now)) (length (flat (plain_rows O.LIMITS op (column_in O.numbers list)))) out.old }
    ensures { Fills O.numbers (plain_rows O.LIMITS op (column_in O.numbers list.entry)) out.old out.new }
{
    if bare_walk::is_bare(op, list) {
        bare_walk::write_rows(op, list, out);
        return;
    }
    write_each(op, list, out);
}
