// The rows of a column, measured and written in result form. An inner crate: its callers meet what it asks.
#![tactic(auto)]

ghost use Rattle.bitmap.specs.Reads.{bits_in};
ghost use Rattle.column.specs.Columns.{elem_in, column_in};
ghost use Rattle.column.specs.Outputs.{RoomFor, RoomForRow, WritesRow, Fills, ReadableRow};
ghost use Rattle.column.specs.Put.{Readable};
ghost use Rattle.column.specs.Rows.{row_from};
ghost use Rattle.model.specs.Column.{row_count, rows_of};
ghost use Rattle.model.specs.Form.{flat};
ghost use Rattle.std.specs.Prelude.{◌≤◌, length, ◌≡◌};

use bitmap::Validity;
use column::elements::ValueColumn;
use column::lists::{ListColumn, ListOutput};
use column::offsets;
use model::offsets::Offset;
use rows::utils;

// The number of elements that the column shows.
pub fn measure_rows<O: Offset>(list: ListColumn<O>) -> usize
    requires column { Readable (column_in O.numbers list) }
    ensures value { result ≡ length (flat (rows_of (column_in O.numbers list.entry))) }
    ensures upper_bound { result ≤ O.LIMITS.offset }
{
    let n = list.row_count();
    let mut found: usize = 0;
    for r in 0..n {
        let a = list.offset_at(r);
        let b = list.offset_at(r + 1);
        found += column::rows::row_len(list.rows, n, r, a, b);
    }
    found
}

// Writes row r, but for its offset; gives the number of elements then written.
pub fn put_row<O: Offset>(
    rows: Validity,
    n: usize,
    elements: ValueColumn,
    r: usize,
    a: usize,
    b: usize,
    out: &mut ListOutput<O>,
    at: usize,
) -> usize
    requires column { ReadableRow rows n elements r a b }
    requires room { RoomForRow (row_from (bits_in rows) (elem_in elements) r a b) r at out.old }
    ensures { WritesRow (row_from (bits_in rows.entry) (elem_in elements.entry) r a b) r at out.old out.new result }
{
    let valid = rows.is_valid(r, n);
    let len = column::rows::row_len(rows, n, r, a, b);
    let next = utils::write_forward(elements, a, len, out.elements, at);
    bitmap::push_bit(out.rows, r, valid);
    next
}

// Writes the rows of the column, in result form.
pub fn write_rows<O: Offset>(list: ListColumn<O>, out: &mut ListOutput<O>)
    requires column { Readable (column_in O.numbers list) }
    requires small { length (flat (rows_of (column_in O.numbers list))) ≤ O.LIMITS.offset }
    requires room { RoomFor (row_count (O.numbers list.offsets.now)) (length (flat (rows_of (column_in O.numbers list)))) out.old }
    ensures { Fills O.numbers (rows_of (column_in O.numbers list.entry)) out.old out.new }
{
    let n = list.row_count();
    offsets::put_offset(out.offsets, 0, 0);
    let mut at: usize = 0;
    for r in 0..n {
        let a = list.offset_at(r);
        let b = list.offset_at(r + 1);
        at = put_row(list.rows, n, list.elements, r, a, b, out, at);
        offsets::put_offset(out.offsets, r + 1, at);
    }
}
