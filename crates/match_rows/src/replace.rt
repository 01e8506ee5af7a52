// Replace: what it takes of a row, how long the row becomes, and the row written.
ghost use Rattle.column.specs.Columns.{elems_in};
ghost use Rattle.column.specs.Outputs.{RoomForRow, WritesRow, ReadableElems};
ghost use Rattle.match_rows.specs.Changes.{replacing};
ghost use Rattle.match_rows.specs.Limits.{replaced_length};
ghost use Rattle.model.specs.Rows.{row_made};
ghost use Rattle.ops.specs.Ops.{op_made, replace_op};
ghost use Rattle.std.specs.Prelude.{◌≡◌};

use column::elements::ValueColumn;
use column::lists::ListOutput;
use matches::replace;
use matches::replace::Replacement;
use model::offsets::Offset;
use rows::{Cell, utils};

// How long a row of len elements is with its matches replaced: none are made of a null.
pub fn replaced_length(limit: Cell, len: usize) -> usize
    ensures { result ≡ replaced_length limit len }
{
    match limit {
        None => 0,
        Some(_) => len,
    }
}

// What is replaced in a row; a null limit makes a null row.
#[tactic(auto, unfolding(ops::specs::Ops::replace_op, crate::specs::Changes::replacing))]
pub fn replacement(limit: Cell, from: Cell, to: Cell) -> Option<Replacement>
    ensures { replacing result ≡ replace_op from to limit }
{
    match limit {
        None => None,
        Some(k) => Some(Replacement {
            from,
            to,
            limit: utils::limit_of(k),
        }),
    }
}

// Writes the len elements from element a on, with what is replaced, as row r, but for its offset; gives the number of elements then
// written.
pub fn put_row<O: Offset>(
    by: Option<Replacement>,
    elements: ValueColumn,
    a: usize,
    len: usize,
    r: usize,
    out: &mut ListOutput<O>,
    at: usize,
) -> usize
    requires column { ReadableElems elements a len }
    requires room { RoomForRow (row_made (op_made (replacing by) (elems_in elements a len))) r at out.old }
    ensures { WritesRow (row_made (op_made (replacing by) (elems_in elements.entry a len))) r at out.old out.new result }
{
    bitmap::push_bit(out.rows, r, by.is_some());
    match by {
        None => at,
        Some(by) => replace::write_replaced(elements, a, len, by, out.elements, at),
    }
}
