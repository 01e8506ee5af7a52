// Remove: what it takes of a row, how long the row becomes, and the row written.
ghost use Rattle.column.specs.Columns.{elems_in};
ghost use Rattle.column.specs.Outputs.{RoomForRow, WritesRow, ReadableElems};
ghost use Rattle.match_rows.specs.Changes.{removing};
ghost use Rattle.model.specs.Rows.{row_made};
ghost use Rattle.ops.specs.Ops.{op_elems, op_made, remove_op};
ghost use Rattle.std.specs.Prelude.{length, ◌≡◌};

use column::elements::ValueColumn;
use column::lists::ListOutput;
use matches::remove;
use matches::remove::Removal;
use model::offsets::Offset;
use rows::{Cell, utils};

// What is removed from a row; a null limit or element makes a null row.
#[tactic(auto, unfolding(ops::specs::Ops::remove_op, crate::specs::Changes::removing))]
pub fn removal(limit: Cell, element: Cell) -> Option<Removal>
    ensures { removing result ≡ remove_op element limit }
{
    match (limit, element) {
        (Some(k), Some(_)) => Some(Removal {
            element,
            limit: utils::limit_of(k),
        }),
        _ => None,
    }
}

// How many of the len elements from element a on are kept; none are made of a null.
#[tactic(auto, unfolding(ops::specs::Ops::op_elems, crate::specs::Changes::removing))]
pub fn measure_row(by: Option<Removal>, elements: ValueColumn, a: usize, len: usize) -> usize
    requires column { ReadableElems elements a len }
    ensures { result ≡ length (op_elems (removing by) (elems_in elements.entry a len)) }
{
    match by {
        None => 0,
        Some(by) => remove::measure_removed(elements, a, len, by),
    }
}

// Writes the len elements from element a on, without what is removed, as row r, but for its offset; gives the number of elements then
// written.
pub fn put_row<O: Offset>(
    by: Option<Removal>,
    elements: ValueColumn,
    a: usize,
    len: usize,
    r: usize,
    out: &mut ListOutput<O>,
    at: usize,
) -> usize
    requires column { ReadableElems elements a len }
    requires room { RoomForRow (row_made (op_made (removing by) (elems_in elements a len))) r at out.old }
    ensures { WritesRow (row_made (op_made (removing by) (elems_in elements.entry a len))) r at out.old out.new result }
{
    bitmap::push_bit(out.rows, r, by.is_some());
    match by {
        None => at,
        Some(by) => remove::write_removed(elements, a, len, by, out.elements, at),
    }
}
