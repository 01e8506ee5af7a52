// Resize: a row cut, or filled up to a count.
// After resize.rs of datafusion-functions-nested 55.2.0, Apache License 2.0, Apache Software Foundation; changed, see NOTICE.
ghost use Rattle.column.specs.Columns.{elems_in};
ghost use Rattle.column.specs.Outputs.{RoomForElems, Writes, ReadableElems};
ghost use Rattle.model.specs.Elements.{resized};
ghost use Rattle.rows.specs.Cells.{elem_of, fill_elem};
ghost use Rattle.std.specs.Prelude.{replicate, ◌≡◌};

use column::elements::{ValueColumn, ValueOutput};
use rows::{Cell, Fill, utils};

// What a row is filled with, as an argument: a null where no fill is lent.
#[tactic(auto, unfolding(rows::specs::Cells::elem_of, rows::specs::Cells::fill_elem))]
fn fill_cell(fill: Fill) -> Cell
    ensures { elem_of result ≡ fill_elem fill }
{
    fill.flatten()
}

// Writes an argument n times; gives the next place.
fn write_fill(cell: Cell, n: usize, out: &mut ValueOutput, at: usize) -> usize
    requires room { RoomForElems (replicate n (elem_of cell)) at out.old }
    ensures { Writes (replicate n (elem_of cell)) at out.old out.new result }
{
    match cell {
        None => runs::write_null(n, out, at),
        Some(v) => runs::write_value(v, n, out, at),
    }
}

// Writes the n elements from element a on, cut or filled up to count.
pub fn write_resized(
    elements: ValueColumn,
    a: usize,
    n: usize,
    count: usize,
    fill: Fill,
    out: &mut ValueOutput,
    at: usize,
) -> usize
    requires column { ReadableElems elements a n }
    requires room { RoomForElems (resized count (fill_elem fill) (elems_in elements a n)) at out.old }
    ensures { Writes (resized count (fill_elem fill) (elems_in elements.entry a n)) at out.old out.new result }
{
    if count <= n {
        return utils::write_forward(elements, a, count, out, at);
    }
    let k = utils::write_forward(elements, a, n, out, at);
    write_fill(fill_cell(fill), count - n, out, k)
}
