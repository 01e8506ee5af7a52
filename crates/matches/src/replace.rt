// Replace: the first matches of a row become another element.
// After replace.rs of datafusion-functions-nested 55.2.0, Apache License 2.0, Apache Software Foundation; changed, see NOTICE.
ghost use Rattle.column.specs.Columns.{elems_in};
ghost use Rattle.column.specs.Outputs.{RoomForElems, Writes, ReadableElems};
ghost use Rattle.model.specs.Elements.{replaced};
ghost use Rattle.rows.specs.Cells.{elem_of};

use column::elements::{ValueColumn, ValueOutput};
use rows::{Cell, utils};

// Which elements of a row become which, and how many at most.
#[derive(Clone, Copy)]
pub struct Replacement {
    pub from: Cell,
    pub to: Cell,
    pub limit: usize,
}

// Writes the n elements from element a on, the first matches as another element: run after run without a match, and past the limit the rest.
pub fn write_replaced(
    elements: ValueColumn,
    a: usize,
    n: usize,
    by: Replacement,
    out: &mut ValueOutput,
    at: usize,
) -> usize
    requires column { ReadableElems elements a n }
    requires room { RoomForElems (replaced by.limit (elem_of by.from) (elem_of by.to) (elems_in elements a n)) at out.old }
    ensures { Writes (replaced by.limit (elem_of by.from) (elem_of by.to) (elems_in elements.entry a n)) at out.old out.new result }
{
    let mut p = a;
    let mut left = n;
    let mut k = at;
    for _ in 0..by.limit {
        let run = utils::before_match(elements, p, left, by.from);
        k = utils::write_forward(elements, p, run, out, k);
        if run == left {
            return k;
        }
        utils::write_cell(by.to, out, k);
        k += 1;
        p += run + 1;
        left -= run + 1;
    }
    utils::write_forward(elements, p, left, out, k)
}
