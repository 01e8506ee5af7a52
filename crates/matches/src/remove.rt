// Remove: a row without its first matches.
// After remove.rs of datafusion-functions-nested 55.2.0, Apache License 2.0, Apache Software Foundation; changed, see NOTICE.
ghost use Rattle.column.specs.Columns.{elems_in};
ghost use Rattle.column.specs.Outputs.{RoomForElems, Writes, ReadableElems};
ghost use Rattle.model.specs.Elements.{removed};
ghost use Rattle.rows.specs.Cells.{elem_of};
ghost use Rattle.std.specs.Prelude.{length, ◌≡◌};

use column::elements::{ValueColumn, ValueOutput};
use rows::{Cell, utils};

// Which elements of a row are removed, and how many at most.
#[derive(Clone, Copy)]
pub struct Removal {
    pub element: Cell,
    pub limit: usize,
}

// How many of the n elements from element a on are kept; past the limit all are.
pub fn measure_removed(elements: ValueColumn, a: usize, n: usize, by: Removal) -> usize
    requires column { ReadableElems elements a n }
    ensures { result ≡ length (removed by.limit (elem_of by.element) (elems_in elements.entry a n)) }
{
    let mut p = a;
    let mut left = n;
    let mut kept: usize = 0;
    for _ in 0..by.limit {
        let run = utils::before_match(elements, p, left, by.element);
        kept += run;
        if run == left {
            return kept;
        }
        p += run + 1;
        left -= run + 1;
    }
    kept + left
}

// Writes the n elements from element a on without the first matches: run after run without a match, and past the limit the rest.
pub fn write_removed(
    elements: ValueColumn,
    a: usize,
    n: usize,
    by: Removal,
    out: &mut ValueOutput,
    at: usize,
) -> usize
    requires column { ReadableElems elements a n }
    requires room { RoomForElems (removed by.limit (elem_of by.element) (elems_in elements a n)) at out.old }
    ensures { Writes (removed by.limit (elem_of by.element) (elems_in elements.entry a n)) at out.old out.new result }
{
    let mut p = a;
    let mut left = n;
    let mut k = at;
    for _ in 0..by.limit {
        let run = utils::before_match(elements, p, left, by.element);
        k = utils::write_forward(elements, p, run, out, k);
        if run == left {
            return k;
        }
        p += run + 1;
        left -= run + 1;
    }
    utils::write_forward(elements, p, left, out, k)
}
