// Distinct: first occurrences, by comparing with the elements before.
// After set_ops.rs of datafusion-functions-nested 55.2.0, Apache License 2.0, Apache Software Foundation; changed, see NOTICE.
ghost use Rattle.column.specs.Columns.{elems_in};
ghost use Rattle.column.specs.Outputs.{RoomForElems, Writes, ReadableElems};
ghost use Rattle.model.specs.Elements.{distinct};
ghost use Rattle.std.specs.Prelude.{length, ◌≡◌};

use column::elements;
use column::elements::{ValueColumn, ValueOutput};

// How many of the n elements from element a on are first occurrences.
pub fn measure_distinct(elements: ValueColumn, a: usize, n: usize) -> usize
    requires column { ReadableElems elements a n }
    ensures { result ≡ length (distinct (elems_in elements.entry a n)) }
{
    let mut len = 0;
    for k in 0..n {
        let new = !set_elements::is_among(elements, a + k, elements, a, k);
        len += usize::from(new);
    }
    len
}

// Writes the first occurrences among the n elements from element a on.
pub fn write_distinct(
    elements: ValueColumn,
    a: usize,
    n: usize,
    out: &mut ValueOutput,
    at: usize,
) -> usize
    requires column { ReadableElems elements a n }
    requires room { RoomForElems (distinct (elems_in elements a n)) at out.old }
    ensures { Writes (distinct (elems_in elements.entry a n)) at out.old out.new result }
{
    let mut p = at;
    for k in 0..n {
        let i = a + k;
        if !set_elements::is_among(elements, i, elements, a, k) {
            out.put_elem(elements, i, p);
            p += 1;
        }
    }
    p
}
