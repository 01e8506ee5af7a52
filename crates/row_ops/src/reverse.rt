// Reverse: the elements of a row, last first.
// After reverse.rs of datafusion-functions-nested 55.2.0, Apache License 2.0, Apache Software Foundation; changed, see NOTICE.
ghost use Rattle.column.specs.Columns.{elems_in};
ghost use Rattle.column.specs.Outputs.{RoomForElems, Writes, ReadableElems};
ghost use Rattle.std.specs.Prelude.{reverse};

use column::elements::{ValueColumn, ValueOutput};

// Writes the n elements from element a on, last first.
pub fn write_backward(
    elements: ValueColumn,
    a: usize,
    n: usize,
    out: &mut ValueOutput,
    at: usize,
) -> usize
    requires column { ReadableElems elements a n }
    requires room { RoomForElems (reverse (elems_in elements a n)) at out.old }
    ensures { Writes (reverse (elems_in elements.entry a n)) at out.old out.new result }
{
    if elements.bits.bytes.len() == 0 {
        return runs::write_backward(elements, a, n, out, at);
    }
    nullable_runs::write_backward(elements, a, n, out, at)
}
