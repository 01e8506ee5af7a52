// Writing one element of a row.
// After extract.rs of datafusion-functions-nested 55.2.0, Apache License 2.0, Apache Software Foundation; changed, see NOTICE.
ghost use Rattle.bitmap.specs.Push.{Covers, push_bit};
ghost use Rattle.bitmap.specs.Reads.{bits_in};
ghost use Rattle.column.specs.Columns.{elem_in};
ghost use Rattle.column.specs.Outputs.{SameValues};
ghost use Rattle.model.specs.Form.{is_val, value_of};
ghost use Rattle.std.specs.Prelude.{◌/◌, ◌<◌, ◌≤◌, length, set, ◌≡◌};
ghost use Rattle.value_places.specs.Found.{found_at};

use column::elements::{ValueColumn, ValueOutput};

// Writes element i as value k, or a null where i is the end.
pub(crate) fn write_found(
    elements: ValueColumn,
    i: usize,
    end: usize,
    out: &mut ValueOutput,
    k: usize,
)
    requires end_in_bounds { end ≤ length elements.values.now }
    requires covers { Covers (bits_in elements.bits) (length elements.values.now) }
    requires k_in_bounds { k < length out.old.values.now }
    requires k_in_bounds_2 { k / 8 < length out.old.bits.now }
    ensures values_after { out.new.values.now ≡ set out.old.values.now k (value_of (found_at (elem_in elements.entry) i end)) }
    ensures bits_after { out.new.bits.now ≡ push_bit out.old.bits.now k (is_val (found_at (elem_in elements.entry) i end)) }
    ensures same { SameValues out.old out.new }
{
    if i < end {
        out.put_elem(elements, i, k);
    } else {
        out.put_null(k);
    }
}
