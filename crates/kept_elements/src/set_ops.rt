// What union and intersect ask of one element and of two rows.
// After set_ops.rs of datafusion-functions-nested 55.2.0, Apache License 2.0, Apache Software Foundation; changed, see NOTICE.
ghost use Rattle.column.specs.Columns.{elem_in, elems_in};
ghost use Rattle.column.specs.Outputs.{ReadableElems};
ghost use Rattle.model.specs.Basics.{pick};
ghost use Rattle.set_elements.specs.Pairs.{keeps};
ghost use Rattle.std.specs.Prelude.{◌+◌, ◌<◌, ltb, length, ◌≡◌};

use column::elements::ValueColumn;

// Whether element a + k is kept of its row: it is not among the k elements before it, and it is among the others where shared
// ones are wanted, and is not where new ones are. Made in its place: a call would copy both columns for each element.
#[inline(always)]
pub fn is_kept(
    elements: ValueColumn,
    a: usize,
    k: usize,
    others: ValueColumn,
    b: usize,
    m: usize,
    shared: bool,
) -> bool
    requires row { ReadableElems elements a (k + 1) }
    requires other { ReadableElems others b m }
    ensures { result ≡ keeps shared (elems_in others.entry b m) (elems_in elements.entry a k) (elem_in elements.entry (a + k)) }
{
    let i = a + k;
    if set_elements::is_among(elements, i, elements, a, k) {
        return false;
    }
    let found = set_elements::is_among(elements, i, others, b, m);
    if shared { found } else { !found }
}

// The longer of two rows' values, the left one on equal lengths: the part that intersect walks.
pub fn longer<'a>(left: &'a [i64], right: &'a [i64]) -> &'a [i64]
    ensures { result.now ≡ pick (ltb (length left.now) (length right.now)) right.now left.now }
{
    if left.len() < right.len() {
        right
    } else {
        left
    }
}
