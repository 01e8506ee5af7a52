// Comparing elements, looking for one, and copying a run of them.
// After utils.rs of datafusion-functions-nested 55.2.0, Apache License 2.0, Apache Software Foundation; changed, see NOTICE.
ghost use Rattle.bitmap.specs.Push.{Covers, push_bit};
ghost use Rattle.bitmap.specs.Reads.{bits_in};
ghost use Rattle.column.specs.Columns.{elem_in, elems_in};
ghost use Rattle.column.specs.Outputs.{SameValues, RoomForElems, Writes, ReadableElems};
ghost use Rattle.model.specs.Column.{count};
ghost use Rattle.model.specs.Elements.{eq_z, same_elem};
ghost use Rattle.model.specs.Form.{is_val, value_of};
ghost use Rattle.rows.specs.Cells.{elem_of};
ghost use Rattle.rows.specs.Found.{Before};
ghost use Rattle.std.specs.Prelude.{None, Some, ◌+◌, ◌-◌, ◌/◌, ◌<◌, ◌≤◌, pos, get_or, length, set, ◌≡◌};

use crate::Cell;
use column::elements;
use column::elements::{ValueColumn, ValueOutput};

// Writes the n elements from element a on, from place at of the result on; gives the next place.
pub fn write_forward(
    elements: ValueColumn,
    a: usize,
    n: usize,
    out: &mut ValueOutput,
    at: usize,
) -> usize
    requires column { ReadableElems elements a n }
    requires room { RoomForElems (elems_in elements a n) at out.old }
    ensures { Writes (elems_in elements.entry a n) at out.old out.new result }
{
    if elements.bits.bytes.len() == 0 {
        return runs::write_forward(elements, a, n, out, at);
    }
    nullable_runs::write_forward(elements, a, n, out, at)
}

// One less, and none of none.
pub fn one_less(n: usize) -> usize
    ensures { result ≡ n - 1 }
{
    n.saturating_sub(1)
}

// Whether element i is the argument: two nulls, or one value.
pub(crate) fn compare_element_to_list(elements: ValueColumn, i: usize, cell: Cell) -> bool
    requires i_in_bounds { i < length elements.values.now }
    requires covers { Covers (bits_in elements.bits) (length elements.values.now) }
    ensures { result ≡ same_elem (elem_in elements.entry i) (elem_of cell) }
{
    let valid = elements.bits.is_valid(i, elements.values.len());
    match cell {
        None => !valid,
        Some(v) => {
            if !valid {
                return false;
            }
            set_elements::same_value(elements.values[i], v)
        }
    }
}

// How many of the n values from value a on come before the first that is v.
fn before_value(values: &[i64], a: usize, n: usize, v: i64) -> usize
    requires { a + n ≤ length values.now }
    ensures { Before (λ i. eq_z (get_or values.now (a + i) (pos 0)) v) n result }
{
    for r in 0..n {
        if values[a + r] == v {
            return r;
        }
    }
    n
}

// How many of the n elements from element a on come before the first null, one by one.
fn before_null(elements: ValueColumn, a: usize, n: usize) -> usize
    requires column { ReadableElems elements a n }
    ensures { Before (λ i. same_elem (elem_in elements.entry (a + i)) (elem_of None)) n result }
{
    for r in 0..n {
        if compare_element_to_list(elements, a + r, None) {
            return r;
        }
    }
    n
}

// How many of the n elements from element a on come before the first that is v; the validity bit is read only where the value is v.
// It goes from match to match, so a `for` would need a step of its own.
fn before_equal(elements: ValueColumn, a: usize, n: usize, v: i64) -> usize
    requires column { ReadableElems elements a n }
    ensures { Before (λ i. same_elem (elem_in elements.entry (a + i)) (elem_of (Some v))) n result }
{
    let mut r: usize = 0;
    while r < n {
        r += before_value(elements.values, a + r, n - r, v);
        if r == n {
            return r;
        }
        if compare_element_to_list(elements, a + r, Some(v)) {
            return r;
        }
        r += 1;
    }
    r
}

// How many of the n elements from element a on come before the first match, where some may be null.
fn before_each(elements: ValueColumn, a: usize, n: usize, cell: Cell) -> usize
    requires column { ReadableElems elements a n }
    ensures { Before (λ i. same_elem (elem_in elements.entry (a + i)) (elem_of cell)) n result }
{
    match cell {
        None => before_null(elements, a, n),
        Some(v) => before_equal(elements, a, n, v),
    }
}

// How many of the n elements from element a on come before the first match; where none can be null, a null matches none.
pub fn before_match(elements: ValueColumn, a: usize, n: usize, cell: Cell) -> usize
    requires column { ReadableElems elements a n }
    ensures { Before (λ i. same_elem (elem_in elements.entry (a + i)) (elem_of cell)) n result }
{
    if 0 < elements.bits.bytes.len() {
        return before_each(elements, a, n, cell);
    }
    match cell {
        None => n,
        Some(v) => before_value(elements.values, a, n, v),
    }
}

// A number as a limit: none at or below 0.
pub fn limit_of(n: i64) -> usize
    ensures { result ≡ count n }
{
    n.max(0) as usize
}

// Writes a value as element k of the result.
fn write_value(v: i64, out: &mut ValueOutput, k: usize)
    requires k_in_bounds { k < length out.old.values.now }
    requires k_in_bounds_2 { k / 8 < length out.old.bits.now }
    ensures values_after { out.new.values.now ≡ set out.old.values.now k (value_of (elem_of (Some v))) }
    ensures bits_after { out.new.bits.now ≡ push_bit out.old.bits.now k (is_val (elem_of (Some v))) }
    ensures same { SameValues out.old out.new }
{
    out.values[k] = v;
    bitmap::push_bit(out.bits, k, true);
}

// Writes an argument as element k of the result.
pub fn write_cell(cell: Cell, out: &mut ValueOutput, k: usize)
    requires k_in_bounds { k < length out.old.values.now }
    requires k_in_bounds_2 { k / 8 < length out.old.bits.now }
    ensures values_after { out.new.values.now ≡ set out.old.values.now k (value_of (elem_of cell)) }
    ensures bits_after { out.new.bits.now ≡ push_bit out.old.bits.now k (is_val (elem_of cell)) }
    ensures same { SameValues out.old out.new }
{
    match cell {
        None => out.put_null(k),
        Some(v) => write_value(v, out, k),
    }
}
