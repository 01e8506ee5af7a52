// Two elements compared, of one column or of two: validity before value, and null equals null. An inner crate: its callers meet what it
// asks.
#![tactic(auto)]

ghost use Rattle.bitmap.specs.Push.{Covers};
ghost use Rattle.bitmap.specs.Reads.{bits_in};
ghost use Rattle.column.specs.Columns.{elem_in, elems_in};
ghost use Rattle.model.specs.Column.{nul, val};
ghost use Rattle.model.specs.Elements.{eq_z, is_in, same_elem};
ghost use Rattle.set_elements.specs.Pairs.{has_value};
ghost use Rattle.set_elements.specs.Search.{Before, value_is};
ghost use Rattle.std.specs.Prelude.{◌+◌, ◌<◌, ◌≤◌, length, false, ◌≡◌};

use column::elements::ValueColumn;

pub fn same_value(a: i64, b: i64) -> bool
    ensures { result ≡ eq_z a b }
{
    a == b
}

// Whether element i of one column and element j of another are the same: two nulls, or one value. Made in its place: a call would copy
// both columns for each pair.
#[inline(always)]
#[tactic(auto, unfolding(model::specs::Elements::same_elem, model::specs::Column::elem_at))]
pub fn same_elem(elements: ValueColumn, i: usize, others: ValueColumn, j: usize) -> bool
    requires i_in_bounds { i < length elements.values.now }
    requires covers { Covers (bits_in elements.bits) (length elements.values.now) }
    requires j_in_bounds { j < length others.values.now }
    requires covers_2 { Covers (bits_in others.bits) (length others.values.now) }
    ensures { result ≡ same_elem (elem_in elements.entry i) (elem_in others.entry j) }
{
    let valid = elements.bits.is_valid(i, elements.values.len());
    if valid != others.bits.is_valid(j, others.values.len()) {
        return false;
    }
    !valid || same_value(elements.values[i], others.values[j])
}

// Whether a value is one of four: no branch among them, so that they are compared at once.
fn is_one_of_four(four: &[i64; 4], v: i64) -> bool
    ensures { result ≡ has_value v four.now 0 4 }
{
    (v == four[0]) | (v == four[1]) | (v == four[2]) | (v == four[3])
}

// Whether a value is one of the k values from value a on: four after four, then the rest; `contains` alone would branch at each value.
fn has_value(values: &[i64], a: usize, k: usize, v: i64) -> bool
    requires { a + k ≤ length values.now }
    ensures { result ≡ has_value v values.now a k }
{
    let (fours, rest) = values[a..a + k].as_chunks::<4>();
    fours.iter().any(|four| is_one_of_four(four, v)) || rest.contains(&v)
}

// How many of the k values from value a on come before a four with the value v, or before the last ones, that are no four.
fn fours_before(values: &[i64], a: usize, k: usize, v: i64) -> usize
    requires { a + k ≤ length values.now }
    ensures upper_bound { result ≤ k }
    ensures result_value { has_value v values.now a result ≡ false }
{
    let (fours, _) = values[a..a + k].as_chunks::<4>();
    4 * fours
        .iter()
        .position(|four| is_one_of_four(four, v))
        .unwrap_or(fours.len())
}

// How many of the k values from value a on come before the first that is v, or k where none is: four after four, then one by one.
pub fn before_value(values: &[i64], a: usize, k: usize, v: i64) -> usize
    requires { a + k ≤ length values.now }
    ensures { Before (value_is v values.now a) k result }
{
    let r = fours_before(values, a, k, v);
    let rest = &values[a + r..a + k];
    r + rest.iter().position(|x| *x == v).unwrap_or(k - r)
}

// Whether a value is one of the valid elements among the k from element a on: the bit is read only where the value is equal.
// It goes from match to match, so a `for` would need a step of its own.
fn has_valid(others: ValueColumn, a: usize, k: usize, v: i64) -> bool
    requires k_in_bounds { a + k ≤ length others.values.now }
    requires covers { Covers (bits_in others.bits) (length others.values.now) }
    ensures { result ≡ is_in (val v) (elems_in others.entry a k) }
{
    let end = a + k;
    let mut p = a;
    while p < end {
        let found = p + before_value(others.values, p, end - p, v);
        if found < end && others.bits.is_valid(found, others.values.len()) {
            return true;
        }
        p = found + 1;
    }
    false
}

// Whether one of the k elements from element a on is null.
fn has_null(others: ValueColumn, a: usize, k: usize) -> bool
    requires k_in_bounds { a + k ≤ length others.values.now }
    requires covers { Covers (bits_in others.bits) (length others.values.now) }
    ensures { result ≡ is_in nul (elems_in others.entry a k) }
{
    if others.bits.bytes.is_empty() {
        return false;
    }
    for p in a..a + k {
        if !others.bits.is_valid(p, others.values.len()) {
            return true;
        }
    }
    false
}

// Whether element i of one column is among the k elements from element a on of another: values alone where no element can be null, a value
// among the valid ones, a null among the bits. Made in its place, as same_elem.
#[inline(always)]
pub fn is_among(elements: ValueColumn, i: usize, others: ValueColumn, a: usize, k: usize) -> bool
    requires i_in_bounds { i < length elements.values.now }
    requires covers { Covers (bits_in elements.bits) (length elements.values.now) }
    requires k_in_bounds { a + k ≤ length others.values.now }
    requires covers_2 { Covers (bits_in others.bits) (length others.values.now) }
    ensures { result ≡ is_in (elem_in elements.entry i) (elems_in others.entry a k) }
{
    if elements.bits.bytes.is_empty() && others.bits.bytes.is_empty() {
        return has_value(others.values, a, k, elements.values[i]);
    }
    if elements.bits.is_valid(i, elements.values.len()) {
        return has_valid(others, a, k, elements.values[i]);
    }
    has_null(others, a, k)
}
