// Slice: the elements of a row at places a stride apart.
// After extract.rs of datafusion-functions-nested 55.2.0, Apache License 2.0, Apache Software Foundation; changed, see NOTICE.
ghost use Rattle.column.specs.Columns.{elems_in};
ghost use Rattle.column.specs.Outputs.{RoomForElems, Writes, ReadableElems};
ghost use Rattle.column.specs.Put.{put_values};
ghost use Rattle.model.specs.Basics.{tab};
ghost use Rattle.model.specs.Column.{val};
ghost use Rattle.model.specs.Slice.{sliced};
ghost use Rattle.std.specs.Prelude.{◌+◌, ◌<◌, ◌≤◌, ◌+ℤ◌, nat_abs, pos, get_or, length, ◌≡◌};
ghost use Rattle.strides.specs.Strides.{Follows, Walks};

use column::elements::{ValueColumn, ValueOutput};
use index::slice::Steps;
use rows::utils;

// The place after p.
fn next_place(p: usize, stride: i64) -> usize
    requires { Follows p stride }
    ensures { result ≡ nat_abs (pos p +ℤ stride) }
{
    ((p as i64) + stride) as usize
}

// The place after p, where one is left: none past the last is computed.
fn place_after(p: usize, stride: i64, left: usize) -> usize
    requires { 0 < left → Follows p stride }
    ensures { 0 < left → result ≡ nat_abs (pos p +ℤ stride) }
{
    if left == 0 {
        return p;
    }
    next_place(p, stride)
}

// Writes the elements at the steps' places among the n from element a on, one after the other.
fn write_each_place(
    elements: ValueColumn,
    a: usize,
    n: usize,
    steps: Steps,
    out: &mut ValueOutput,
    at: usize,
) -> usize
    requires column { ReadableElems elements a n }
    requires places { Walks steps.start steps.stride steps.count n }
    requires room { RoomForElems (sliced steps.start steps.stride steps.count (elems_in elements a n)) at out.old }
    ensures { Writes (sliced steps.start steps.stride steps.count (elems_in elements.entry a n)) at out.old out.new result }
{
    let mut p = steps.start;
    for j in 0..steps.count {
        out.put_elem(elements, a + p, at + j);
        p = place_after(p, steps.stride, steps.count - j - 1);
    }
    at + steps.count
}

// Copies the values at the steps' places among the n from value a on. The last is copied after the loop, so that no place past it is
// computed.
fn copy_places(values: &[i64], a: usize, n: usize, steps: Steps, out: &mut [i64], at: usize)
    requires column { a + n ≤ length values.now }
    requires places { Walks steps.start steps.stride steps.count n }
    requires room { at + steps.count ≤ length out.old }
    ensures { out.new ≡ put_values out.old at (sliced steps.start steps.stride steps.count (tab (λ i. val (get_or values.now i (pos 0))) a n)) }
{
    if steps.count == 0 {
        return;
    }
    let last = steps.count - 1;
    let mut p = steps.start;
    for j in 0..last {
        out[at + j] = values[a + p];
        p = next_place(p, steps.stride);
    }
    out[at + last] = values[a + p];
}

// Writes the same elements, none of them null: their values, and then their bits at once.
fn write_plain_places(
    elements: ValueColumn,
    a: usize,
    n: usize,
    steps: Steps,
    out: &mut ValueOutput,
    at: usize,
) -> usize
    requires column { ReadableElems elements a n }
    requires places { Walks steps.start steps.stride steps.count n }
    requires room { RoomForElems (sliced steps.start steps.stride steps.count (elems_in elements a n)) at out.old }
    requires plain { length elements.bits.bytes.now ≡ 0 }
    ensures { Writes (sliced steps.start steps.stride steps.count (elems_in elements.entry a n)) at out.old out.new result }
{
    copy_places(elements.values, a, n, steps, out.values, at);
    runs::push_same(out.bits, at, steps.count, true);
    at + steps.count
}

// Writes the same elements, at once where none can be null; gives the next place.
fn write_places(
    elements: ValueColumn,
    a: usize,
    n: usize,
    steps: Steps,
    out: &mut ValueOutput,
    at: usize,
) -> usize
    requires column { ReadableElems elements a n }
    requires places { Walks steps.start steps.stride steps.count n }
    requires room { RoomForElems (sliced steps.start steps.stride steps.count (elems_in elements a n)) at out.old }
    ensures { Writes (sliced steps.start steps.stride steps.count (elems_in elements.entry a n)) at out.old out.new result }
{
    if elements.bits.bytes.is_empty() {
        return write_plain_places(elements, a, n, steps, out, at);
    }
    write_each_place(elements, a, n, steps, out, at)
}

// Writes the elements at the steps' places among the n from element a on; at stride 1 they are a run. Gives the next place.
pub fn write_strided(
    elements: ValueColumn,
    a: usize,
    n: usize,
    steps: Steps,
    out: &mut ValueOutput,
    at: usize,
) -> usize
    requires column { ReadableElems elements a n }
    requires places { Walks steps.start steps.stride steps.count n }
    requires room { RoomForElems (sliced steps.start steps.stride steps.count (elems_in elements a n)) at out.old }
    ensures { Writes (sliced steps.start steps.stride steps.count (elems_in elements.entry a n)) at out.old out.new result }
{
    if steps.stride != 1 {
        return write_places(elements, a, n, steps, out, at);
    }
    if steps.count == 0 {
        return at;
    }
    utils::write_forward(elements, a + steps.start, steps.count, out, at)
}
