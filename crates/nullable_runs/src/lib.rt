// Runs of elements that may be null: values at once, what null slots hold, and bits by words. An inner crate: its callers meet what it asks.
#![tactic(auto)]

ghost use Rattle.bitmap.specs.Push.{push_bits};
ghost use Rattle.column.specs.Columns.{elems_in};
ghost use Rattle.column.specs.Outputs.{SameValues, RoomForElems, Writes, ReadableElems};
ghost use Rattle.model.specs.Basics.{tab};
ghost use Rattle.model.specs.Bitmap.{bit_at, bytes_for};
ghost use Rattle.model.specs.Inner.{now_elems, lent_elems};
ghost use Rattle.null_slots.specs.Nulled.{nulled};
ghost use Rattle.std.specs.Prelude.{◌*◌, ◌+◌, ◌/◌, ◌<◌, ◌≤◌, length, reverse, ◌≡◌};

use column::elements::{ValueColumn, ValueOutput};

// The byte that holds bit a, counted from a starting bit.
fn byte_from(start: usize, a: usize) -> usize
    requires { start < 8 }
    ensures { result ≡ (start + a) / 8 }
{
    a / 8 + (start + a % 8) / 8
}

// Writes what null slots hold, and the bits, of n elements, bit s of byte k being the first; the bits are read once.
fn put_short(bits: &[u8], k: usize, s: usize, n: usize, out: &mut ValueOutput, at: usize)
    requires s_bound { s < 8 }
    requires n_nonzero { 0 < n }
    requires n_bound { n ≤ 8 }
    requires n_in_bounds { bytes_for (8 * k + s + n) ≤ length bits.now }
    requires n_in_bounds_2 { at + n ≤ length out.old.values.now }
    requires n_in_bounds_3 { bytes_for (at + n) ≤ length out.old.bits.now }
    ensures values_after { out.new.values.now ≡ nulled out.old.values.now at (tab (bit_at bits.now) (8 * k + s) n) }
    ensures bits_after { out.new.bits.now ≡ push_bits out.old.bits.now at (tab (bit_at bits.now) (8 * k + s) n) }
    ensures same { SameValues out.old out.new }
{
    let few = bit_runs::few_at(bits, k, s, n);
    null_slots::put_few(u64::from(few), n, out.values, at);
    bit_runs::push_few(out.bits, at, few, n);
}

// The same of any number of elements.
fn put_bits(bits: &[u8], k: usize, s: usize, n: usize, out: &mut ValueOutput, at: usize)
    requires s_bound { s < 8 }
    requires n_in_bounds { bytes_for (8 * k + s + n) ≤ length bits.now }
    requires n_in_bounds_2 { at + n ≤ length out.old.values.now }
    requires n_in_bounds_3 { bytes_for (at + n) ≤ length out.old.bits.now }
    requires n_bound { at + n < 18446744073709551616 }
    ensures values_after { out.new.values.now ≡ nulled out.old.values.now at (tab (bit_at bits.now) (8 * k + s) n) }
    ensures bits_after { out.new.bits.now ≡ push_bits out.old.bits.now at (tab (bit_at bits.now) (8 * k + s) n) }
    ensures same { SameValues out.old out.new }
{
    if 8 < n {
        null_slots::put_nulls(bits, k, s, n, out.values, at);
        bit_runs::push_copied(bits, k, s, n, out.bits, at);
        return;
    }
    if n == 0 {
        return;
    }
    put_short(bits, k, s, n, out, at);
}

// Writes the n elements from element a on, from place at of the result on; gives the next place.
pub fn write_forward(
    elements: ValueColumn,
    a: usize,
    n: usize,
    out: &mut ValueOutput,
    at: usize,
) -> usize
    requires column { ReadableElems elements a n }
    requires room { RoomForElems (elems_in elements a n) at out.old }
    requires bits { 0 < length elements.bits.bytes.now }
    ensures { Writes (elems_in elements.entry a n) at out.old out.new result }
{
    let byte = byte_from(elements.bits.start, a);
    let first = bitmap::start_from(elements.bits.start, a);
    stores::copy_values(elements.values, a, n, out.values, at);
    put_bits(elements.bits.bytes, byte, first, n, out, at);
    at + n
}

// Writes the n elements from element a on, last first.
pub fn write_backward(
    elements: ValueColumn,
    a: usize,
    n: usize,
    out: &mut ValueOutput,
    at: usize,
) -> usize
    requires column { ReadableElems elements a n }
    requires room { RoomForElems (reverse (elems_in elements a n)) at out.old }
    requires bits { 0 < length elements.bits.bytes.now }
    ensures { Writes (reverse (elems_in elements.entry a n)) at out.old out.new result }
{
    let byte = byte_from(elements.bits.start, a);
    let first = bitmap::start_from(elements.bits.start, a);
    stores::copy_backward(elements.values, a, n, out.values, at);
    null_slots::put_nulls_back(elements.bits.bytes, byte, first, n, out.values, at);
    bit_runs::push_turned(elements.bits.bytes, byte, first, n, out.bits, at);
    at + n
}
