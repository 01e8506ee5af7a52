// Runs of elements without nulls, or of nulls alone: values at once, and whole bytes of bits at a time. An inner crate: its callers meet what it asks.
#![tactic(auto)]

ghost use Rattle.bitmap.specs.Push.{push_bits};
ghost use Rattle.column.specs.Columns.{elems_in};
ghost use Rattle.column.specs.Outputs.{RoomForElems, Writes, ReadableElems};
ghost use Rattle.model.specs.Basics.{pick};
ghost use Rattle.model.specs.Bitmap.{bytes_for};
ghost use Rattle.model.specs.Column.{nul, val};
ghost use Rattle.model.specs.Inner.{now_elems, lent_elems};
ghost use Rattle.std.specs.Prelude.{◌%◌, ◌*◌, ◌+◌, ◌-◌, ◌/◌, ◌<◌, ◌^◌, ◌≤◌, length, replicate, reverse, ◌≡◌};

use column::elements;
use column::elements::{ValueColumn, ValueOutput};

// ---- bits

// The m lowest bits of a byte, fewer than eight.
fn low_ones(m: usize) -> u8
    requires { m < 8 }
    ensures { result ≡ 2 ^ m - 1 }
{
    (1 << m) - 1
}

// The m lowest bits of a byte, all the same, and above them none.
fn low_bits(m: usize, on: bool) -> u8
    requires { m < 8 }
    ensures { result ≡ pick on (2 ^ m - 1) 0 }
{
    if on { low_ones(m) } else { 0 }
}

// Appends m bits, all the same, to the byte that bit i is in, and is not the first of.
fn push_within(bitmap: &mut [u8], i: usize, m: usize, on: bool)
    requires nonzero { 0 < i % 8 }
    requires m_bound { i % 8 + m ≤ 8 }
    requires i_in_bounds { i / 8 < length bitmap.old }
    ensures { bitmap.new ≡ push_bits bitmap.old i (replicate m on) }
{
    if on {
        bitmap[i / 8] |= low_ones(m) << (i % 8);
    }
}

// Appends n bits, all the same, from the first bit of byte k on: whole bytes, then the bits that are left.
fn push_bytes(bitmap: &mut [u8], k: usize, n: usize, on: bool)
    requires { k + bytes_for n ≤ length bitmap.old }
    ensures { bitmap.new ≡ push_bits bitmap.old (8 * k) (replicate n on) }
{
    let whole = n / 8;
    let last = n % 8;
    stores::put_bytes(bitmap, k, whole, stores::byte_of(on));
    if last > 0 {
        bitmap[k + whole] = low_bits(last, on);
    }
}

// Appends n bits, all the same: those that end a byte begun, then bytes of their own.
pub fn push_same(bitmap: &mut [u8], at: usize, n: usize, on: bool)
    requires { bytes_for (at + n) ≤ length bitmap.old }
    ensures { bitmap.new ≡ push_bits bitmap.old at (replicate n on) }
{
    if at % 8 == 0 {
        push_bytes(bitmap, at / 8, n, on);
        return;
    }
    let gap = 8 - at % 8;
    if n <= gap {
        push_within(bitmap, at, n, on);
        return;
    }
    push_within(bitmap, at, gap, on);
    push_bytes(bitmap, at / 8 + 1, n - gap, on);
}

// ---- elements

// Writes the n elements from element a on, none of them null, from place at of the result on; gives the next place.
pub fn write_forward(
    elements: ValueColumn,
    a: usize,
    n: usize,
    out: &mut ValueOutput,
    at: usize,
) -> usize
    requires column { ReadableElems elements a n }
    requires room { RoomForElems (elems_in elements a n) at out.old }
    requires plain { length elements.bits.bytes.now ≡ 0 }
    ensures { Writes (elems_in elements.entry a n) at out.old out.new result }
{
    stores::copy_values(elements.values, a, n, out.values, at);
    push_same(out.bits, at, n, true);
    at + n
}

// Writes the n elements from element a on, none of them null, last first.
pub fn write_backward(
    elements: ValueColumn,
    a: usize,
    n: usize,
    out: &mut ValueOutput,
    at: usize,
) -> usize
    requires column { ReadableElems elements a n }
    requires room { RoomForElems (reverse (elems_in elements a n)) at out.old }
    requires plain { length elements.bits.bytes.now ≡ 0 }
    ensures { Writes (reverse (elems_in elements.entry a n)) at out.old out.new result }
{
    stores::copy_backward(elements.values, a, n, out.values, at);
    push_same(out.bits, at, n, true);
    at + n
}

// Writes a value n times; gives the next place.
pub fn write_value(v: i64, n: usize, out: &mut ValueOutput, at: usize) -> usize
    requires room { RoomForElems (replicate n (val v)) at out.old }
    ensures { Writes (replicate n (val v)) at out.old out.new result }
{
    stores::fill_values(v, n, out.values, at);
    push_same(out.bits, at, n, true);
    at + n
}

// Writes n nulls; gives the next place.
pub fn write_null(n: usize, out: &mut ValueOutput, at: usize) -> usize
    requires room { RoomForElems (replicate n nul) at out.old }
    ensures { Writes (replicate n nul) at out.old out.new result }
{
    stores::fill_values(elements::UNDER_NULL, n, out.values, at);
    push_same(out.bits, at, n, false);
    at + n
}
