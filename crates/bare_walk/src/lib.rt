// Reverse and the pops of a list for which no bitmap is lent: no row and no element is null, so that the walk writes offsets and values alone,
// and all bits are set after it. An inner crate: its callers meet what it asks.
#![tactic(auto)]

ghost use Rattle.std.specs.Prelude.{◌+◌, ◌≤◌, length, false, true, ◌≡◌};
ghost use Rattle.bare_walk.specs.Bare.{WritesBare, WritesForm, bare_elems, bare_rows, copies, is_bare};
ghost use Rattle.column.specs.Outputs.{Fills, RoomFor};
ghost use Rattle.model.specs.Column.{bad_offsets, row_count};
ghost use Rattle.model.specs.Elements.{unary_elems};
ghost use Rattle.model.specs.Form.{flat};

use column::lists::{ListColumn, ListOutput};
use column::offsets;
use model::Unary;
use model::offsets::Offset;
use rows::utils;

// Whether the operation takes a row's elements by their places alone: distinct compares them.
#[tactic(auto, unfolding(crate::specs::Bare::copies))]
fn takes_by_place(op: Unary) -> bool
    ensures { result ≡ copies op }
{
    match op {
        Unary::Reverse => true,
        Unary::Distinct => false,
        Unary::PopFront => true,
        Unary::PopBack => true,
    }
}

// Whether write_rows can be called: the column has no bitmap, and the operation is not distinct.
#[tactic(auto, unfolding(crate::specs::Bare::is_bare))]
pub fn is_bare<O: Offset>(op: Unary, list: ListColumn<O>) -> bool
    ensures { result ≡ is_bare op list.entry.rows.bytes.now list.entry.elements.bits.bytes.now }
{
    list.rows.bytes.is_empty() && list.elements.bits.bytes.is_empty() && takes_by_place(op)
}

// Writes the values that the operation makes of the n values from value a on, from place at on; gives the next place.
fn put_values(op: Unary, values: &[i64], a: usize, n: usize, out: &mut [i64], at: usize) -> usize
    requires copied { copies op ≡ true }
    requires inside { a + n ≤ length values.now }
    requires room { at + length (unary_elems op (bare_elems values.now a n)) ≤ length out.old }
    ensures { WritesBare (unary_elems op (bare_elems values.now a n)) at out.old out.new result }
{
    let k = utils::one_less(n);
    match op {
        Unary::Reverse => {
            stores::copy_backward(values, a, n, out, at);
            at + n
        }
        Unary::Distinct => at,
        Unary::PopFront => {
            stores::copy_values(values, a + (n - k), k, out, at);
            at + k
        }
        Unary::PopBack => {
            stores::copy_values(values, a, k, out, at);
            at + k
        }
    }
}

// Writes the offsets and the values of the rows that the operation makes; gives the number of elements.
fn write_bare<O: Offset>(op: Unary, list: ListColumn<O>, out: &mut ListOutput<O>) -> usize
    requires copied { copies op ≡ true }
    requires column { bad_offsets (O.numbers list.offsets.now) (length list.elements.values.now) ≡ false }
    requires small { length (flat (bare_rows op (O.numbers list.offsets.now) list.elements.values.now)) ≤ O.LIMITS.offset }
    requires room { row_count (O.numbers list.offsets.now) + 1 ≤ length out.old.offsets.now }
    requires places { length (flat (bare_rows op (O.numbers list.offsets.now) list.elements.values.now)) ≤ length out.old.elements.now.values.now }
    ensures { WritesForm O.numbers (bare_rows op (O.numbers list.entry.offsets.now) list.entry.elements.values.now) out.old out.new result }
{
    let n = list.row_count();
    offsets::put_offset(out.offsets, 0, 0);
    let mut a = list.first_offset();
    let mut at: usize = 0;
    for r in 0..n {
        let b = list.offset_at(r + 1);
        let len = b - a;
        let written = &mut *out.elements;
        at = put_values(op, list.elements.values, a, len, written.values, at);
        offsets::put_offset(out.offsets, r + 1, at);
        a = b;
    }
    at
}

// Writes the rows that the operation makes, in result form.
pub fn write_rows<O: Offset>(op: Unary, list: ListColumn<O>, out: &mut ListOutput<O>)
    requires copied { copies op ≡ true }
    requires column { bad_offsets (O.numbers list.offsets.now) (length list.elements.values.now) ≡ false }
    requires small { length (flat (bare_rows op (O.numbers list.offsets.now) list.elements.values.now)) ≤ O.LIMITS.offset }
    requires room { RoomFor (row_count (O.numbers list.offsets.now)) (length (flat (bare_rows op (O.numbers list.offsets.now) list.elements.values.now))) out.old }
    ensures { Fills O.numbers (bare_rows op (O.numbers list.entry.offsets.now) list.entry.elements.values.now) out.old out.new }
{
    let n = list.row_count();
    let m = write_bare(op, list, out);
    runs::push_same(out.rows, 0, n, true);
    let written = &mut *out.elements;
    runs::push_same(written.bits, 0, m, true);
}
