// The slots of a table of a row's elements in a lent work area: from slot o on n heads, then n links. A head or a link is one more than
// the place of an element in its row, or 0. An inner crate: its callers meet what it asks.
#![tactic(auto)]

ghost use Rattle.bitmap.specs.Push.{Covers};
ghost use Rattle.bitmap.specs.Reads.{bits_in};
ghost use Rattle.column.specs.Columns.{elem_in};
ghost use Rattle.hash_slots.specs.Slots.{CleanFrom, entered, head_of};
ghost use Rattle.model.specs.Column.{val};
ghost use Rattle.std.specs.Prelude.{◌+◌, ◌<◌, ◌≤◌, length, replicate, ◌≡◌};

use column::elements::ValueColumn;

// A slot as a place.
pub fn wide(x: u32) -> usize
    ensures { result ≡ x }
{
    x as usize
}

// The head of a value among n heads: its two halves multiplied by odd numbers and summed, the sum's halves summed, and that scaled to n.
#[tactic(auto, unfolding(crate::specs::Slots::head_of))]
fn head_of_value(v: i64, n: usize) -> usize
    requires { n < 4294967296 }
    ensures { result ≡ head_of n (val v) }
{
    let x = v.cast_unsigned();
    let s = x % 4294967296 * 1640531527 + x / 4294967296 * 1327217885;
    let h = (s % 4294967296 + s / 4294967296) % 4294967296;
    (h as usize) * n / 4294967296
}

// The head of element i among n heads: a null's is the first, whatever number lies under it.
#[tactic(auto, using(column::proofs::RowLaws::elem_valid, column::proofs::RowLaws::elem_null), unfolding(crate::specs::Slots::head_of))]
pub fn head_of(elements: ValueColumn, i: usize, n: usize) -> usize
    requires there { i < length elements.values.now }
    requires bits { Covers (bits_in elements.bits) (length elements.values.now) }
    requires few { n < 4294967296 }
    ensures { result ≡ head_of n (elem_in elements.entry i) }
{
    if elements.bits.is_valid(i, elements.values.len()) {
        return head_of_value(elements.values[i], n);
    }
    0
}

// Enters element k at the head b: its link is what stood there.
pub fn link(area: &mut [u32], n: usize, o: usize, k: usize, b: usize)
    requires room { o + n + n ≤ length area.old }
    requires there { k < n }
    requires head { b < n }
    requires few { n < 4294967296 }
    ensures { area.new ≡ entered n o k b area.old }
{
    let h = o + b;
    area[o + n + k] = area[h];
    area[h] = (k + 1) as u32;
}

// Sets the slots of two tables, of n and of m elements, to 0: heads and links of both.
pub fn clear_tables(area: &mut [u32], n: usize, m: usize)
    requires room { n + n + m + m ≤ length area.old }
    requires rest { CleanFrom (n + n + m + m) area.old }
    ensures { CleanFrom 0 area.new }
{
    area[..n + n + m + m].fill(0);
}

// Sets all slots to 0, whatever they held.
pub fn clear_area(area: &mut [u32])
    ensures { area.new ≡ replicate (length area.old) 0 }
{
    area.fill(0);
}
