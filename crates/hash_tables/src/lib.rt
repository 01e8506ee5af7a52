// A table of the first occurrences of a row's elements, in the slots of a work area: each head begins a chain of elements, by their links.
// Chains go strictly down, so that a walk along one ends. An inner crate: its callers meet what it asks.
#![tactic(auto)]

ghost use Rattle.bitmap.specs.Push.{Covers};
ghost use Rattle.bitmap.specs.Reads.{bits_in};
ghost use Rattle.column.specs.Columns.{elem_in, elems_in};
ghost use Rattle.column.specs.Outputs.{ReadableElems};
ghost use Rattle.hash_tables.specs.Table.{Down, Table, Within, chained};
ghost use Rattle.model.specs.Elements.{is_in};
ghost use Rattle.std.specs.Prelude.{◌+◌, ◌<◌, ◌≤◌, length, not, ◌≡◌};

use column::elements::ValueColumn;

// The chains of the count elements of a column from one element on, whose table begins at a slot of a work area.
#[derive(Clone, Copy)]
struct Chains<'a> {
    column: ValueColumn<'a>,
    from: usize,
    count: usize,
    area: &'a [u32],
    slot: usize,
}

impl Chains<'_> {
    // Whether element i of a column is in the chain that begins at head. Made in its place: a call would copy chains and column for each
    // element.
    #[inline(always)]
    fn is_chained(self, elements: ValueColumn, i: usize, head: usize) -> bool
        requires there { i < length elements.values.now }
        requires bits { Covers (bits_in elements.bits) (length elements.values.now) }
        requires other { ReadableElems self.column self.from self.count }
        requires room { self.slot + self.count + self.count ≤ length self.area.now }
        requires down { Down self.count self.slot self.area.now }
        requires within { head ≤ self.count }
        ensures { result ≡ chained (elem_in self.entry.column) self.entry.from self.entry.count self.entry.slot self.entry.area.now (elem_in elements.entry i) head head }
    {
        // A chain is followed, and no range counted.
        let mut s = head;
        while let Some(j) = s.checked_sub(1) {
            if set_elements::same_elem(elements, i, self.column, self.from + j) {
                return true;
            }
            s = hash_slots::wide(self.area[self.slot + self.count + j]);
        }
        false
    }
}

// Whether element i of one column is among m elements of another, whose table begins at slot o. Made in its place, as is_chained.
#[inline(always)]
pub fn is_listed(
    elements: ValueColumn,
    i: usize,
    others: ValueColumn,
    b: usize,
    m: usize,
    area: &[u32],
    o: usize,
) -> bool
    requires there { i < length elements.values.now }
    requires bits { Covers (bits_in elements.bits) (length elements.values.now) }
    requires other { ReadableElems others b m }
    requires few { m < 4294967296 }
    requires table { Table (elem_in others) b m m o area.now }
    ensures { result ≡ is_in (elem_in elements.entry i) (elems_in others.entry b m) }
{
    if m == 0 {
        return false;
    }
    let h = hash_slots::head_of(elements, i, m);
    let s = hash_slots::wide(area[o + h]);
    let chains = Chains {
        column: others,
        from: b,
        count: m,
        area,
        slot: o,
    };
    chains.is_chained(elements, i, s)
}

// Whether element k of a row is none of the elements before it; it is entered then. Made in its place, as is_chained.
#[inline(always)]
pub fn enter(
    elements: ValueColumn,
    a: usize,
    n: usize,
    k: usize,
    area: &mut [u32],
    o: usize,
) -> bool
    requires row { ReadableElems elements a n }
    requires there { k < n }
    requires few { n < 4294967296 }
    requires table { Table (elem_in elements) a n k o area.old }
    ensures value { result ≡ not (is_in (elem_in elements.entry (a + k)) (elems_in elements.entry a k)) }
    ensures table_2 { Table (elem_in elements.entry) a n (k + 1) o area.new }
    ensures within { Within o (o + n + n) area.old area.new }
{
    let i = a + k;
    let b = hash_slots::head_of(elements, i, n);
    let s = hash_slots::wide(area[o + b]);
    let chains = Chains {
        column: elements,
        from: a,
        count: n,
        area,
        slot: o,
    };
    if chains.is_chained(elements, i, s) {
        return false;
    }
    hash_slots::link(area, n, o, k, b);
    true
}
