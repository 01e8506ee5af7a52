// Columns whose numbers lie as bytes, and the same decoded: the numbers stand at the fronts of arrays, which may be longer.
ghost use Rattle.std.specs.Prelude.{◌/◌, ◌≤◌, length, take, ◌≡◌};
ghost use Rattle.column.specs.Columns.{column_in, values_in as column_values};
ghost use Rattle.entry.specs.Decoded.{decoded_in, decoded_values_in};
ghost use Rattle.entry.specs.Inner.{ListFits, ListRead};
ghost use Rattle.wire.specs.Bytes.{ints8};

use crate::sizes::{offsets_in, values_in};
use bitmap::Validity;
use column::elements::ValueColumn;
use column::lists::ListColumn;
use wire::fill;

// A list column: four bytes an offset and eight a value.
#[derive(Clone, Copy)]
pub struct ListBytes<'a> {
    pub offsets: &'a [u8],
    pub rows: Validity<'a>,
    pub values: &'a [u8],
    pub elements: Validity<'a>,
}

// An argument column.
#[derive(Clone, Copy)]
pub struct ValueBytes<'a> {
    pub values: &'a [u8],
    pub bits: Validity<'a>,
}

impl<'a> ListBytes<'a> {
    // Decodes the offsets and the values.
    pub fn decode(self, offsets: &mut [i32], values: &mut [i64])
        requires { ListFits (length self.offsets.now) (length self.values.now) (length offsets.old) (length values.old) }
        ensures { ListRead self.entry.offsets.now self.entry.values.now offsets.new values.new }
    {
        fill(self.offsets, offsets);
        fill(self.values, values);
    }

    // The column, its numbers at the fronts of these.
    pub fn column(self, offsets: &'a [i32], values: &'a [i64]) -> ListColumn<'a, i32>
        requires fits { ListFits (length self.offsets.now) (length self.values.now) (length offsets.now) (length values.now) }
        requires read { ListRead self.offsets.now self.values.now offsets.now values.now }
        ensures { column_in (λ l. l) result ≡ decoded_in self.entry }
    {
        ListColumn {
            offsets: &offsets[..offsets_in(self.offsets.len())],
            rows: self.rows,
            elements: ValueColumn {
                values: &values[..values_in(self.values.len())],
                bits: self.elements,
            },
        }
    }
}

impl<'a> ValueBytes<'a> {
    // Decodes the values.
    pub fn decode(self, values: &mut [i64])
        requires { length self.values.now / 8 ≤ length values.old }
        ensures { take (length self.entry.values.now / 8) values.new ≡ ints8 self.entry.values.now }
    {
        fill(self.values, values);
    }

    // The column, its values at the front of these.
    pub fn column(self, values: &'a [i64]) -> ValueColumn<'a>
        requires fits { length self.values.now / 8 ≤ length values.now }
        requires read { take (length self.values.now / 8) values.now ≡ ints8 self.values.now }
        ensures { column_values result ≡ decoded_values_in self.entry }
    {
        ValueColumn {
            values: &values[..values_in(self.values.len())],
            bits: self.bits,
        }
    }
}
