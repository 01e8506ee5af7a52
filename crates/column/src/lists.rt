// List columns with offsets of either width, and the outputs of a list operation.
ghost use Rattle.std.specs.Prelude.{◌<◌, ◌≤◌, length, ◌≡◌};
ghost use Rattle.column.specs.Columns.{column_in};
ghost use Rattle.column.specs.Outputs.{fits_counts, repeat_room_in, room_in};
ghost use Rattle.model.specs.Column.{offset_at, refusal1, row_count};
ghost use Rattle.model.specs.Form.{fits_in};

use crate::elements::{ValueColumn, ValueOutput};
use crate::offsets;
use bitmap::Validity;
use model::offsets::Offset;

// A list column: row r has the elements from offset r up to, not including, offset r + 1.
#[derive(Clone, Copy)]
pub struct ListColumn<'a, O> {
    pub offsets: &'a [O],
    pub rows: Validity<'a>,
    pub elements: ValueColumn<'a>,
}

// The slices that a list column is written into.
#[derive(Drop)]
pub struct ListOutput<'a, 'b, O> {
    pub offsets: &'a mut [O],
    pub rows: &'a mut [u8],
    pub elements: &'a mut ValueOutput<'b>,
}

// The slices that the outer rows of lists of lists are written into; the lists are an output of their own.
#[derive(Drop)]
pub struct OuterOutput<'a, O> {
    pub offsets: &'a mut [O],
    pub rows: &'a mut [u8],
}

impl<O: Offset> ListColumn<'_, O> {
    // The number of rows.
    pub fn row_count(self) -> usize
        ensures { result ≡ row_count (column_in O.numbers self.entry).offsets }
    {
        offsets::row_count(self.offsets)
    }

    // The first offset as a count; 0 where there is none.
    pub fn first_offset(self) -> usize
        ensures { result ≡ offset_at (column_in O.numbers self.entry).offsets 0 }
    {
        offsets::first_offset(self.offsets)
    }

    // The offset at i as a count; 0 where it is negative.
    pub fn offset_at(self, i: usize) -> usize
        requires { i < length self.offsets.now }
        ensures value { result ≡ offset_at (column_in O.numbers self.entry).offsets i }
        ensures upper_bound { result ≤ O.LIMITS.offset }
    {
        offsets::offset_at(self.offsets, i)
    }

    // Whether the first offset is negative, one falls, or the last lies beyond the values.
    pub fn has_bad_offsets(self) -> bool
        ensures { result ≡ refusal1 (column_in O.numbers self.entry) }
    {
        offsets::are_bad(self.offsets, self.elements.values.len())
    }
}

impl<O: Offset> ListOutput<'_, '_, O> {
    // Whether the result form of n rows and m elements fits.
    pub fn has_room(&self, n: usize, m: usize) -> bool
        ensures { result ≡ fits_in n m (room_in self.now) }
    {
        n < self.offsets.len()
            && bitmap::bytes_for(n) <= self.rows.len()
            && m <= self.elements.values.len()
            && bitmap::bytes_for(m) <= self.elements.bits.len()
    }
}

impl<O: Offset> OuterOutput<'_, O> {
    // Whether the result form of n outer rows fits, and that of so many lists and m elements.
    pub fn has_room(&self, lists: &ListOutput<O>, n: usize, inner: usize, m: usize) -> bool
        ensures { result ≡ fits_counts n inner m (repeat_room_in self.now lists.now) }
    {
        self.offsets.len() > n
            && bitmap::bytes_for(n) <= self.rows.len()
            && lists.has_room(inner, m)
    }
}
