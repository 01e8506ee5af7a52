// ListView columns and the slices that one is written into: what refuses a view, how many elements it copies, and what an export needs. An
// inner crate: its callers meet what it asks.
#![tactic(auto)]

ghost use Rattle.model.specs.Answers.{refused_by};
ghost use Rattle.model.specs.Basics.{pick};
ghost use Rattle.model.specs.Limits.{narrow};
ghost use Rattle.model.specs.View.{fits_view, refusal11, view_outside, view_refusal, view_rows};
ghost use Rattle.std.specs.Prelude.{◌<◌, length, ◌≡◌};
ghost use Rattle.view_checks.specs.Views.{ReadableView, counted_within, view_in, view_room_in};

use bitmap::Validity;
use column::elements::{ValueColumn, ValueOutput};
use column::offsets;
use model::Refusal;

// A ListView column: row r has so many elements as its size, from its offset on.
#[derive(Clone, Copy)]
pub struct ViewColumn<'a> {
    pub offsets: &'a [i32],
    pub sizes: &'a [i32],
    pub rows: Validity<'a>,
    pub elements: ValueColumn<'a>,
}

// The slices that a ListView column is written into.
#[derive(Drop)]
pub struct ViewOutput<'a, 'b> {
    pub offsets: &'a mut [i32],
    pub sizes: &'a mut [i32],
    pub rows: &'a mut [u8],
    pub elements: &'a mut ValueOutput<'b>,
}

impl ViewColumn<'_> {
    // Whether the view of row r lies outside the values: where its sum is within them, so are its offset and its size.
    fn is_outside(self, r: usize) -> bool
        requires r_in_bounds { r < length self.offsets.now }
        requires r_in_bounds_2 { r < length self.sizes.now }
        ensures { result ≡ view_outside (view_in self.entry) r }
    {
        if self.offsets[r] < 0 || self.sizes[r] < 0 {
            return true;
        }
        let a = offsets::offset_at(self.offsets, r);
        let size = offsets::offset_at(self.sizes, r);
        self.elements.values.len() < a + size
    }

    // Whether a view lies outside the values, one of a null row too.
    fn has_outside(self) -> bool
        requires { length self.sizes.now ≡ length self.offsets.now }
        ensures { result ≡ refusal11 (view_in self.entry) }
    {
        for r in 0..self.offsets.len() {
            if self.is_outside(r) {
                return true;
            }
        }
        false
    }

    // What refuses the view.
    pub fn refusal(self) -> Result<(), Refusal>
        ensures { refused_by result ≡ view_refusal (view_in self.entry) }
    {
        if self.rows.is_start_over() || self.elements.bits.is_start_over() {
            return Err(Refusal::BadStartingBit);
        }
        if self.rows.is_short(self.offsets.len()) {
            return Err(Refusal::ShortBitmap);
        }
        if self.elements.bits.is_short(self.elements.values.len()) {
            return Err(Refusal::ShortBitmap);
        }
        if self.sizes.len() != self.offsets.len() {
            return Err(Refusal::RowCountsDiffer);
        }
        if self.has_outside() {
            return Err(Refusal::ViewOutside);
        }
        Ok(())
    }

    // The number of elements that the view copies, none of a null row; None where there are more than an offset can count.
    pub fn measure(self) -> Option<usize>
        requires { ReadableView (view_in self) }
        ensures { result ≡ counted_within narrow.offset (view_rows (view_in self.entry)) }
    {
        let n = self.offsets.len();
        let mut found = 0;
        for r in 0..n {
            let size = offsets::offset_at(self.sizes, r);
            found += column::rows::row_len(self.rows, n, r, 0, size);
            if 2147483647 < found {
                return None;
            }
        }
        Some(found)
    }
}

impl ViewOutput<'_, '_> {
    // Whether n rows and m elements, as a view, fit.
    pub fn has_room(&self, n: usize, m: usize) -> bool
        ensures { result ≡ fits_view n m (view_room_in self.now) }
    {
        n <= self.offsets.len()
            && n <= self.sizes.len()
            && bitmap::bytes_for(n) <= self.rows.len()
            && m <= self.elements.values.len()
            && bitmap::bytes_for(m) <= self.elements.bits.len()
    }
}

// The offset of a row that begins at a place: 0 of a null row.
pub fn offset_of(valid: bool, at: usize) -> usize
    ensures { result ≡ pick valid at 0 }
{
    if valid { at } else { 0 }
}
