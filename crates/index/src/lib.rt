// Where a 64-bit index points in a row, by signed arithmetic of the offsets' own width. An inner crate, for the operations above it; it asks nothing of them.
// After extract.rs of datafusion-functions-nested 55.2.0, Apache License 2.0, Apache Software Foundation; changed, see NOTICE.
#![tactic(auto)]

pub mod slice;

ghost use Rattle.std.specs.Prelude.{◌≤◌, ◌≡◌};
ghost use Rattle.index.specs.Place.{index_bound, index_place, place_in, place_of};
ghost use Rattle.index.specs.Plan.{IsLength};
ghost use Rattle.model.specs.Column.{count};
ghost use Rattle.model.specs.Limits.{InRange};

use model::offsets::Offset;

// The place of an index, below 0 or at least len where it is outside the row.
#[tactic(auto, unfolding(model::specs::Column::count, model::specs::Slice::in_row, crate::specs::Place::index_place, crate::specs::Place::place_in))]
fn index_place<O: Offset>(index: O, len: O) -> O
    requires index { InRange O.LIMITS (O.number index) }
    requires len { IsLength O.LIMITS (O.number len) }
    ensures { place_in (count (O.number len)) (O.number result) ≡ index_place (count (O.number len)) (O.number index) }
{
    if index < O::ZERO {
        return index + len;
    }
    index - O::ONE
}

// The place that an index points at, 1 the first and -1 the last; none where it is outside the row or does not fit.
#[tactic(auto, unfolding(model::specs::Column::count, model::specs::Slice::in_row, crate::specs::Place::index_bound, crate::specs::Place::place_in, crate::specs::Place::place_of))]
pub fn adjusted_array_index<O: Offset>(index: i64, len: usize) -> Option<usize>
    requires { len ≤ O.LIMITS.offset }
    ensures { result ≡ place_of (index_bound O.LIMITS len index) }
{
    let index = O::from_number(index)?;
    let len = O::from_count(len);
    let at = index_place(index, len);
    if at < O::ZERO {
        return None;
    }
    if at < len {
        return Some(at.to_number() as usize);
    }
    None
}
