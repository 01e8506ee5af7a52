// Finding one element of a row.
// After extract.rs of datafusion-functions-nested 55.2.0, Apache License 2.0, Apache Software Foundation; changed, see NOTICE.
ghost use Rattle.bitmap.specs.Push.{Covers};
ghost use Rattle.bitmap.specs.Reads.{bits_in};
ghost use Rattle.column.specs.Columns.{elem_in, values_in};
ghost use Rattle.column.specs.Outputs.{ReadableElems};
ghost use Rattle.index.specs.Place.{index_bound, place_or};
ghost use Rattle.std.specs.Prelude.{◌<◌, ◌≤◌, length, ◌≡◌};
ghost use Rattle.value_places.specs.Found.{FirstAt, element_place, unfit_at};
ghost use Rattle.value_places.specs.Values.{IndexAt};

use bitmap::Validity;
use column::elements::ValueColumn;
use model::offsets::Offset;

// Where the first valid one of the n elements from element a on stands, or the end.
pub(crate) fn first_valid(elements: ValueColumn, a: usize, n: usize) -> usize
    requires column { ReadableElems elements a n }
    ensures { FirstAt (elem_in elements.entry) a n result }
{
    let end = a + n;
    for p in a..end {
        if elements.bits.is_valid(p, elements.values.len()) {
            return p;
        }
    }
    end
}

// Whether list and index of row r are valid and the index does not fit.
#[tactic(auto, unfolding(crate::specs::Found::unfit_at))]
pub(crate) fn is_unfit<O: Offset>(rows: Validity, indexes: ValueColumn, r: usize) -> bool
    requires covers { Covers (bits_in rows) (length indexes.values.now) }
    requires index { IndexAt (values_in indexes) r }
    ensures { result ≡ unfit_at O.LIMITS (bits_in rows.entry) (values_in indexes.entry) r }
{
    let n = indexes.values.len();
    rows.is_valid(r, n)
        && indexes.bits.is_valid(r, n)
        && O::from_number(indexes.values[r]).is_none()
}

// Where an index points in a row of len elements, or len.
fn index_bound<O: Offset>(index: i64, len: usize) -> usize
    requires { len ≤ O.LIMITS.offset }
    ensures { result ≡ place_or (index_bound O.LIMITS len index) len }
{
    index::adjusted_array_index::<O>(index, len).unwrap_or(len)
}

// Where the index of row r points among the k elements from element a on, or the end.
pub(crate) fn element_place<O: Offset>(indexes: ValueColumn, r: usize, a: usize, k: usize) -> usize
    requires index { IndexAt (values_in indexes) r }
    requires a_bound { a ≤ O.LIMITS.offset }
    requires k_bound { k ≤ O.LIMITS.offset }
    ensures { result ≡ element_place O.LIMITS (elem_in indexes.entry r) a k }
{
    if !indexes.bits.is_valid(r, indexes.values.len()) {
        return a + k;
    }
    a + index_bound::<O>(indexes.values[r], k)
}
