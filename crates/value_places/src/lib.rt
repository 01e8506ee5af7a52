// The operations that make one value a row, any-value and element: where the value of a row stands, and what refuses element before its
// values are written. An inner crate: its callers meet what it asks.
// After extract.rs of datafusion-functions-nested 55.2.0, Apache License 2.0, Apache Software Foundation; changed, see NOTICE.
#![tactic(auto)]

mod extract;

ghost use Rattle.bitmap.specs.Push.{Covers};
ghost use Rattle.bitmap.specs.Reads.{bits_in};
ghost use Rattle.column.specs.Columns.{values_in, elem_in, column_in};
ghost use Rattle.column.specs.Outputs.{ReadableElems};
ghost use Rattle.model.specs.Answers.{refused_by};
ghost use Rattle.model.specs.Basics.{tab};
ghost use Rattle.model.specs.Refusals.{first_of};
ghost use Rattle.std.specs.Prelude.{◌+◌, ◌≤◌, length, ◌≡◌};
ghost use Rattle.value_places.specs.Found.{four_at};
ghost use Rattle.value_places.specs.Values.{ElementChecked, IndexedAt, PlaceOf};

use bitmap::Validity;
use column::elements::ValueColumn;
use column::lists::ListColumn;
use model::Refusal;
use model::offsets::Offset;

// The operations that make one value a row.
#[derive(Clone, Copy)]
pub enum ValueOp<'a> {
    AnyValue,
    // By the row's index.
    Element(ValueColumn<'a>),
}

// Where the value stands that is made of the k elements of row r from element a on, or the end.
#[tactic(auto, unfolding(crate::specs::Values::IndexedAt, crate::specs::Values::PlaceOf))]
pub fn place_of<O: Offset>(
    op: ValueOp,
    elements: ValueColumn,
    r: usize,
    a: usize,
    k: usize,
) -> usize
    requires column { ReadableElems elements a k }
    requires indexed { IndexedAt op r }
    requires small { a + k ≤ O.LIMITS.offset }
    ensures { PlaceOf O.LIMITS op.entry (elem_in elements.entry) r a k result }
{
    match op {
        ValueOp::AnyValue => extract::first_valid(elements, a, k),
        ValueOp::Element(indexes) => extract::element_place::<O>(indexes, r, a, k),
    }
}

// An index of a valid row that does not fit.
fn index_refusal<O: Offset>(rows: Validity, indexes: ValueColumn) -> Result<(), Refusal>
    requires covers { Covers (bits_in rows) (length indexes.values.now) }
    requires covers_2 { Covers (bits_in indexes.bits) (length indexes.values.now) }
    ensures { refused_by result ≡ first_of (tab (four_at O.LIMITS (bits_in rows.entry) (values_in indexes.entry)) 0 (length indexes.entry.values.now)) }
{
    for r in 0..indexes.values.len() {
        if extract::is_unfit::<O>(rows, indexes, r) {
            return Err(Refusal::WideIndex);
        }
    }
    Ok(())
}

// What refuses element but for a short output. Where every index fits, none is looked at.
pub fn element_refusal<O: Offset>(list: ListColumn<O>, indexes: ValueColumn) -> Result<(), Refusal>
    ensures { ElementChecked O.LIMITS (column_in O.numbers list.entry) indexes.entry (refused_by result) }
{
    if indexes.bits.is_start_over() {
        return Err(Refusal::BadStartingBit);
    }
    checks::list_refusal(list)?;
    if indexes.bits.is_short(indexes.values.len()) {
        return Err(Refusal::ShortBitmap);
    }
    if indexes.values.len() != list.row_count() {
        return Err(Refusal::RowCountsDiffer);
    }
    if O::LIMITS.every {
        return Ok(());
    }
    index_refusal::<O>(list.rows, indexes)
}
