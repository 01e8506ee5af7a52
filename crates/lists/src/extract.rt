// Taking out of rows: one element, the first valid one, a slice, or all but the first or the last.
// After extract.rs of datafusion-functions-nested 55.2.0, Apache License 2.0, Apache Software Foundation; changed, see NOTICE.
ghost use Rattle.column.specs.Columns.{column_in, lent_in, values_in};
ghost use Rattle.column.specs.Outputs.{ListAnswers, ValueAnswers};
ghost use Rattle.model.specs.Asked.{asked_list, asked_values};
ghost use Rattle.model.specs.Lengths.{any_value_lengths, element_lengths, list_lengths};
ghost use Rattle.model.specs.Outcome.{any_value_outcome, element_outcome, list_outcome};
ghost use Rattle.model.specs.Rows.{slice, unary};
ghost use Rattle.std.specs.Prelude.{◌≡◌};

use crate::plain;
use column::elements::{ValueColumn, ValueOutput};
use column::lists::{ListColumn, ListOutput};
use model::offsets::Offset;
use model::{ListAnswer, ListLengths, Unary, ValueAnswer, ValueLengths};
use ops::ListOp;

// The first valid element of each row.
pub fn general_array_any_value<O: Offset>(list: ListColumn<O>, out: &mut ValueOutput) -> ValueAnswer
    ensures { ValueAnswers (any_value_outcome (column_in O.numbers list.entry)) result out.old out.new }
{
    value_run::any_value(list, out)
}

// One value for each row, whatever the rows hold.
pub fn general_array_any_value_lengths<O: Offset>(list: ListColumn<O>) -> ValueLengths
    ensures { asked_values result ≡ any_value_lengths (column_in O.numbers list.entry) }
{
    value_run::any_value_lengths(list)
}

// The element of each row that its index names.
pub fn general_array_element<O: Offset>(
    list: ListColumn<O>,
    indexes: ValueColumn,
    out: &mut ValueOutput,
) -> ValueAnswer
    ensures { ValueAnswers (element_outcome O.LIMITS (column_in O.numbers list.entry) (values_in indexes.entry)) result out.old out.new }
{
    value_run::element(list, indexes, out)
}

// Again one value for each row; the indexes are looked at for the refusals alone.
pub fn general_array_element_lengths<O: Offset>(
    list: ListColumn<O>,
    indexes: ValueColumn,
) -> ValueLengths
    ensures { asked_values result ≡ element_lengths O.LIMITS (column_in O.numbers list.entry) (values_in indexes.entry) }
{
    value_run::element_lengths(list, indexes)
}

// The part of each row between two bounds, by a stride; without one, by 1.
#[tactic(auto, unfolding(column::specs::Columns::lent_in, ops::specs::Ops::call_of))]
pub fn general_array_slice<O: Offset>(
    list: ListColumn<O>,
    from_array: ValueColumn,
    to_array: ValueColumn,
    stride: Option<ValueColumn>,
    out: &mut ListOutput<O>,
) -> ListAnswer
    ensures { ListAnswers O.numbers (list_outcome O.LIMITS (slice (column_in O.numbers list.entry) (values_in from_array.entry) (values_in to_array.entry) (lent_in stride.entry))) result out.old out.new }
{
    match stride {
        None => list_walk::run(ListOp::Slice, list, from_array, to_array, to_array, out),
        Some(by) => list_walk::run(ListOp::SliceBy, list, from_array, to_array, by, out),
    }
}

#[tactic(auto, unfolding(column::specs::Columns::lent_in, ops::specs::Ops::call_of))]
pub fn general_array_slice_lengths<O: Offset>(
    list: ListColumn<O>,
    from_array: ValueColumn,
    to_array: ValueColumn,
    stride: Option<ValueColumn>,
) -> ListLengths
    ensures { asked_list result ≡ list_lengths O.LIMITS (slice (column_in O.numbers list.entry) (values_in from_array.entry) (values_in to_array.entry) (lent_in stride.entry)) }
{
    match stride {
        None => list_walk::lengths(ListOp::Slice, list, from_array, to_array, to_array),
        Some(by) => list_walk::lengths(ListOp::SliceBy, list, from_array, to_array, by),
    }
}

// Each row without its first element.
pub fn general_pop_front_list<O: Offset>(list: ListColumn<O>, out: &mut ListOutput<O>) -> ListAnswer
    ensures { ListAnswers O.numbers (list_outcome O.LIMITS (unary Unary.PopFront (column_in O.numbers list.entry))) result out.old out.new }
{
    plain::run(Unary::PopFront, list, out)
}

pub fn general_pop_front_list_lengths<O: Offset>(list: ListColumn<O>) -> ListLengths
    ensures { asked_list result ≡ list_lengths O.LIMITS (unary Unary.PopFront (column_in O.numbers list.entry)) }
{
    plain::lengths(Unary::PopFront, list)
}

// Each row without its last element.
pub fn general_pop_back_list<O: Offset>(list: ListColumn<O>, out: &mut ListOutput<O>) -> ListAnswer
    ensures { ListAnswers O.numbers (list_outcome O.LIMITS (unary Unary.PopBack (column_in O.numbers list.entry))) result out.old out.new }
{
    plain::run(Unary::PopBack, list, out)
}

pub fn general_pop_back_list_lengths<O: Offset>(list: ListColumn<O>) -> ListLengths
    ensures { asked_list result ≡ list_lengths O.LIMITS (unary Unary.PopBack (column_in O.numbers list.entry)) }
{
    plain::lengths(Unary::PopBack, list)
}
