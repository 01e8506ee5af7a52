// Any-value and element, at either width. An inner crate: it asks nothing of its callers.
// After extract.rs of datafusion-functions-nested 55.2.0, Apache License 2.0, Apache Software Foundation; changed, see NOTICE.
#![tactic(auto)]

ghost use Rattle.column.specs.Columns.{values_in, column_in};
ghost use Rattle.column.specs.Outputs.{ValueAnswers};
ghost use Rattle.model.specs.Asked.{asked_values};
ghost use Rattle.model.specs.Lengths.{any_value_lengths, element_lengths};
ghost use Rattle.model.specs.Outcome.{any_value_outcome, element_outcome};
ghost use Rattle.std.specs.Prelude.{◌≡◌};

use column::elements::{ValueColumn, ValueOutput};
use column::lists::ListColumn;
use model::offsets::Offset;
use model::{ValueAnswer, ValueLengths};
use value_places::ValueOp;

// The first valid element of each row.
pub fn any_value<O: Offset>(list: ListColumn<O>, out: &mut ValueOutput) -> ValueAnswer
    ensures { ValueAnswers (any_value_outcome (column_in O.numbers list.entry)) result out.old out.new }
{
    checks::list_refusal(list)?;
    value_walk::write_fitting(ValueOp::AnyValue, list, out)
}

// One value for each row, whatever the rows hold.
pub fn any_value_lengths<O: Offset>(list: ListColumn<O>) -> ValueLengths
    ensures { asked_values result ≡ any_value_lengths (column_in O.numbers list.entry) }
{
    checks::list_refusal(list)?;
    checks::value_lengths_for(list.row_count())
}

// The element of each row that its index names.
pub fn element<O: Offset>(
    list: ListColumn<O>,
    indexes: ValueColumn,
    out: &mut ValueOutput,
) -> ValueAnswer
    ensures { ValueAnswers (element_outcome O.LIMITS (column_in O.numbers list.entry) (values_in indexes.entry)) result out.old out.new }
{
    value_places::element_refusal(list, indexes)?;
    value_walk::write_fitting(ValueOp::Element(indexes), list, out)
}

// Again one value for each row; the indexes are looked at for the refusals alone.
pub fn element_lengths<O: Offset>(list: ListColumn<O>, indexes: ValueColumn) -> ValueLengths
    ensures { asked_values result ≡ element_lengths O.LIMITS (column_in O.numbers list.entry) (values_in indexes.entry) }
{
    value_places::element_refusal(list, indexes)?;
    checks::value_lengths_for(list.row_count())
}
