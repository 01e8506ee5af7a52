// Resize: each row cut, or filled up to its count.
// After resize.rs of datafusion-functions-nested 55.2.0, Apache License 2.0, Apache Software Foundation; changed, see NOTICE.
ghost use Rattle.column.specs.Columns.{column_in, lent_in, values_in};
ghost use Rattle.column.specs.Outputs.{ListAnswers};
ghost use Rattle.model.specs.Asked.{asked_list};
ghost use Rattle.model.specs.Lengths.{list_lengths};
ghost use Rattle.model.specs.Outcome.{list_outcome};
ghost use Rattle.model.specs.Rows.{resize};
ghost use Rattle.std.specs.Prelude.{◌≡◌};

use column::elements::ValueColumn;
use column::lists::{ListColumn, ListOutput};
use model::offsets::Offset;
use model::{ListAnswer, ListLengths};
use ops::ListOp;

// Each row cut, or filled, to its count; without default elements, it is filled with nulls.
#[tactic(auto, unfolding(column::specs::Columns::lent_in, ops::specs::Ops::call_of))]
pub fn general_list_resize<O: Offset>(
    list: ListColumn<O>,
    count_array: ValueColumn,
    default_elements: Option<ValueColumn>,
    out: &mut ListOutput<O>,
) -> ListAnswer
    ensures { ListAnswers O.numbers (list_outcome O.LIMITS (resize (column_in O.numbers list.entry) (values_in count_array.entry) (lent_in default_elements.entry))) result out.old out.new }
{
    match default_elements {
        None => list_walk::run(
            ListOp::Resize,
            list,
            count_array,
            count_array,
            count_array,
            out,
        ),
        Some(fill) => list_walk::run(ListOp::ResizeWith, list, count_array, fill, fill, out),
    }
}

#[tactic(auto, unfolding(column::specs::Columns::lent_in, ops::specs::Ops::call_of))]
pub fn general_list_resize_lengths<O: Offset>(
    list: ListColumn<O>,
    count_array: ValueColumn,
    default_elements: Option<ValueColumn>,
) -> ListLengths
    ensures { asked_list result ≡ list_lengths O.LIMITS (resize (column_in O.numbers list.entry) (values_in count_array.entry) (lent_in default_elements.entry)) }
{
    match default_elements {
        None => list_walk::lengths(ListOp::Resize, list, count_array, count_array, count_array),
        Some(fill) => list_walk::lengths(ListOp::ResizeWith, list, count_array, fill, fill),
    }
}
