// Replace: the first matches of each row become another value.
// After replace.rs of datafusion-functions-nested 55.2.0, Apache License 2.0, Apache Software Foundation; changed, see NOTICE.
ghost use Rattle.column.specs.Columns.{column_in, values_in};
ghost use Rattle.column.specs.Outputs.{ListAnswers};
ghost use Rattle.model.specs.Asked.{asked_list};
ghost use Rattle.model.specs.Lengths.{list_lengths};
ghost use Rattle.model.specs.Outcome.{list_outcome};
ghost use Rattle.model.specs.Rows.{replace};
ghost use Rattle.std.specs.Prelude.{◌≡◌};

use column::elements::ValueColumn;
use column::lists::{ListColumn, ListOutput};
use model::offsets::Offset;
use model::{ListAnswer, ListLengths};
use ops::ListOp;

#[tactic(auto, unfolding(ops::specs::Ops::call_of))]
pub fn general_replace<O: Offset>(
    list: ListColumn<O>,
    from_array: ValueColumn,
    to_array: ValueColumn,
    arr_n: ValueColumn,
    out: &mut ListOutput<O>,
) -> ListAnswer
    ensures { ListAnswers O.numbers (list_outcome O.LIMITS (replace (column_in O.numbers list.entry) (values_in from_array.entry) (values_in to_array.entry) (values_in arr_n.entry))) result out.old out.new }
{
    list_walk::run(ListOp::Replace, list, from_array, to_array, arr_n, out)
}

#[tactic(auto, unfolding(ops::specs::Ops::call_of))]
pub fn general_replace_lengths<O: Offset>(
    list: ListColumn<O>,
    from_array: ValueColumn,
    to_array: ValueColumn,
    arr_n: ValueColumn,
) -> ListLengths
    ensures { asked_list result ≡ list_lengths O.LIMITS (replace (column_in O.numbers list.entry) (values_in from_array.entry) (values_in to_array.entry) (values_in arr_n.entry)) }
{
    list_walk::lengths(ListOp::Replace, list, from_array, to_array, arr_n)
}
