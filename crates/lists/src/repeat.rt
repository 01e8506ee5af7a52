// List-repeat: each list as many times as its count says.
// After repeat.rs of datafusion-functions-nested 55.2.0, Apache License 2.0, Apache Software Foundation; changed, see NOTICE.
ghost use Rattle.column.specs.Columns.{column_in, values_in};
ghost use Rattle.column.specs.Outputs.{RepeatAnswers};
ghost use Rattle.model.specs.Asked.{asked_repeat};
ghost use Rattle.model.specs.Lengths.{repeat_lengths};
ghost use Rattle.model.specs.Outcome.{repeat_outcome};
ghost use Rattle.std.specs.Prelude.{◌≡◌};

use column::elements::ValueColumn;
use column::lists::{ListColumn, ListOutput, OuterOutput};
use model::offsets::Offset;
use model::{RepeatAnswer, RepeatLengths};

pub fn general_list_repeat<O: Offset>(
    list: ListColumn<O>,
    count_array: ValueColumn,
    out: &mut OuterOutput<O>,
    inner: &mut ListOutput<O>,
) -> RepeatAnswer
    ensures { RepeatAnswers O.numbers (repeat_outcome O.LIMITS (column_in O.numbers list.entry) (values_in count_array.entry)) result out.old out.new inner.old inner.new }
{
    repeat_walk::run(list, count_array, out, inner)
}

pub fn general_list_repeat_lengths<O: Offset>(
    list: ListColumn<O>,
    count_array: ValueColumn,
) -> RepeatLengths
    ensures { asked_repeat result ≡ repeat_lengths O.LIMITS (column_in O.numbers list.entry) (values_in count_array.entry) }
{
    repeat_walk::lengths(list, count_array)
}
