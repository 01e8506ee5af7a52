// Reverse: each row's elements, last first.
// After reverse.rs of datafusion-functions-nested 55.2.0, Apache License 2.0, Apache Software Foundation; changed, see NOTICE.
ghost use Rattle.column.specs.Columns.{column_in};
ghost use Rattle.column.specs.Outputs.{ListAnswers};
ghost use Rattle.model.specs.Asked.{asked_list};
ghost use Rattle.model.specs.Lengths.{list_lengths};
ghost use Rattle.model.specs.Outcome.{list_outcome};
ghost use Rattle.model.specs.Rows.{unary};
ghost use Rattle.std.specs.Prelude.{◌≡◌};

use crate::plain;
use column::lists::{ListColumn, ListOutput};
use model::offsets::Offset;
use model::{ListAnswer, ListLengths, Unary};

pub fn general_array_reverse<O: Offset>(list: ListColumn<O>, out: &mut ListOutput<O>) -> ListAnswer
    ensures { ListAnswers O.numbers (list_outcome O.LIMITS (unary Unary.Reverse (column_in O.numbers list.entry))) result out.old out.new }
{
    plain::run(Unary::Reverse, list, out)
}

pub fn general_array_reverse_lengths<O: Offset>(list: ListColumn<O>) -> ListLengths
    ensures { asked_list result ≡ list_lengths O.LIMITS (unary Unary.Reverse (column_in O.numbers list.entry)) }
{
    plain::lengths(Unary::Reverse, list)
}
