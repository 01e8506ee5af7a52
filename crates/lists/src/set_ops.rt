// Distinct, union and intersect: first occurrences, by comparing with the elements before.
// After set_ops.rs of datafusion-functions-nested 55.2.0, Apache License 2.0, Apache Software Foundation; changed, see NOTICE.
ghost use Rattle.column.specs.Columns.{column_in};
ghost use Rattle.column.specs.Outputs.{ListAnswers};
ghost use Rattle.model.specs.Asked.{asked_list};
ghost use Rattle.model.specs.Lengths.{list_lengths};
ghost use Rattle.model.specs.Outcome.{list_outcome};
ghost use Rattle.model.specs.Rows.{set_op_call, unary};
ghost use Rattle.std.specs.Prelude.{◌≡◌};

use crate::plain;
use column::lists::{ListColumn, ListOutput};
use model::offsets::Offset;
use model::{ListAnswer, ListLengths, SetOp, Unary};

pub fn general_array_distinct<O: Offset>(list: ListColumn<O>, out: &mut ListOutput<O>) -> ListAnswer
    ensures { ListAnswers O.numbers (list_outcome O.LIMITS (unary Unary.Distinct (column_in O.numbers list.entry))) result out.old out.new }
{
    plain::run(Unary::Distinct, list, out)
}

pub fn general_array_distinct_lengths<O: Offset>(list: ListColumn<O>) -> ListLengths
    ensures { asked_list result ≡ list_lengths O.LIMITS (unary Unary.Distinct (column_in O.numbers list.entry)) }
{
    plain::lengths(Unary::Distinct, list)
}

// Union or intersect, row by row.
pub fn generic_set_lists<O: Offset>(
    left: ListColumn<O>,
    right: ListColumn<O>,
    set_op: SetOp,
    out: &mut ListOutput<O>,
) -> ListAnswer
    ensures { ListAnswers O.numbers (list_outcome O.LIMITS (set_op_call set_op (column_in O.numbers left.entry) (column_in O.numbers right.entry))) result out.old out.new }
{
    set_walk::run(set_op, left, right, out)
}

pub fn generic_set_lists_lengths<O: Offset>(
    left: ListColumn<O>,
    right: ListColumn<O>,
    set_op: SetOp,
) -> ListLengths
    ensures { asked_list result ≡ list_lengths O.LIMITS (set_op_call set_op (column_in O.numbers left.entry) (column_in O.numbers right.entry)) }
{
    set_walk::lengths(set_op, left, right)
}
