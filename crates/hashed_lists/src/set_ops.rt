// Distinct, union and intersect by tables of the elements before, in a work area that is all zero after every call.
// After set_ops.rs of datafusion-functions-nested 55.2.0, Apache License 2.0, Apache Software Foundation; changed, see NOTICE.
ghost use Rattle.column.specs.Columns.{column_in};
ghost use Rattle.hash_checks.specs.Narrow.{narrow_numbers};
ghost use Rattle.hashed_lists.specs.Answers.{HashAnswers};
ghost use Rattle.model.specs.Hash.{distinct_of, hashed_outcome, set_of};
ghost use Rattle.model.specs.Limits.{narrow};

use column::lists::{ListColumn, ListOutput};
use hash_checks::HashOp;
use model::{ListAnswer, SetOp};

// Distinct, row by row; the area has room for twice the elements of the longest valid row.
pub fn general_array_distinct_hashed(
    list: ListColumn<i32>,
    out: &mut ListOutput<i32>,
    area: &mut [u32],
) -> ListAnswer
    ensures { HashAnswers (hashed_outcome narrow (distinct_of (column_in narrow_numbers list.entry))) result out.old out.new area.old area.new }
{
    hash_slots::clear_area(area);
    checks::list_refusal(list)?;
    hash_walk::after_three(HashOp::Distinct, list, list, out, area)
}

// Union or intersect, row by row; the area has room for twice the elements of the longest pair of rows valid on both sides.
pub fn generic_set_lists_hashed<'a>(
    left: ListColumn<'a, i32>,
    right: ListColumn<'a, i32>,
    set_op: SetOp,
    out: &mut ListOutput<i32>,
    area: &mut [u32],
) -> ListAnswer
    ensures { HashAnswers (hashed_outcome narrow (set_of set_op (column_in narrow_numbers left.entry) (column_in narrow_numbers right.entry))) result out.old out.new area.old area.new }
{
    hash_slots::clear_area(area);
    set_walk::early(left, right)?;
    hash_walk::after_three(HashOp::Pair(set_op), left, right, out, area)
}
