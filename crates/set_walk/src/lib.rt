// The operations on two lists: one walk measures the pairs of rows, a second writes. An inner crate: its callers meet what it asks.
// After set_ops.rs of datafusion-functions-nested 55.2.0, Apache License 2.0, Apache Software Foundation; changed, see NOTICE.
#![tactic(auto)]

ghost use Rattle.std.specs.Prelude.{◌+◌, ◌<◌, ◌≤◌, length, ◌≡◌};
ghost use Rattle.column.specs.Columns.{column_in};
ghost use Rattle.column.specs.Outputs.{Fills, ListAnswers, RoomFor, RoomForRow, WritesRow};
ghost use Rattle.column.specs.Put.{Readable};
ghost use Rattle.model.specs.Answers.{refused_by};
ghost use Rattle.model.specs.Asked.{asked_list};
ghost use Rattle.model.specs.Column.{offset_at, row_count, rows_of};
ghost use Rattle.model.specs.Form.{elems_of, flat};
ghost use Rattle.model.specs.Lengths.{list_lengths};
ghost use Rattle.model.specs.Outcome.{after_three, early_refusal, list_outcome};
ghost use Rattle.model.specs.Rows.{set_op_call};
ghost use Rattle.set_walk.specs.Pairs.{Begun, bound_of, pair_at, pair_rows};

use column::lists::{ListColumn, ListOutput};
use column::offsets;
use model::offsets::Offset;
use model::{ListAnswer, ListLengths, Refusal, SetOp};
use set_rows::runs::Run;
use set_rows::set_ops;

// The number of elements that the operation makes of the rows r.
fn measure_pair<'a, O: Offset>(
    op: SetOp,
    left: ListColumn<'a, O>,
    right: ListColumn<'a, O>,
    r: usize,
) -> usize
    requires begun { Begun (column_in O.numbers left) (column_in O.numbers right) }
    requires there { r < row_count (column_in O.numbers left).offsets }
    ensures value { result ≡ length (elems_of (pair_at op (column_in O.numbers left.entry) (column_in O.numbers right.entry) r)) }
    ensures left_end { offset_at (column_in O.numbers left.entry).offsets (r + 1) ≤ O.LIMITS.offset }
    ensures right_end { offset_at (column_in O.numbers right.entry).offsets (r + 1) ≤ O.LIMITS.offset }
{
    let left_row = Run::of_row(left, r);
    let right_row = Run::of_row(right, r);
    if !set_checks::are_valid(left.rows, right.rows, left.row_count(), r) {
        return 0;
    }
    set_ops::measure_set(op, left_row, right_row)
}

// Writes the row that the operation makes of the rows r, but for its offset; gives the number of elements then written.
fn put_pair<'a, O: Offset>(
    op: SetOp,
    left: ListColumn<'a, O>,
    right: ListColumn<'a, O>,
    r: usize,
    out: &mut ListOutput<O>,
    at: usize,
) -> usize
    requires begun { Begun (column_in O.numbers left) (column_in O.numbers right) }
    requires there { r < row_count (column_in O.numbers left).offsets }
    requires room { RoomForRow (pair_at op (column_in O.numbers left) (column_in O.numbers right) r) r at out.old }
    ensures { WritesRow (pair_at op (column_in O.numbers left.entry) (column_in O.numbers right.entry) r) r at out.old out.new result }
{
    if !set_checks::are_valid(left.rows, right.rows, left.row_count(), r) {
        bitmap::push_bit(out.rows, r, false);
        return at;
    }
    bitmap::push_bit(out.rows, r, true);
    set_ops::write_set(
        op,
        Run::of_row(left, r),
        Run::of_row(right, r),
        out.elements,
        at,
    )
}

// The number of elements that the operation makes.
fn measure_pairs<'a, O: Offset>(
    op: SetOp,
    left: ListColumn<'a, O>,
    right: ListColumn<'a, O>,
) -> usize
    requires { Begun (column_in O.numbers left) (column_in O.numbers right) }
    ensures value { result ≡ length (flat (pair_rows op (column_in O.numbers left.entry) (column_in O.numbers right.entry))) }
    ensures upper_bound { result ≤ bound_of op O.LIMITS.offset O.LIMITS.offset }
{
    let mut found: usize = 0;
    for r in 0..left.row_count() {
        found += measure_pair(op, left, right, r);
    }
    found
}

// Writes the rows that the operation makes, in result form.
fn write_pairs<'a, O: Offset>(
    op: SetOp,
    left: ListColumn<'a, O>,
    right: ListColumn<'a, O>,
    out: &mut ListOutput<O>,
)
    requires begun { Begun (column_in O.numbers left) (column_in O.numbers right) }
    requires small { length (flat (pair_rows op (column_in O.numbers left) (column_in O.numbers right))) ≤ O.LIMITS.offset }
    requires room { RoomFor (row_count (column_in O.numbers left).offsets) (length (flat (pair_rows op (column_in O.numbers left) (column_in O.numbers right)))) out.old }
    ensures { Fills O.numbers (pair_rows op (column_in O.numbers left.entry) (column_in O.numbers right.entry)) out.old out.new }
{
    offsets::put_offset(out.offsets, 0, 0);
    let mut at: usize = 0;
    for r in 0..left.row_count() {
        at = put_pair(op, left, right, r, out, at);
        offsets::put_offset(out.offsets, r + 1, at);
    }
}

// Writes what the operation makes of columns that can be read, row beside row.
pub fn after_three<'a, O: Offset>(
    op: SetOp,
    left: ListColumn<'a, O>,
    right: ListColumn<'a, O>,
    out: &mut ListOutput<O>,
) -> ListAnswer
    requires { Begun (column_in O.numbers left) (column_in O.numbers right) }
    ensures { ListAnswers O.numbers (after_three O.LIMITS (set_op_call op (rows_of (column_in O.numbers left.entry)) (rows_of (column_in O.numbers right.entry)))) result out.old out.new }
{
    let m = measure_pairs(op, left, right);
    set_checks::union_refusal::<O>(op, m)?;
    let n = left.row_count();
    if !out.has_room(n, m) {
        return Err(Refusal::ShortOutput);
    }
    write_pairs(op, left, right, out);
    answers::list_answer(out, n, m)
}

// What refuses an operation on two lists before its rows; where nothing does, both can be read.
pub fn early<O: Offset>(left: ListColumn<O>, right: ListColumn<O>) -> Result<(), Refusal>
    ensures value { (op : SetOp) → refused_by result ≡ early_refusal (set_op_call op (column_in O.numbers left.entry) (column_in O.numbers right.entry)) }
    ensures begun { refused_by result ≡ 0 → Begun (column_in O.numbers left.entry) (column_in O.numbers right.entry) }
{
    set_checks::lists_refusal(left, right)?;
    if !set_checks::same_row_count(left, right) {
        return Err(Refusal::RowCountsDiffer);
    }
    Ok(())
}

// The lengths of the slices that the operation needs, or its refusal: the first walk of the run, and nothing is written.
pub fn lengths<'a, O: Offset>(
    op: SetOp,
    left: ListColumn<'a, O>,
    right: ListColumn<'a, O>,
) -> ListLengths
    ensures { asked_list result ≡ list_lengths O.LIMITS (set_op_call op (column_in O.numbers left.entry) (column_in O.numbers right.entry)) }
{
    early(left, right)?;
    let m = measure_pairs(op, left, right);
    set_checks::union_refusal::<O>(op, m)?;
    checks::lengths_for(left.row_count(), m)
}

// Checks the columns and the outputs, and writes what the operation makes.
pub fn run<'a, O: Offset>(
    op: SetOp,
    left: ListColumn<'a, O>,
    right: ListColumn<'a, O>,
    out: &mut ListOutput<O>,
) -> ListAnswer
    ensures { ListAnswers O.numbers (list_outcome O.LIMITS (set_op_call op (column_in O.numbers left.entry) (column_in O.numbers right.entry))) result out.old out.new }
{
    early(left, right)?;
    after_three(op, left, right, out)
}
