// The operations on one list with up to three argument columns: the kind of operation is chosen once a call, and its walks measure the
// rows and write them. An inner crate: its callers meet what it asks.
#![tactic(auto)]

mod totals;

ghost use Rattle.std.specs.Prelude.{◌≤◌, length, ◌≡◌};
ghost use Rattle.arguments.specs.Taken.{Served};
ghost use Rattle.column.specs.Columns.{column_in, values_in};
ghost use Rattle.column.specs.Outputs.{Fills, ListAnswers, RoomFor};
ghost use Rattle.column.specs.Put.{Readable};
ghost use Rattle.made_rows.specs.Made.{Begun, call_rows};
ghost use Rattle.model.specs.Answers.{refused_by};
ghost use Rattle.model.specs.Asked.{asked_list};
ghost use Rattle.model.specs.Column.{row_count, rows_of, shown_by};
ghost use Rattle.model.specs.Form.{flat};
ghost use Rattle.model.specs.Lengths.{list_lengths};
ghost use Rattle.model.specs.Outcome.{after_three, early_refusal, fitted, list_outcome};
ghost use Rattle.ops.specs.Ops.{call_of};

use arguments::taken;
use column::elements::ValueColumn;
use column::lists::{ListColumn, ListOutput};
use model::offsets::Offset;
use model::{ListAnswer, ListLengths, Refusal};
use ops::ListOp;

// Writes the rows that the operation makes, in result form: one walk for each kind of operation.
fn write_rows<O: Offset>(
    op: ListOp,
    list: ListColumn<O>,
    xs: ValueColumn,
    ys: ValueColumn,
    zs: ValueColumn,
    out: &mut ListOutput<O>,
)
    requires column { Readable (column_in O.numbers list) }
    requires arguments { Served op (row_count (O.numbers list.offsets.now)) (values_in xs) (values_in ys) (values_in zs) }
    requires small { length (flat (call_rows O.LIMITS op (column_in O.numbers list) (values_in xs) (values_in ys) (values_in zs))) ≤ O.LIMITS.offset }
    requires room { RoomFor (row_count (O.numbers list.offsets.now)) (length (flat (call_rows O.LIMITS op (column_in O.numbers list) (values_in xs) (values_in ys) (values_in zs)))) out.old }
    ensures { Fills O.numbers (call_rows O.LIMITS op (column_in O.numbers list.entry) (values_in xs.entry) (values_in ys.entry) (values_in zs.entry)) out.old out.new }
{
    match op {
        ListOp::Plain(u) => plain_walk::write_rows(u, list, out),
        ListOp::Slice | ListOp::SliceBy => slice_walk::write_rows(op, list, xs, ys, zs, out),
        ListOp::Resize | ListOp::ResizeWith => resize_walk::write_rows(op, list, xs, ys, zs, out),
        ListOp::Replace => replace_walk::write_rows(list, xs, ys, zs, out),
        ListOp::Remove => remove_walk::write_rows(list, xs, ys, out),
    }
}

// Writes the m elements that the operation makes, or gives 9.
fn write_fitting<O: Offset>(
    op: ListOp,
    list: ListColumn<O>,
    xs: ValueColumn,
    ys: ValueColumn,
    zs: ValueColumn,
    m: usize,
    out: &mut ListOutput<O>,
) -> ListAnswer
    requires column { Readable (column_in O.numbers list) }
    requires arguments { Served op (row_count (O.numbers list.offsets.now)) (values_in xs) (values_in ys) (values_in zs) }
    requires made { m ≡ length (flat (call_rows O.LIMITS op (column_in O.numbers list) (values_in xs) (values_in ys) (values_in zs))) }
    requires small { m ≤ O.LIMITS.offset }
    ensures { ListAnswers O.numbers (fitted (call_rows O.LIMITS op (column_in O.numbers list.entry) (values_in xs.entry) (values_in ys.entry) (values_in zs.entry))) result out.old out.new }
{
    let n = list.row_count();
    if !out.has_room(n, m) {
        return Err(Refusal::ShortOutput);
    }
    write_rows(op, list, xs, ys, zs, out);
    answers::list_answer(out, n, m)
}

// Writes what the operation makes of columns that refusals 1, 2 and 3 do not apply to.
pub fn after_three<O: Offset>(
    op: ListOp,
    list: ListColumn<O>,
    xs: ValueColumn,
    ys: ValueColumn,
    zs: ValueColumn,
    out: &mut ListOutput<O>,
) -> ListAnswer
    requires column { Readable (column_in O.numbers list) }
    requires arguments { Served op (row_count (O.numbers list.offsets.now)) (values_in xs) (values_in ys) (values_in zs) }
    ensures { ListAnswers O.numbers (after_three O.LIMITS (call_of op (rows_of (column_in O.numbers list.entry)) (shown_by (values_in xs.entry)) (shown_by (values_in ys.entry)) (shown_by (values_in zs.entry)))) result out.old out.new }
{
    let m = totals::total(op, list, xs, ys, zs)?;
    write_fitting(op, list, xs, ys, zs, m, out)
}

// Refusals 13, 1, 2 and 3 of an operation on one list; where none applies, its columns can be read.
fn early<O: Offset>(
    op: ListOp,
    list: ListColumn<O>,
    xs: ValueColumn,
    ys: ValueColumn,
    zs: ValueColumn,
) -> Result<(), Refusal>
    ensures value { refused_by result ≡ early_refusal (call_of op (column_in O.numbers list.entry) (values_in xs.entry) (values_in ys.entry) (values_in zs.entry)) }
    ensures begun { refused_by result ≡ 0 → Begun op (column_in O.numbers list.entry) (values_in xs.entry) (values_in ys.entry) (values_in zs.entry) }
{
    if taken::is_start_over(op, xs, ys, zs) {
        return Err(Refusal::BadStartingBit);
    }
    checks::list_refusal(list)?;
    taken::arguments_refusal(op, list.row_count(), xs, ys, zs)
}

// The lengths of the slices that the operation needs, or its refusal: the first walk of the run, and nothing is written.
pub fn lengths<O: Offset>(
    op: ListOp,
    list: ListColumn<O>,
    xs: ValueColumn,
    ys: ValueColumn,
    zs: ValueColumn,
) -> ListLengths
    ensures { asked_list result ≡ list_lengths O.LIMITS (call_of op (column_in O.numbers list.entry) (values_in xs.entry) (values_in ys.entry) (values_in zs.entry)) }
{
    early(op, list, xs, ys, zs)?;
    let m = totals::total(op, list, xs, ys, zs)?;
    checks::lengths_for(list.row_count(), m)
}

// Checks the columns and the outputs, and writes what the operation makes.
pub fn run<O: Offset>(
    op: ListOp,
    list: ListColumn<O>,
    xs: ValueColumn,
    ys: ValueColumn,
    zs: ValueColumn,
    out: &mut ListOutput<O>,
) -> ListAnswer
    ensures { ListAnswers O.numbers (list_outcome O.LIMITS (call_of op (column_in O.numbers list.entry) (values_in xs.entry) (values_in ys.entry) (values_in zs.entry))) result out.old out.new }
{
    early(op, list, xs, ys, zs)?;
    after_three(op, list, xs, ys, zs, out)
}
