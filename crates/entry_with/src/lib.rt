// The operations on one list that take argument columns, over bytes: columns are decoded into arrays, and the operation run. An inner crate:
// its callers meet what it asks.
#![tactic(auto)]

ghost use Rattle.std.specs.Prelude.{◌/◌, ◌≤◌, length};
ghost use Rattle.column.specs.Outputs.{ListAnswers};
ghost use Rattle.entry.specs.Decoded.{decoded_in, decoded_values_in};
ghost use Rattle.entry.specs.Entry.{most_offsets, most_rows, most_values};
ghost use Rattle.entry.specs.Inner.{ListFits};
ghost use Rattle.model.specs.Limits.{narrow};
ghost use Rattle.model.specs.Outcome.{list_outcome};
ghost use Rattle.ops.specs.Ops.{call_of};

use column::lists::ListOutput;
use entry::inputs::{ListBytes, ValueBytes};
use entry::sizes;
use model::ListAnswer;
use ops::ListOp;

pub fn run(
    op: ListOp,
    list: ListBytes,
    first: ValueBytes,
    second: ValueBytes,
    third: ValueBytes,
    out: &mut ListOutput<i32>,
) -> ListAnswer
    requires list { ListFits (length list.offsets.now) (length list.values.now) most_offsets most_values }
    requires first { length first.values.now / 8 ≤ most_rows }
    requires second { length second.values.now / 8 ≤ most_rows }
    requires third { length third.values.now / 8 ≤ most_rows }
    ensures { ListAnswers (λ l. l) (list_outcome narrow (call_of op (decoded_in list.entry) (decoded_values_in first.entry) (decoded_values_in second.entry) (decoded_values_in third.entry))) result out.old out.new }
{
    let mut offsets = [0i32; sizes::MOST_OFFSETS];
    let mut values = [0i64; sizes::MOST_VALUES];
    let mut xs = [0i64; sizes::MOST_ROWS];
    let mut ys = [0i64; sizes::MOST_ROWS];
    let mut zs = [0i64; sizes::MOST_ROWS];
    list.decode(&mut offsets, &mut values);
    first.decode(&mut xs);
    second.decode(&mut ys);
    third.decode(&mut zs);
    list_walk::run(
        op,
        list.column(&offsets, &values),
        first.column(&xs),
        second.column(&ys),
        third.column(&zs),
        out,
    )
}
