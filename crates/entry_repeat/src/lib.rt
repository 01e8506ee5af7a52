// List-repeat, over bytes: its columns are decoded into arrays, and the operation run. An inner crate: its callers meet what it asks.
#![tactic(auto)]

ghost use Rattle.std.specs.Prelude.{◌/◌, ◌≤◌, length};
ghost use Rattle.column.specs.Outputs.{RepeatAnswers};
ghost use Rattle.entry.specs.Decoded.{decoded_in, decoded_values_in};
ghost use Rattle.entry.specs.Entry.{most_offsets, most_rows, most_values};
ghost use Rattle.entry.specs.Inner.{ListFits};
ghost use Rattle.model.specs.Limits.{narrow};
ghost use Rattle.model.specs.Outcome.{repeat_outcome};

use column::lists::{ListOutput, OuterOutput};
use entry::inputs::{ListBytes, ValueBytes};
use entry::sizes;
use lists::repeat;
use model::RepeatAnswer;

// Of 16384 inner rows.
pub const MOST_INNER_OFFSETS: usize = 16385;

pub fn run(
    list: ListBytes,
    times: ValueBytes,
    out: &mut OuterOutput<i32>,
    inner: &mut ListOutput<i32>,
) -> RepeatAnswer
    requires list { ListFits (length list.offsets.now) (length list.values.now) most_offsets most_values }
    requires times { length times.values.now / 8 ≤ most_rows }
    ensures { RepeatAnswers (λ l. l) (repeat_outcome narrow (decoded_in list.entry) (decoded_values_in times.entry)) result out.old out.new inner.old inner.new }
{
    let mut offsets = [0i32; sizes::MOST_OFFSETS];
    let mut values = [0i64; sizes::MOST_VALUES];
    let mut counts = [0i64; sizes::MOST_ROWS];
    list.decode(&mut offsets, &mut values);
    times.decode(&mut counts);
    repeat::general_list_repeat(
        list.column(&offsets, &values),
        times.column(&counts),
        out,
        inner,
    )
}
