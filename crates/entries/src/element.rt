// Element, over bytes.
ghost use Rattle.std.specs.Prelude.{◌/◌, ◌≤◌, length};
ghost use Rattle.column.specs.Outputs.{ValueAnswers};
ghost use Rattle.entry.specs.Decoded.{decoded_in, decoded_values_in};
ghost use Rattle.entry.specs.Entry.{most_offsets, most_rows, most_values};
ghost use Rattle.entry.specs.Inner.{ListFits};
ghost use Rattle.model.specs.Limits.{narrow};
ghost use Rattle.model.specs.Outcome.{element_outcome};

use column::elements::ValueOutput;
use entry::inputs::{ListBytes, ValueBytes};
use entry::sizes;
use lists::extract;
use model::ValueAnswer;

pub fn run(list: ListBytes, indexes: ValueBytes, out: &mut ValueOutput) -> ValueAnswer
    requires list { ListFits (length list.offsets.now) (length list.values.now) most_offsets most_values }
    requires indexes { length indexes.values.now / 8 ≤ most_rows }
    ensures { ValueAnswers (element_outcome narrow (decoded_in list.entry) (decoded_values_in indexes.entry)) result out.old out.new }
{
    let mut offsets = [0i32; sizes::MOST_OFFSETS];
    let mut values = [0i64; sizes::MOST_VALUES];
    let mut found = [0i64; sizes::MOST_ROWS];
    list.decode(&mut offsets, &mut values);
    indexes.decode(&mut found);
    extract::general_array_element(list.column(&offsets, &values), indexes.column(&found), out)
}
