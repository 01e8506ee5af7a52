// Any-value, over bytes.
ghost use Rattle.std.specs.Prelude.{length};
ghost use Rattle.column.specs.Outputs.{ValueAnswers};
ghost use Rattle.entry.specs.Decoded.{decoded_in};
ghost use Rattle.entry.specs.Entry.{most_offsets, most_values};
ghost use Rattle.entry.specs.Inner.{ListFits};
ghost use Rattle.model.specs.Outcome.{any_value_outcome};

use column::elements::ValueOutput;
use entry::inputs::ListBytes;
use entry::sizes;
use lists::extract;
use model::ValueAnswer;

pub fn run(list: ListBytes, out: &mut ValueOutput) -> ValueAnswer
    requires { ListFits (length list.offsets.now) (length list.values.now) most_offsets most_values }
    ensures { ValueAnswers (any_value_outcome (decoded_in list.entry)) result out.old out.new }
{
    let mut offsets = [0i32; sizes::MOST_OFFSETS];
    let mut values = [0i64; sizes::MOST_VALUES];
    list.decode(&mut offsets, &mut values);
    extract::general_array_any_value(list.column(&offsets, &values), out)
}
