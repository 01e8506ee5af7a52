// The operations on one list without arguments, over bytes.
ghost use Rattle.std.specs.Prelude.{length};
ghost use Rattle.column.specs.Outputs.{ListAnswers};
ghost use Rattle.entry.specs.Decoded.{decoded_in};
ghost use Rattle.entry.specs.Entry.{most_offsets, most_values};
ghost use Rattle.entry.specs.Inner.{ListFits};
ghost use Rattle.model.specs.Limits.{narrow};
ghost use Rattle.model.specs.Outcome.{list_outcome};
ghost use Rattle.model.specs.Rows.{unary};

use column::lists::ListOutput;
use entry::inputs::ListBytes;
use entry::sizes;
use model::{ListAnswer, Unary};
use ops::ListOp;

pub fn run(op: Unary, list: ListBytes, out: &mut ListOutput<i32>) -> ListAnswer
    requires { ListFits (length list.offsets.now) (length list.values.now) most_offsets most_values }
    ensures { ListAnswers (λ l. l) (list_outcome narrow (unary op (decoded_in list.entry))) result out.old out.new }
{
    let mut offsets = [0i32; sizes::MOST_OFFSETS];
    let mut values = [0i64; sizes::MOST_VALUES];
    list.decode(&mut offsets, &mut values);
    let column = list.column(&offsets, &values);
    // The walk looks at no argument columns here: any stand in their places.
    let none = column.elements;
    list_walk::run(ListOp::Plain(op), column, none, none, none, out)
}
