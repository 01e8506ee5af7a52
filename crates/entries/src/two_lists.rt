// The operations on two lists, over bytes.
ghost use Rattle.std.specs.Prelude.{length};
ghost use Rattle.column.specs.Outputs.{ListAnswers};
ghost use Rattle.entry.specs.Decoded.{decoded_in};
ghost use Rattle.entry.specs.Entry.{most_offsets, most_values};
ghost use Rattle.entry.specs.Inner.{ListFits};
ghost use Rattle.model.specs.Limits.{narrow};
ghost use Rattle.model.specs.Outcome.{list_outcome};
ghost use Rattle.model.specs.Rows.{set_op_call};

use column::lists::ListOutput;
use entry::inputs::ListBytes;
use entry::sizes;
use lists::set_ops;
use model::{ListAnswer, SetOp};

pub fn run(op: SetOp, left: ListBytes, right: ListBytes, out: &mut ListOutput<i32>) -> ListAnswer
    requires left { ListFits (length left.offsets.now) (length left.values.now) most_offsets most_values }
    requires right { ListFits (length right.offsets.now) (length right.values.now) most_offsets most_values }
    ensures { ListAnswers (λ l. l) (list_outcome narrow (set_op_call op (decoded_in left.entry) (decoded_in right.entry))) result out.old out.new }
{
    let mut l_offsets = [0i32; sizes::MOST_OFFSETS];
    let mut l_values = [0i64; sizes::MOST_VALUES];
    let mut r_offsets = [0i32; sizes::MOST_OFFSETS];
    let mut r_values = [0i64; sizes::MOST_VALUES];
    left.decode(&mut l_offsets, &mut l_values);
    right.decode(&mut r_offsets, &mut r_values);
    set_ops::generic_set_lists(
        left.column(&l_offsets, &l_values),
        right.column(&r_offsets, &r_values),
        op,
        out,
    )
}
