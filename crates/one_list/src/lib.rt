// An operation on the carried list, its argument columns cut out of one slice. An inner crate: its callers meet what it asks.
#![tactic(auto)]

ghost use Rattle.std.specs.Prelude.{◌+◌, ◌≤◌, drop, length, take, ◌≡◌};
ghost use Rattle.bitmap.specs.Push.{Covers};
ghost use Rattle.bitmap.specs.Reads.{bits_in};
ghost use Rattle.codes.specs.Codes.{step_in};
ghost use Rattle.column.specs.Columns.{column_in, values_in};
ghost use Rattle.column.specs.Outputs.{ListAnswers};
ghost use Rattle.column.specs.Put.{Readable};
ghost use Rattle.model.specs.Basics.{pick};
ghost use Rattle.model.specs.Column.{row_count, rows_of};
ghost use Rattle.model.specs.Outcome.{after_three};
ghost use Rattle.one_list.specs.Uses.{LiesIn, Uses, column_cut, columns_in};
ghost use Rattle.ops.specs.Ops.{call_of};

use codes::Step;
use column::elements::ValueColumn;
use column::lists::{ListColumn, ListOutput};
use model::ListAnswer;
use model::offsets::Offset;
use ops::ListOp;

// Argument columns one after another in one slice, `pitch` values apart, of each of which so many rows are looked at.
#[derive(Clone, Copy)]
pub struct ArgumentColumns<'a> {
    pub columns: ValueColumn<'a>,
    pub pitch: usize,
    pub rows: usize,
}

// The n values from value a on, where the column is used, else none.
fn column_values(used: bool, args: &[i64], a: usize, n: usize) -> &[i64]
    requires { a + pick used n 0 ≤ length args.now }
    ensures { result.now ≡ take (pick used n 0) (drop a args.now) }
{
    if used { &args[a..a + n] } else { &args[a..a] }
}

impl<'a> ArgumentColumns<'a> {
    // Column k where it is used, else none of its values.
    fn column(self, used: bool, k: usize) -> ValueColumn<'a>
        requires covers { Covers (bits_in self.columns.bits) (length self.columns.values.now) }
        requires lies_in { LiesIn used k self.pitch self.rows (length self.columns.values.now) }
        ensures { values_in result ≡ column_cut (values_in self.entry.columns) self.entry.pitch (pick used self.entry.rows 0) k }
    {
        let all = self.columns;
        let a = k * self.pitch;
        ValueColumn {
            values: column_values(used, all.values, a, self.rows),
            bits: all.bits.tail(a, all.values.len()),
        }
    }
}

// An operation on the carried list, its argument columns cut out of the slice that they lie in, by the numbers of a step.
pub fn one_list<O: Offset>(
    op: ListOp,
    list: ListColumn<O>,
    step: Step,
    args: ArgumentColumns,
    out: &mut ListOutput<O>,
) -> ListAnswer
    requires column { Readable (column_in O.numbers list) }
    requires rows { row_count (O.numbers list.offsets.now) ≡ args.rows }
    requires bits { Covers (bits_in args.columns.bits) (length args.columns.values.now) }
    requires uses { Uses op args.pitch args.rows step.first step.second step.third (length args.columns.values.now) }
    ensures { ListAnswers O.numbers (after_three O.LIMITS (call_of op (rows_of (column_in O.numbers list.entry)) (columns_in args.entry step.first) (columns_in args.entry step.second) (columns_in args.entry step.third))) result out.old out.new }
{
    let k = ops::takes(op).columns;
    let xs = args.column(0 < k, step.first);
    let ys = args.column(1 < k, step.second);
    let zs = args.column(2 < k, step.third);
    list_walk::after_three(op, list, xs, ys, zs, out)
}
