// The operations on one list without arguments.
ghost use Rattle.column.specs.Columns.{column_in};
ghost use Rattle.column.specs.Outputs.{ListAnswers};
ghost use Rattle.model.specs.Asked.{asked_list};
ghost use Rattle.model.specs.Lengths.{list_lengths};
ghost use Rattle.model.specs.Outcome.{list_outcome};
ghost use Rattle.model.specs.Rows.{unary};
ghost use Rattle.std.specs.Prelude.{◌≡◌};

use column::lists::{ListColumn, ListOutput};
use model::offsets::Offset;
use model::{ListAnswer, ListLengths, Unary};
use ops::ListOp;

// The walk looks at no argument columns here: the elements stand in their places.
#[tactic(auto, unfolding(ops::specs::Ops::call_of))]
pub(crate) fn run<O: Offset>(op: Unary, list: ListColumn<O>, out: &mut ListOutput<O>) -> ListAnswer
    ensures { ListAnswers O.numbers (list_outcome O.LIMITS (unary op (column_in O.numbers list.entry))) result out.old out.new }
{
    let none = list.elements;
    list_walk::run(ListOp::Plain(op), list, none, none, none, out)
}

// The same elements stand in their places.
#[tactic(auto, unfolding(ops::specs::Ops::call_of))]
pub(crate) fn lengths<O: Offset>(op: Unary, list: ListColumn<O>) -> ListLengths
    ensures { asked_list result ≡ list_lengths O.LIMITS (unary op (column_in O.numbers list.entry)) }
{
    let none = list.elements;
    list_walk::lengths(ListOp::Plain(op), list, none, none, none)
}
