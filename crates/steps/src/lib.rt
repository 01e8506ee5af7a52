// A recipe's steps. An inner crate: its callers meet what it asks.
#![tactic(auto)]

ghost use Rattle.std.specs.Prelude.{◌+◌, ◌-◌, length, ◌≡◌};
ghost use Rattle.column.specs.Columns.{column_in, values_in};
ghost use Rattle.column.specs.Outputs.{ListAnswers, SameLists, room_in};
ghost use Rattle.model.specs.Basics.{tab};
ghost use Rattle.model.specs.Column.{rows_of};
ghost use Rattle.model.specs.Recipe.{carried, step_at};
ghost use Rattle.one_list.specs.Uses.{columns_in};
ghost use Rattle.step.specs.Step.{Beside, TakenIn, front_in, rows_taken};
ghost use Rattle.steps.specs.Steps.{Steps};

use column::lists::ListOutput;
use model::ListAnswer;
use model::offsets::Offset;
use step::Inputs;

// The steps from step k on, left of them: the first takes the list, a later one the front of a tray, which holds as many rows of m elements;
// the trays take turns, and the last step writes the output. What the trays hold then is left to it: its caller clears them.
pub fn steps<O: Offset>(
    inputs: Inputs<O>,
    k: usize,
    left: usize,
    m: usize,
    from: &mut ListOutput<O>,
    to: &mut ListOutput<O>,
    out: &mut ListOutput<O>,
) -> ListAnswer
    requires steps { Steps inputs.recipe.now inputs.args.pitch inputs.args.rows (length inputs.args.columns.values.now) k left }
    requires taken { TakenIn O.numbers k inputs.args.rows m (column_in O.numbers inputs.list) from.old }
    requires beside { Beside inputs.args.rows (column_in O.numbers inputs.second) (values_in inputs.args.columns) }
    ensures answers { ListAnswers O.numbers (carried O.LIMITS (step_at inputs.entry.recipe.now k) (tab (step_at inputs.entry.recipe.now) (k + 1) (left - 1)) (rows_taken k (column_in O.numbers inputs.entry.list) (front_in O.numbers inputs.entry.args.rows m from.old)) (rows_of (column_in O.numbers inputs.entry.second)) (columns_in inputs.entry.args) (room_in to.old) (room_in from.old)) result out.old out.new }
    ensures from_same { SameLists from.old from.new }
    ensures from_room { room_in from.new ≡ room_in from.old }
    ensures to_same { SameLists to.old to.new }
    ensures to_room { room_in to.new ≡ room_in to.old }
{
    if left == 1 {
        return step::step_at(inputs, k, from, m, out);
    }
    let made = step::step_at(inputs, k, from, m, to)?;
    steps(inputs, k + 1, left - 1, made.elements, to, from, out)
}
