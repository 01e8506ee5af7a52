// A recipe looked at for a few rows: no station is named, and no tally moves.
#![tactic(auto)]

ghost use Rattle.column.specs.Outputs.{Clears, ListAnswers, room_in};
ghost use Rattle.windows.specs.Windows.{window_lent};

use column::lists::ListOutput;
use model::ListAnswer;
use model::offsets::Offset;
use recipe_refusal::{Inputs, Recipe};

// Gives a recipe's result for rows begin up to, not including, end: what the recipe would answer and write on a copy that holds just these rows
// of both lists and of every argument column. Nothing is copied. All else is lent as for the recipe's run. The trays are zero afterwards, whatever comes.
pub fn run_window<O: Offset>(
    begin: usize,
    end: usize,
    recipe: Recipe,
    inputs: Inputs<O>,
    one: &mut ListOutput<O>,
    two: &mut ListOutput<O>,
    out: &mut ListOutput<O>,
) -> ListAnswer
    ensures list_answers { ListAnswers O.numbers (window_lent O.numbers O.LIMITS begin end recipe.entry inputs.entry (room_in one.old) (room_in two.old)) result out.old out.new }
    ensures clears { Clears O.numbers one.old one.new }
    ensures clears_2 { Clears O.numbers two.old two.new }
{
    let answer = attempt::attempt_at_station(0, begin, end, recipe, inputs, one, two, out);
    copies::clear(one);
    copies::clear(two);
    answer
}
