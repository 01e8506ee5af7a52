// The call of a recipe, but for its tally and the clearing of its trays. An inner crate: it asks nothing of its callers, who clear the trays.
#![tactic(auto)]

ghost use Rattle.attempt.specs.Going.{Going};
ghost use Rattle.column.specs.Columns.{column_in, values_in};
ghost use Rattle.column.specs.Outputs.{ListAnswers, room_in};
ghost use Rattle.copies.specs.Trayed.{Kept};
ghost use Rattle.model.specs.Recipe.{stationed};
ghost use Rattle.model.specs.Window.{window_outcome};
ghost use Rattle.recipe_refusal.specs.Refused.{recipe_in};

use column::lists::ListOutput;
use model::offsets::Offset;
use model::{ListAnswer, Refusal};
use one_list::ArgumentColumns;
use recipe_refusal::{Inputs, Recipe};

#[cfg(test)]
mod tests;

// Takes the steps on rows begin up to end of each column, which are cut out and not copied; no step writes them into the output.
fn take_steps<O: Offset>(
    begin: usize,
    end: usize,
    recipe: Recipe,
    inputs: Inputs<O>,
    one: &mut ListOutput<O>,
    two: &mut ListOutput<O>,
    out: &mut ListOutput<O>,
) -> ListAnswer
    requires { Going (recipe_in recipe) begin end (column_in O.numbers inputs.list) (column_in O.numbers inputs.second) (values_in inputs.arguments) }
    ensures answers { ListAnswers O.numbers (window_outcome O.LIMITS (recipe_in recipe.entry) begin end (column_in O.numbers inputs.entry.list) (column_in O.numbers inputs.entry.second) (values_in inputs.entry.arguments) (room_in one.old) (room_in two.old)) result out.old out.new }
    ensures one { Kept one.old one.new }
    ensures two { Kept two.old two.new }
{
    let list = window::rows_of(inputs.list, begin, end);
    let steps = recipe.numbers.len() / 4;
    if steps == 0 {
        return copies::copy(list, out);
    }
    let taken = step::Inputs {
        recipe: recipe.numbers,
        list,
        second: window::rows_of(inputs.second, begin, end),
        args: ArgumentColumns {
            columns: window::arguments_from(inputs.arguments, begin),
            pitch: inputs.list.row_count(),
            rows: end - begin,
        },
    };
    steps::steps(taken, 0, steps, 0, two, one, out)
}

// Checks the station, the recipe, the columns and whether rows begin up to end are there, and takes the steps on these rows. The run of a
// recipe is the call for all rows.
pub fn attempt_at_station<O: Offset>(
    station: u32,
    begin: usize,
    end: usize,
    recipe: Recipe,
    inputs: Inputs<O>,
    one: &mut ListOutput<O>,
    two: &mut ListOutput<O>,
    out: &mut ListOutput<O>,
) -> ListAnswer
    ensures answers { ListAnswers O.numbers (λ o. stationed station (window_outcome O.LIMITS (recipe_in recipe.entry) begin end (column_in O.numbers inputs.entry.list) (column_in O.numbers inputs.entry.second) (values_in inputs.entry.arguments) (room_in one.old) (room_in two.old) o)) result out.old out.new }
    ensures one { Kept one.old one.new }
    ensures two { Kept two.old two.new }
{
    if station > 15 {
        return Err(Refusal::NoSuchStation);
    }
    let first = recipe_refusal::refusal(recipe, inputs);
    let n = inputs.list.row_count();
    window::refusal_after(first, begin, end, n)?;
    take_steps(begin, end, recipe, inputs, one, two, out)
}

// Checks the recipe, the columns and whether rows begin up to end are there, and takes the steps on these rows: the same call, for no station.
pub fn attempt<O: Offset>(
    begin: usize,
    end: usize,
    recipe: Recipe,
    inputs: Inputs<O>,
    one: &mut ListOutput<O>,
    two: &mut ListOutput<O>,
    out: &mut ListOutput<O>,
) -> ListAnswer
    ensures answers { ListAnswers O.numbers (window_outcome O.LIMITS (recipe_in recipe.entry) begin end (column_in O.numbers inputs.entry.list) (column_in O.numbers inputs.entry.second) (values_in inputs.entry.arguments) (room_in one.old) (room_in two.old)) result out.old out.new }
    ensures one { Kept one.old one.new }
    ensures two { Kept two.old two.new }
{
    attempt_at_station(0, begin, end, recipe, inputs, one, two, out)
}
