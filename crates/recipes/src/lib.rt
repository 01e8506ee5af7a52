// Recipes: chains of list operations through two lent trays, with a tally. A recipe, a tray and a tally are terms of the rules.
#![tactic(auto)]

ghost use Rattle.column.specs.Outputs.{Clears, ListAnswers, room_in};
ghost use Rattle.model.specs.Tally.{tallied};
ghost use Rattle.recipes.specs.Recipes.{recipe_lent};
ghost use Rattle.std.specs.Prelude.{◌≡◌};
ghost use Rattle.tally.specs.Tallies.{tally_of};

use column::lists::ListOutput;
use model::offsets::Offset;
use recipe_refusal::{Inputs, Recipe};
use tally::{RecipeAnswer, Tally};

// Runs a recipe for a station, 0 to 15: its numbers, four a step, on the first list; the second list serves union and intersect; the
// argument columns, as many as the recipe says, lie one after another in one slice with one bitmap. The trays are zero afterwards, whatever comes.
pub fn run_recipe<O: Offset>(
    tally: Tally,
    station: u32,
    recipe: Recipe,
    inputs: Inputs<O>,
    one: &mut ListOutput<O>,
    two: &mut ListOutput<O>,
    out: &mut ListOutput<O>,
) -> RecipeAnswer
    ensures list_answers { ListAnswers O.numbers (recipe_lent O.numbers O.LIMITS station recipe.entry inputs.entry (room_in one.old) (room_in two.old)) result.answer out.old out.new }
    ensures clears { Clears O.numbers one.old one.new }
    ensures clears_2 { Clears O.numbers two.old two.new }
    ensures tally_value { tally_of result.tally ≡ tallied station (recipe_lent O.numbers O.LIMITS station recipe.entry inputs.entry (room_in one.old) (room_in two.old) (room_in out.old)) (tally_of tally) }
{
    let n = inputs.list.row_count();
    let answer = attempt::attempt_at_station(station, 0, n, recipe, inputs, one, two, out);
    copies::clear(one);
    copies::clear(two);
    tally::settle(tally, station, answer)
}
