// A recipe run for a station, its answer told and its tally put.
ghost use Rattle.column.specs.Columns.{column_in, values_in};
ghost use Rattle.column.specs.Outputs.{Clears, room_in};
ghost use Rattle.recipe_refusal.specs.Refused.{recipe_in};
ghost use Rattle.typed.specs.Flat.{recipe_lent};
ghost use Rattle.typed.specs.Tallies.{RecipeServedIn};

use crate::tallies;
use column::lists::ListOutput;
use model::offsets::Offset;
use recipe_refusal::{Inputs, Recipe};

// It takes eight things: a struct of two outputs that are lent gets no proof where it is made.
pub fn recipe<O: Offset>(
    station: u32,
    recipe: Recipe,
    inputs: Inputs<O>,
    one: &mut ListOutput<O>,
    two: &mut ListOutput<O>,
    out: &mut ListOutput<O>,
    counts: &mut [u64],
    tally: &mut [u64],
) -> u32
    ensures recipe_served { RecipeServedIn O.numbers station (recipe_lent O.LIMITS station (recipe_in recipe.entry) (column_in O.numbers inputs.entry.list) (column_in O.numbers inputs.entry.second) (values_in inputs.entry.arguments) (room_in one.old) (room_in two.old)) result out.old out.new counts tally }
    ensures clears { Clears O.numbers one.old one.new }
    ensures clears_2 { Clears O.numbers two.old two.new }
{
    let before = tallies::get_tally(tally);
    let named = tallies::station_for(counts.len(), tally.len(), station);
    let done = recipes::run_recipe(before, named, recipe, inputs, one, two, out);
    tallies::settle(done, counts, tally)
}
