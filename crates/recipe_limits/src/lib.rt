// How many elements a recipe brings at most into its trays and its output.
#![tactic(auto)]

mod limits;

ghost use Rattle.column.specs.Columns.{column_in, values_in};
ghost use Rattle.model.specs.Asked.{asked_recipe};
ghost use Rattle.model.specs.Lengths.{recipe_limits};
ghost use Rattle.recipe_refusal.specs.Refused.{recipe_in};
ghost use Rattle.std.specs.Prelude.{◌≡◌};

use crate::limits::Measured;
use model::offsets::Offset;
use model::{RecipeLimits, TrayElements};
use recipe_refusal::{Inputs, Recipe};

// The most elements that tray one, tray two and the output need for a recipe, from row lengths, validity and arguments alone, or the
// refusal, 10, 13, 1, 2 or 3, that its run would give before its steps. No limit passes the largest offset.
pub fn recipe_limits<O: Offset>(recipe: Recipe, inputs: Inputs<O>) -> RecipeLimits
    ensures { asked_recipe result ≡ recipe_limits O.LIMITS (recipe_in recipe.entry) (column_in O.numbers inputs.entry.list) (column_in O.numbers inputs.entry.second) (values_in inputs.entry.arguments) }
{
    recipe_refusal::refusal(recipe, inputs)?;
    let came = copy_rows::measure_rows(inputs.list);
    let steps = recipe.numbers.len() / 4;
    if steps == 0 {
        return Ok(TrayElements {
            one: 0,
            two: 0,
            output: came,
        });
    }
    let measured = Measured {
        rows: inputs.list.rows,
        row_count: inputs.list.row_count(),
        arguments: inputs.arguments,
        second: copy_rows::measure_rows(inputs.second),
        most: O::LIMITS.offset,
    };
    Ok(measured.steps_limits(recipe.numbers, 0, steps, came))
}
