// Grading units, above the library: one grade byte a row, of a list column or of what a recipe makes. Grade 0 is a null row, 1 a row without a
// valid element, 2 one with a run of at least k adjacent valid equal elements, 3 any other.
#![tactic(auto)]

ghost use Rattle.column.specs.Outputs.{Clears, ListAnswers, room_in};
ghost use Rattle.grades.specs.Graded.{column_of, graded_lent, graded_tally, numbers};
ghost use Rattle.model.specs.Contract.{GradeAnswers, GradesLent};
ghost use Rattle.model.specs.Grade.{grade_outcome};
ghost use Rattle.std.specs.Prelude.{◌≡◌};
ghost use Rattle.tally.specs.Tallies.{tally_of};

use column::lists::{ListColumn, ListOutput};
use grade_rows::calls;
use lists::extract;
use model::GradeAnswer;
use recipe_refusal::{Inputs, Recipe};
use tally::{RecipeAnswer, Tally};

// Grades the rows of a list column, and answers how many they are: 12, 9 where there are fewer places for grades than rows, then the
// column's own refusals, as the measure of any-value gives them.
pub fn grade_column(k: u64, list: ListColumn<i32>, grades: &mut [u8]) -> GradeAnswer
    ensures { GradeAnswers k (grade_outcome k (column_of list.entry)) result grades }
{
    calls::early_refusal(k, list.offsets.len(), grades.len())?;
    let lengths = extract::general_array_any_value_lengths(list)?;
    grade_rows::grade_rows(k, list, grades);
    Ok(lengths.values)
}

// Runs a recipe for a station, as `run_recipe` does, and grades what it makes: 12, 9 where there are fewer places for grades than rows of the
// first list, which leave output and tally as they are, then the recipe's own refusals. The trays are zero afterwards, whatever comes. It takes
// nine things: a struct of two outputs that are lent gets no proof where it is made.
pub fn grade_recipe(
    tally: Tally,
    k: u64,
    station: u32,
    recipe: Recipe,
    inputs: Inputs<i32>,
    one: &mut ListOutput<i32>,
    two: &mut ListOutput<i32>,
    out: &mut ListOutput<i32>,
    grades: &mut [u8],
) -> RecipeAnswer
    ensures list_answers { ListAnswers numbers (graded_lent k grades station recipe.entry inputs.entry (room_in one.old) (room_in two.old)) result.answer out.old out.new }
    ensures clears { Clears numbers one.old one.new }
    ensures clears_2 { Clears numbers two.old two.new }
    ensures tally_value { tally_of result.tally ≡ graded_tally k grades station recipe.entry inputs.entry (room_in one.old) (room_in two.old) (room_in out.old) (tally_of tally) }
    ensures grades_lent { GradesLent k (graded_lent k grades station recipe.entry inputs.entry (room_in one.old) (room_in two.old) (room_in out.old)) grades }
{
    let early = calls::early_refusal(k, inputs.list.offsets.len(), grades.len());
    let station = calls::station_for(early, station);
    let done = recipes::run_recipe(tally, station, recipe, inputs, one, two, out);
    let answer = calls::answer_for(early, done.answer);
    grade_rows::grade_front(k, answer, out, grades);
    RecipeAnswer {
        answer,
        tally: done.tally,
    }
}
