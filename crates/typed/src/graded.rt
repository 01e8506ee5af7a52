// Grades of a list column, and of what a recipe makes.
ghost use Rattle.column.specs.Columns.{values_in};
ghost use Rattle.column.specs.Outputs.{Clears, room_in};
ghost use Rattle.grades.specs.Graded.{column_of, numbers};
ghost use Rattle.model.specs.Grade.{grade_outcome};
ghost use Rattle.recipe_refusal.specs.Refused.{recipe_in};
ghost use Rattle.typed.specs.Flat.{graded_lent, graded_tally};
ghost use Rattle.typed.specs.Tallies.{GradedServedIn};
ghost use Rattle.typed.specs.Typed.{GradeServed};

use crate::{put_grade, tallies};
use column::lists::{ListColumn, ListOutput};
use recipe_refusal::{Inputs, Recipe};

pub fn column(k: u64, list: ListColumn<i32>, grades: &mut [u8], counts: &mut [u64]) -> u32
    ensures { GradeServed k (grade_outcome k (column_of list.entry)) result grades counts }
{
    if counts.len() < 1 {
        return 100;
    }
    let answer = grades::grade_column(k, list, grades);
    put_grade(answer, counts)
}

// It takes ten things: a struct of two outputs that are lent gets no proof where it is made.
pub fn recipe(
    k: u64,
    station: u32,
    recipe: Recipe,
    inputs: Inputs<i32>,
    one: &mut ListOutput<i32>,
    two: &mut ListOutput<i32>,
    out: &mut ListOutput<i32>,
    grades: &mut [u8],
    counts: &mut [u64],
    tally: &mut [u64],
) -> u32
    ensures graded_served { GradedServedIn k numbers (graded_lent k grades station (recipe_in recipe.entry) (column_of inputs.entry.list) (column_of inputs.entry.second) (values_in inputs.entry.arguments) (room_in one.old) (room_in two.old)) (graded_tally k grades station (recipe_in recipe.entry) (column_of inputs.entry.list) (column_of inputs.entry.second) (values_in inputs.entry.arguments) (room_in one.old) (room_in two.old)) result out.old out.new grades counts tally }
    ensures clears { Clears numbers one.old one.new }
    ensures clears_2 { Clears numbers two.old two.new }
{
    let before = tallies::get_tally(tally);
    let by = tallies::k_for(counts.len(), tally.len(), k);
    let done = grades::grade_recipe(before, by, station, recipe, inputs, one, two, out, grades);
    tallies::settle(done, counts, tally)
}
