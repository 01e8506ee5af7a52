// A recipe over bytes whose sizes are right: its inputs decoded, and the recipe run. An inner crate: its callers meet what it asks.
#![tactic(auto)]

ghost use Rattle.std.specs.Prelude.{◌≤◌, length, take, ◌≡◌};
ghost use Rattle.column.specs.Outputs.{Clears, ListAnswers, room_in};
ghost use Rattle.model.specs.Tally.{tallied};
ghost use Rattle.recipe_bytes.specs.Inner.{InputsFit, most_numbers, numbers_taken};
ghost use Rattle.recipe_bytes.specs.Recipe.{recipe_read};
ghost use Rattle.tally.specs.Tallies.{tally_of};
ghost use Rattle.wire.specs.Bytes.{nats};

use column::lists::ListOutput;
use entry::inputs::{ListBytes, ValueBytes};
use entry::sizes;
use recipe_refusal::{Inputs, Recipe};
use tally::{RecipeAnswer, Tally};
use wire::fill;

// Of a recipe: 33 steps, one more than it may have, so that of a longer one these are as malformed as all.
const MOST_NUMBERS: usize = 132;

// Of argument values: eight columns of 4096 rows.
pub const MOST_ARGUMENTS: usize = 32768;

// How many of a recipe's numbers are decoded, of those in so many bytes.
#[tactic(auto, unfolding(crate::specs::Inner::numbers_taken))]
fn numbers_taken(bytes: usize) -> usize
    ensures { result ≡ numbers_taken bytes }
{
    (bytes / 4).min(MOST_NUMBERS)
}

// The recipe's own numbers, decoded at the front of ns.
fn get_numbers(numbers: &[u8], ns: &mut [u32])
    requires { most_numbers ≤ length ns.old }
    ensures { take (numbers_taken (length numbers.now)) ns.new ≡ take (numbers_taken (length numbers.now)) (nats 4 numbers.now) }
{
    let n = numbers_taken(numbers.len());
    fill(&numbers[..n * 4], ns);
}

// A recipe, four bytes a number, and how many argument columns it is lent.
#[derive(Clone, Copy)]
pub struct RecipeBytes<'a> {
    pub numbers: &'a [u8],
    pub columns: u32,
}

// What a recipe reads.
#[derive(Clone, Copy)]
pub struct InputBytes<'a> {
    pub list: ListBytes<'a>,
    pub second: ListBytes<'a>,
    pub arguments: ValueBytes<'a>,
}

// Decodes the recipe and its inputs, and runs it.
pub fn run(
    tally: Tally,
    station: u32,
    recipe: RecipeBytes,
    inputs: InputBytes,
    one: &mut ListOutput<i32>,
    two: &mut ListOutput<i32>,
    out: &mut ListOutput<i32>,
) -> RecipeAnswer
    requires { InputsFit (length inputs.list.offsets.now) (length inputs.list.values.now) (length inputs.second.offsets.now) (length inputs.second.values.now) (length inputs.arguments.values.now) }
    ensures list_answers { ListAnswers (λ l. l) (recipe_read station recipe.entry inputs.entry (room_in one.old) (room_in two.old)) result.answer out.old out.new }
    ensures clears { Clears (λ l. l) one.old one.new }
    ensures clears_2 { Clears (λ l. l) two.old two.new }
    ensures tally_value { tally_of result.tally ≡ tallied station (recipe_read station recipe.entry inputs.entry (room_in one.old) (room_in two.old) (room_in out.old)) (tally_of tally) }
{
    let mut numbers = [0u32; MOST_NUMBERS];
    let mut offsets = [0i32; sizes::MOST_OFFSETS];
    let mut values = [0i64; sizes::MOST_VALUES];
    let mut second_offsets = [0i32; sizes::MOST_OFFSETS];
    let mut second_values = [0i64; sizes::MOST_VALUES];
    let mut arguments = [0i64; MOST_ARGUMENTS];
    get_numbers(recipe.numbers, &mut numbers);
    inputs.list.decode(&mut offsets, &mut values);
    inputs
        .second
        .decode(&mut second_offsets, &mut second_values);
    inputs.arguments.decode(&mut arguments);
    let decoded = Recipe {
        numbers: &numbers[..numbers_taken(recipe.numbers.len())],
        columns: recipe.columns as usize,
    };
    let columns = Inputs {
        list: inputs.list.column(&offsets, &values),
        second: inputs.second.column(&second_offsets, &second_values),
        arguments: inputs.arguments.column(&arguments),
    };
    recipes::run_recipe(tally, station, decoded, columns, one, two, out)
}
