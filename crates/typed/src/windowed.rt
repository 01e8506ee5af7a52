// A recipe looked at for a few rows, told as the number that an entry returns.
ghost use Rattle.column.specs.Columns.{column_in, values_in};
ghost use Rattle.column.specs.Outputs.{Clears, room_in};
ghost use Rattle.model.specs.Basics.{given, pick};
ghost use Rattle.model.specs.Call.{refusal};
ghost use Rattle.model.specs.Contract.{told};
ghost use Rattle.recipe_refusal.specs.Refused.{recipe_in};
ghost use Rattle.typed.specs.Flat.{window_lent};
ghost use Rattle.typed.specs.Typed.{ListServedIn, Told, short};
ghost use Rattle.std.specs.Prelude.{ltb, ◌≡◌};

use crate::put_list;
use column::lists::ListOutput;
use model::ListAnswer;
use model::offsets::Offset;
use recipe_refusal::{Inputs, Recipe};

// The first row that is looked at: where the call cannot be told, it is after the last, so that the call only clears the trays.
pub fn begin_for(counts: usize, begin: usize) -> usize
    ensures { result ≡ pick (ltb counts 4) 1 begin }
{
    if counts < 4 {
        return 1;
    }
    begin
}

pub fn end_for(counts: usize, end: usize) -> usize
    ensures { result ≡ pick (ltb counts 4) 0 end }
{
    if counts < 4 {
        return 0;
    }
    end
}

// Tells the answer; 100 where the counts are too short, which then keep their content.
pub fn settle(answer: ListAnswer, counts: &mut [u64]) -> u32
    ensures { Told (pick (short 4 counts) (refusal 100) (told answer)) result counts.old counts.new }
{
    if counts.len() < 4 {
        return 100;
    }
    put_list(answer, counts)
}

// Rows begin up to, not including, end. It takes eight things: a struct of two outputs that are lent gets no proof where it is made.
pub fn recipe<O: Offset>(
    begin: usize,
    end: usize,
    recipe: Recipe,
    inputs: Inputs<O>,
    one: &mut ListOutput<O>,
    two: &mut ListOutput<O>,
    out: &mut ListOutput<O>,
    counts: &mut [u64],
) -> u32
    ensures list_served { ListServedIn O.numbers (given (window_lent O.LIMITS begin end (recipe_in recipe.entry) (column_in O.numbers inputs.entry.list) (column_in O.numbers inputs.entry.second) (values_in inputs.entry.arguments) (room_in one.old) (room_in two.old))) result out.old out.new counts }
    ensures clears { Clears O.numbers one.old one.new }
    ensures clears_2 { Clears O.numbers two.old two.new }
{
    let first = begin_for(counts.len(), begin);
    let last = end_for(counts.len(), end);
    let answer = windows::run_window(first, last, recipe, inputs, one, two, out);
    settle(answer, counts)
}
