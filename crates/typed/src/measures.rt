// How much to lend for each of the calls, told; 100 as for the call.
ghost use Rattle.column.specs.Columns.{column_in, values_in};
ghost use Rattle.entry_codes.specs.Calls.{one_lengths, set_lengths};
ghost use Rattle.model.specs.Basics.{given};
ghost use Rattle.model.specs.Call.{limit_counts, repeat_room_counts, room_counts, value_room_counts};
ghost use Rattle.model.specs.Lengths.{any_value_lengths, element_lengths, recipe_limits, repeat_lengths};
ghost use Rattle.recipe_refusal.specs.Refused.{recipe_in};
ghost use Rattle.typed.specs.Typed.{LengthsServed};

use crate::lengths::{put_limits, put_list, put_repeat, put_values};
use column::elements::ValueColumn;
use column::lists::ListColumn;
use entry_codes::{one_of, set_of};
use lists::{extract, repeat, set_ops};
use model::offsets::Offset;
use recipe_refusal::{Inputs, Recipe};

pub fn list<O: Offset>(
    op: u32,
    list: ListColumn<O>,
    first: ValueColumn,
    second: ValueColumn,
    third: ValueColumn,
    lengths: &mut [u64],
) -> u32
    ensures { LengthsServed room_counts 4 (one_lengths O.LIMITS op (column_in O.numbers list.entry) (values_in first.entry) (values_in second.entry) (values_in third.entry)) result lengths }
{
    let named = one_of(op);
    let Some(operation) = named else {
        return 100;
    };
    if lengths.len() < 4 {
        return 100;
    }
    let answer = list_walk::lengths(operation, list, first, second, third);
    put_list(answer, lengths)
}

pub fn lists<O: Offset>(
    op: u32,
    left: ListColumn<O>,
    right: ListColumn<O>,
    lengths: &mut [u64],
) -> u32
    ensures { LengthsServed room_counts 4 (set_lengths O.LIMITS op (column_in O.numbers left.entry) (column_in O.numbers right.entry)) result lengths }
{
    let named = set_of(op);
    let Some(operation) = named else {
        return 100;
    };
    if lengths.len() < 4 {
        return 100;
    }
    let answer = set_ops::generic_set_lists_lengths(left, right, operation);
    put_list(answer, lengths)
}

pub fn any_value<O: Offset>(list: ListColumn<O>, lengths: &mut [u64]) -> u32
    ensures { LengthsServed value_room_counts 2 (given (any_value_lengths (column_in O.numbers list.entry))) result lengths }
{
    if lengths.len() < 2 {
        return 100;
    }
    let answer = extract::general_array_any_value_lengths(list);
    put_values(answer, lengths)
}

pub fn element<O: Offset>(list: ListColumn<O>, indexes: ValueColumn, lengths: &mut [u64]) -> u32
    ensures { LengthsServed value_room_counts 2 (given (element_lengths O.LIMITS (column_in O.numbers list.entry) (values_in indexes.entry))) result lengths }
{
    if lengths.len() < 2 {
        return 100;
    }
    let answer = extract::general_array_element_lengths(list, indexes);
    put_values(answer, lengths)
}

pub fn list_repeat<O: Offset>(list: ListColumn<O>, times: ValueColumn, lengths: &mut [u64]) -> u32
    ensures { LengthsServed repeat_room_counts 6 (given (repeat_lengths O.LIMITS (column_in O.numbers list.entry) (values_in times.entry))) result lengths }
{
    if lengths.len() < 6 {
        return 100;
    }
    let answer = repeat::general_list_repeat_lengths(list, times);
    put_repeat(answer, lengths)
}

// The limits of a recipe.
pub fn recipe<O: Offset>(recipe: Recipe, inputs: Inputs<O>, limits: &mut [u64]) -> u32
    ensures { LengthsServed limit_counts 3 (given (recipe_limits O.LIMITS (recipe_in recipe.entry) (column_in O.numbers inputs.entry.list) (column_in O.numbers inputs.entry.second) (values_in inputs.entry.arguments))) result limits }
{
    if limits.len() < 3 {
        return 100;
    }
    let answer = recipe_limits::recipe_limits(recipe, inputs);
    put_limits(answer, limits)
}
