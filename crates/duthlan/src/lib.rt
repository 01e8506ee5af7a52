// The typed C entries: slices of numbers as they lie, a pointer and a length in numbers for C, of any length. The answer is 0 where the
// call is accepted, with its counts at the front of `counts`; the operation's own number where it is refused; and 100, the entries' only
// number of their own, before all else, for an operation code that the entry does not serve or a `counts` (of a recipe, also a `tally`)
// with too few places. Whatever is refused changes no place of the outputs and the counts. Each bitmap is followed by its starting bit.
// Beside each stands how much to lend for it (`.._lengths`, and `.._limits` of a recipe): the refusal that the call would give before 9, or
// the lengths of its output slices, in their order, at the front of `lengths`; nothing else is written.
#![tactic(auto)]

pub mod grade;
pub mod hash;
pub mod lengths;
pub mod view;
pub mod windowed;

ghost use Rattle.entry_codes.specs.Calls.{one_call, set_call};
ghost use Rattle.model.specs.Contract.{Clears, room_of};
ghost use Rattle.model.specs.Inner.{lent_arguments_from, lent_from};
ghost use Rattle.model.specs.Limits.{narrow};
ghost use Rattle.model.specs.Outcome.{any_value_outcome, element_outcome, repeat_outcome};
ghost use Rattle.recipe_refusal.specs.Refused.{recipe};
ghost use Rattle.typed.specs.Flat.{recipe_lent};
ghost use Rattle.typed.specs.Tallies.{RecipeServed};
ghost use Rattle.typed.specs.Typed.{ListServed, RepeatServed, ValueServed};

use column::elements::ValueOutput;
use column::lists::{ListOutput, OuterOutput};
use recipe_refusal::{Inputs, Recipe};
use typed::{calls, columns, stations};

// An operation on one list, by its code: reverse (0), distinct (1), pop front (2), pop back (3), slice (4), slice without stride (5),
// resize (6), replace (7), remove (8), resize without fill (11). Of the three argument columns it looks at those that the operation takes.
#[unsafe(no_mangle)]
#[rattlefmt::skip]
pub extern "C" fn duthlan_typed_list<'a, 'o>(
    op: u32,
    offsets: &'a [i32], rows: &'a [u8], rows_start: usize, values: &'a [i64], elements: &'a [u8], elements_start: usize,
    first: &'a [i64], first_bits: &'a [u8], first_start: usize,
    second: &'a [i64], second_bits: &'a [u8], second_start: usize,
    third: &'a [i64], third_bits: &'a [u8], third_start: usize,
    out_offsets: &'o mut [i32], out_rows: &'o mut [u8], out_values: &'o mut [i64], out_elements: &'o mut [u8],
    counts: &mut [u64],
) -> u32
    ensures { ListServed (one_call narrow op (lent_from offsets rows rows_start values elements elements_start) (lent_arguments_from first first_bits first_start) (lent_arguments_from second second_bits second_start) (lent_arguments_from third third_bits third_start)) result out_offsets out_rows out_values out_elements counts }
{
    let list = columns::list(offsets, rows, rows_start, values, elements, elements_start);
    let first = columns::values(first, first_bits, first_start);
    let second = columns::values(second, second_bits, second_start);
    let third = columns::values(third, third_bits, third_start);
    let mut written = ValueOutput { values: out_values, bits: out_elements };
    let mut out = ListOutput { offsets: out_offsets, rows: out_rows, elements: &mut written };
    calls::list(op, list, first, second, third, &mut out, counts)
}

// An operation on two lists, by its code: union (9), intersect (10).
#[unsafe(no_mangle)]
#[rattlefmt::skip]
pub extern "C" fn duthlan_typed_lists<'a, 'o>(
    op: u32,
    l_offsets: &'a [i32], l_rows: &'a [u8], l_rows_start: usize, l_values: &'a [i64], l_elements: &'a [u8], l_elements_start: usize,
    r_offsets: &'a [i32], r_rows: &'a [u8], r_rows_start: usize, r_values: &'a [i64], r_elements: &'a [u8], r_elements_start: usize,
    out_offsets: &'o mut [i32], out_rows: &'o mut [u8], out_values: &'o mut [i64], out_elements: &'o mut [u8],
    counts: &mut [u64],
) -> u32
    ensures { ListServed (set_call narrow op (lent_from l_offsets l_rows l_rows_start l_values l_elements l_elements_start) (lent_from r_offsets r_rows r_rows_start r_values r_elements r_elements_start)) result out_offsets out_rows out_values out_elements counts }
{
    let left = columns::list(l_offsets, l_rows, l_rows_start, l_values, l_elements, l_elements_start);
    let right = columns::list(r_offsets, r_rows, r_rows_start, r_values, r_elements, r_elements_start);
    let mut written = ValueOutput { values: out_values, bits: out_elements };
    let mut out = ListOutput { offsets: out_offsets, rows: out_rows, elements: &mut written };
    calls::lists(op, left, right, &mut out, counts)
}

// The first valid element of each row.
#[unsafe(no_mangle)]
#[rattlefmt::skip]
pub extern "C" fn duthlan_typed_any_value<'a, 'o>(
    offsets: &'a [i32], rows: &'a [u8], rows_start: usize, values: &'a [i64], elements: &'a [u8], elements_start: usize,
    out_values: &'o mut [i64], out_rows: &'o mut [u8],
    counts: &mut [u64],
) -> u32
    ensures { ValueServed (any_value_outcome (lent_from offsets rows rows_start values elements elements_start)) result out_values out_rows counts }
{
    let list = columns::list(offsets, rows, rows_start, values, elements, elements_start);
    let mut out = ValueOutput { values: out_values, bits: out_rows };
    calls::any_value(list, &mut out, counts)
}

// The element of each row that its index names.
#[unsafe(no_mangle)]
#[rattlefmt::skip]
pub extern "C" fn duthlan_typed_element<'a, 'o>(
    offsets: &'a [i32], rows: &'a [u8], rows_start: usize, values: &'a [i64], elements: &'a [u8], elements_start: usize,
    indexes: &'a [i64], index_bits: &'a [u8], index_start: usize,
    out_values: &'o mut [i64], out_rows: &'o mut [u8],
    counts: &mut [u64],
) -> u32
    ensures { ValueServed (element_outcome narrow (lent_from offsets rows rows_start values elements elements_start) (lent_arguments_from indexes index_bits index_start)) result out_values out_rows counts }
{
    let list = columns::list(offsets, rows, rows_start, values, elements, elements_start);
    let indexes = columns::values(indexes, index_bits, index_start);
    let mut out = ValueOutput { values: out_values, bits: out_rows };
    calls::element(list, indexes, &mut out, counts)
}

// Each list as many times as its count says.
#[unsafe(no_mangle)]
#[rattlefmt::skip]
pub extern "C" fn duthlan_typed_list_repeat<'a, 'o>(
    offsets: &'a [i32], rows: &'a [u8], rows_start: usize, values: &'a [i64], elements: &'a [u8], elements_start: usize,
    times: &'a [i64], times_bits: &'a [u8], times_start: usize,
    out_offsets: &'o mut [i32], out_rows: &'o mut [u8],
    inner_offsets: &'o mut [i32], inner_rows: &'o mut [u8],
    out_values: &'o mut [i64], out_elements: &'o mut [u8],
    counts: &mut [u64],
) -> u32
    ensures { RepeatServed (repeat_outcome narrow (lent_from offsets rows rows_start values elements elements_start) (lent_arguments_from times times_bits times_start)) result out_offsets out_rows inner_offsets inner_rows out_values out_elements counts }
{
    let list = columns::list(offsets, rows, rows_start, values, elements, elements_start);
    let times = columns::values(times, times_bits, times_start);
    let mut out = OuterOutput { offsets: out_offsets, rows: out_rows };
    let mut written = ValueOutput { values: out_values, bits: out_elements };
    let mut inner = ListOutput { offsets: inner_offsets, rows: inner_rows, elements: &mut written };
    calls::list_repeat(list, times, &mut out, &mut inner, counts)
}

// A recipe for a station, 0 to 15: its numbers, four a step, on the first list; the second list serves union and intersect; as many
// argument columns as `columns` says. The two trays are zero afterwards, whatever comes. The tally is the first 32 places of `tally`: the
// finished counts of stations 0 to 15, then their refused counts; a call that gets 100 is not counted.
#[unsafe(no_mangle)]
#[rattlefmt::skip]
pub extern "C" fn duthlan_typed_recipe<'a, 'o>(
    station: u32, numbers: &'a [u32], columns: usize,
    offsets: &'a [i32], rows: &'a [u8], rows_start: usize, values: &'a [i64], elements: &'a [u8], elements_start: usize,
    second_offsets: &'a [i32], second_rows: &'a [u8], second_rows_start: usize, second_values: &'a [i64], second_elements: &'a [u8], second_elements_start: usize,
    arguments: &'a [i64], argument_bits: &'a [u8], argument_start: usize,
    one_offsets: &'o mut [i32], one_rows: &'o mut [u8], one_values: &'o mut [i64], one_elements: &'o mut [u8],
    two_offsets: &'o mut [i32], two_rows: &'o mut [u8], two_values: &'o mut [i64], two_elements: &'o mut [u8],
    out_offsets: &'o mut [i32], out_rows: &'o mut [u8], out_values: &'o mut [i64], out_elements: &'o mut [u8],
    counts: &mut [u64], tally: &mut [u64],
) -> u32
    ensures recipe_served { RecipeServed station (recipe_lent narrow station (recipe numbers.entry.now columns) (lent_from offsets rows rows_start values elements elements_start) (lent_from second_offsets second_rows second_rows_start second_values second_elements second_elements_start) (lent_arguments_from arguments argument_bits argument_start) (room_of one_offsets one_rows one_values one_elements) (room_of two_offsets two_rows two_values two_elements)) result out_offsets out_rows out_values out_elements counts tally }
    ensures clears { Clears one_offsets one_rows one_values one_elements }
    ensures clears_2 { Clears two_offsets two_rows two_values two_elements }
{
    let recipe = Recipe { numbers, columns };
    let list = columns::list(offsets, rows, rows_start, values, elements, elements_start);
    let second = columns::list(second_offsets, second_rows, second_rows_start, second_values, second_elements, second_elements_start);
    let arguments = columns::values(arguments, argument_bits, argument_start);
    let inputs = Inputs { list, second, arguments };
    let mut one_written = ValueOutput { values: one_values, bits: one_elements };
    let mut one = ListOutput { offsets: one_offsets, rows: one_rows, elements: &mut one_written };
    let mut two_written = ValueOutput { values: two_values, bits: two_elements };
    let mut two = ListOutput { offsets: two_offsets, rows: two_rows, elements: &mut two_written };
    let mut written = ValueOutput { values: out_values, bits: out_elements };
    let mut out = ListOutput { offsets: out_offsets, rows: out_rows, elements: &mut written };
    stations::recipe(station, recipe, inputs, &mut one, &mut two, &mut out, counts, tally)
}
