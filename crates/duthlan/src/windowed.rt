// A recipe looked at for a few rows.
ghost use Rattle.model.specs.Basics.{given};
ghost use Rattle.model.specs.Contract.{Clears, room_of};
ghost use Rattle.model.specs.Inner.{lent_arguments_from, lent_from};
ghost use Rattle.model.specs.Limits.{narrow};
ghost use Rattle.recipe_refusal.specs.Refused.{recipe};
ghost use Rattle.typed.specs.Flat.{window_lent};
ghost use Rattle.typed.specs.Typed.{ListServed};

use column::elements::ValueOutput;
use column::lists::ListOutput;
use recipe_refusal::{Inputs, Recipe};
use typed::{columns, windowed};

// A recipe's result for rows begin up to, not including, end; all else is as for `duthlan_typed_recipe`, but that no station is named and no tally
// moves. The two trays are zero afterwards, whatever comes.
#[unsafe(no_mangle)]
#[rattlefmt::skip]
pub extern "C" fn duthlan_typed_recipe_rows<'a, 'o>(
    begin: usize, end: usize, numbers: &'a [u32], columns: usize,
    offsets: &'a [i32], rows: &'a [u8], rows_start: usize, values: &'a [i64], elements: &'a [u8], elements_start: usize,
    second_offsets: &'a [i32], second_rows: &'a [u8], second_rows_start: usize, second_values: &'a [i64], second_elements: &'a [u8], second_elements_start: usize,
    arguments: &'a [i64], argument_bits: &'a [u8], argument_start: usize,
    one_offsets: &'o mut [i32], one_rows: &'o mut [u8], one_values: &'o mut [i64], one_elements: &'o mut [u8],
    two_offsets: &'o mut [i32], two_rows: &'o mut [u8], two_values: &'o mut [i64], two_elements: &'o mut [u8],
    out_offsets: &'o mut [i32], out_rows: &'o mut [u8], out_values: &'o mut [i64], out_elements: &'o mut [u8],
    counts: &mut [u64],
) -> u32
    ensures list_served { ListServed (given (window_lent narrow begin end (recipe numbers.entry.now columns) (lent_from offsets rows rows_start values elements elements_start) (lent_from second_offsets second_rows second_rows_start second_values second_elements second_elements_start) (lent_arguments_from arguments argument_bits argument_start) (room_of one_offsets one_rows one_values one_elements) (room_of two_offsets two_rows two_values two_elements))) result out_offsets out_rows out_values out_elements counts }
    ensures clears { Clears one_offsets one_rows one_values one_elements }
    ensures clears_2 { Clears two_offsets two_rows two_values two_elements }
{
    let recipe = Recipe { numbers, columns };
    let list = columns::list(offsets, rows, rows_start, values, elements, elements_start);
    let second = columns::list(second_offsets, second_rows, second_rows_start, second_values, second_elements, second_elements_start);
    let arguments = columns::values(arguments, argument_bits, argument_start);
    let inputs = Inputs { list, second, arguments };
    let mut one_written = ValueOutput { values: one_values, bits: one_elements };
    let mut one = ListOutput { offsets: one_offsets, rows: one_rows, elements: &mut one_written };
    let mut two_written = ValueOutput { values: two_values, bits: two_elements };
    let mut two = ListOutput { offsets: two_offsets, rows: two_rows, elements: &mut two_written };
    let mut written = ValueOutput { values: out_values, bits: out_elements };
    let mut out = ListOutput { offsets: out_offsets, rows: out_rows, elements: &mut written };
    windowed::recipe(begin, end, recipe, inputs, &mut one, &mut two, &mut out, counts)
}
