// The entries of `duthlan::windowed` for C programs: each calls the function of its name there, and states its clauses again.
// bindings/entries writes this file.
ghost use Rattle.model.specs.Basics.{given};
ghost use Rattle.model.specs.Contract.{Clears, room_of};
ghost use Rattle.model.specs.Inner.{lent_arguments_from, lent_from};
ghost use Rattle.model.specs.Limits.{narrow};
ghost use Rattle.recipe_refusal.specs.Refused.{recipe};
ghost use Rattle.typed.specs.Flat.{window_lent};
ghost use Rattle.typed.specs.Typed.{ListServed};

#[unsafe(no_mangle)]
#[rattlefmt::skip]
pub extern "C" fn duthlan_typed_recipe_rows<'a, 'o>(
    begin: usize, end: usize, numbers: &'a [u32], columns: usize,
    offsets: &'a [i32], rows: &'a [u8], rows_start: usize, values: &'a [i64], elements: &'a [u8], elements_start: usize,
    second_offsets: &'a [i32], second_rows: &'a [u8], second_rows_start: usize, second_values: &'a [i64], second_elements: &'a [u8], second_elements_start: usize,
    arguments: &'a [i64], argument_bits: &'a [u8], argument_start: usize,
    one_offsets: &'o mut [i32], one_rows: &'o mut [u8], one_values: &'o mut [i64], one_elements: &'o mut [u8],
    two_offsets: &'o mut [i32], two_rows: &'o mut [u8], two_values: &'o mut [i64], two_elements: &'o mut [u8],
    out_offsets: &'o mut [i32], out_rows: &'o mut [u8], out_values: &'o mut [i64], out_elements: &'o mut [u8],
    counts: &mut [u64],
) -> u32
    ensures list_served { ListServed (given (window_lent narrow begin end (recipe numbers.entry.now columns) (lent_from offsets rows rows_start values elements elements_start) (lent_from second_offsets second_rows second_rows_start second_values second_elements second_elements_start) (lent_arguments_from arguments argument_bits argument_start) (room_of one_offsets one_rows one_values one_elements) (room_of two_offsets two_rows two_values two_elements))) result out_offsets out_rows out_values out_elements counts }
    ensures clears { Clears one_offsets one_rows one_values one_elements }
    ensures clears_2 { Clears two_offsets two_rows two_values two_elements }
{
    duthlan::windowed::duthlan_typed_recipe_rows(
        begin, end, numbers, columns,
        offsets, rows, rows_start, values, elements, elements_start,
        second_offsets, second_rows, second_rows_start, second_values, second_elements, second_elements_start,
        arguments, argument_bits, argument_start,
        one_offsets, one_rows, one_values, one_elements,
        two_offsets, two_rows, two_values, two_elements,
        out_offsets, out_rows, out_values, out_elements,
        counts,
    )
}
