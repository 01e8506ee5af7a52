// The entries of `duthlan_large` for C programs: each calls the function of its name there, and states its clauses again.
// bindings/entries writes this file.
#![tactic(auto)]

pub mod lengths;

ghost use Rattle.entry_codes.specs.Calls.{one_call, set_call};
ghost use Rattle.model.specs.Contract.{Clears, room_of};
ghost use Rattle.model.specs.Inner.{lent_arguments_from, lent_from};
ghost use Rattle.model.specs.Limits.{wide};
ghost use Rattle.model.specs.Outcome.{any_value_outcome, element_outcome, repeat_outcome};
ghost use Rattle.recipe_refusal.specs.Refused.{recipe};
ghost use Rattle.typed.specs.Flat.{recipe_lent};
ghost use Rattle.typed.specs.Tallies.{RecipeServed};
ghost use Rattle.typed.specs.Typed.{ListServed, RepeatServed, ValueServed};

#[unsafe(no_mangle)]
#[rattlefmt::skip]
pub extern "C" fn duthlan_large_list<'a, 'o>(
    op: u32,
    offsets: &'a [i64], rows: &'a [u8], rows_start: usize, values: &'a [i64], elements: &'a [u8], elements_start: usize,
    first: &'a [i64], first_bits: &'a [u8], first_start: usize,
    second: &'a [i64], second_bits: &'a [u8], second_start: usize,
    third: &'a [i64], third_bits: &'a [u8], third_start: usize,
    out_offsets: &'o mut [i64], out_rows: &'o mut [u8], out_values: &'o mut [i64], out_elements: &'o mut [u8],
    counts: &mut [u64],
) -> u32
    ensures { ListServed (one_call wide op (lent_from offsets rows rows_start values elements elements_start) (lent_arguments_from first first_bits first_start) (lent_arguments_from second second_bits second_start) (lent_arguments_from third third_bits third_start)) result out_offsets out_rows out_values out_elements counts }
{
    duthlan_large::duthlan_large_list(
        op,
        offsets, rows, rows_start, values, elements, elements_start,
        first, first_bits, first_start,
        second, second_bits, second_start,
        third, third_bits, third_start,
        out_offsets, out_rows, out_values, out_elements,
        counts,
    )
}

#[unsafe(no_mangle)]
#[rattlefmt::skip]
pub extern "C" fn duthlan_large_lists<'a, 'o>(
    op: u32,
    l_offsets: &'a [i64], l_rows: &'a [u8], l_rows_start: usize, l_values: &'a [i64], l_elements: &'a [u8], l_elements_start: usize,
    r_offsets: &'a [i64], r_rows: &'a [u8], r_rows_start: usize, r_values: &'a [i64], r_elements: &'a [u8], r_elements_start: usize,
    out_offsets: &'o mut [i64], out_rows: &'o mut [u8], out_values: &'o mut [i64], out_elements: &'o mut [u8],
    counts: &mut [u64],
) -> u32
    ensures { ListServed (set_call wide op (lent_from l_offsets l_rows l_rows_start l_values l_elements l_elements_start) (lent_from r_offsets r_rows r_rows_start r_values r_elements r_elements_start)) result out_offsets out_rows out_values out_elements counts }
{
    duthlan_large::duthlan_large_lists(
        op,
        l_offsets, l_rows, l_rows_start, l_values, l_elements, l_elements_start,
        r_offsets, r_rows, r_rows_start, r_values, r_elements, r_elements_start,
        out_offsets, out_rows, out_values, out_elements,
        counts,
    )
}

#[unsafe(no_mangle)]
#[rattlefmt::skip]
pub extern "C" fn duthlan_large_any_value<'a, 'o>(
    offsets: &'a [i64], rows: &'a [u8], rows_start: usize, values: &'a [i64], elements: &'a [u8], elements_start: usize,
    out_values: &'o mut [i64], out_rows: &'o mut [u8],
    counts: &mut [u64],
) -> u32
    ensures { ValueServed (any_value_outcome (lent_from offsets rows rows_start values elements elements_start)) result out_values out_rows counts }
{
    duthlan_large::duthlan_large_any_value(
        offsets, rows, rows_start, values, elements, elements_start,
        out_values, out_rows,
        counts,
    )
}

#[unsafe(no_mangle)]
#[rattlefmt::skip]
pub extern "C" fn duthlan_large_element<'a, 'o>(
    offsets: &'a [i64], rows: &'a [u8], rows_start: usize, values: &'a [i64], elements: &'a [u8], elements_start: usize,
    indexes: &'a [i64], index_bits: &'a [u8], index_start: usize,
    out_values: &'o mut [i64], out_rows: &'o mut [u8],
    counts: &mut [u64],
) -> u32
    ensures { ValueServed (element_outcome wide (lent_from offsets rows rows_start values elements elements_start) (lent_arguments_from indexes index_bits index_start)) result out_values out_rows counts }
{
    duthlan_large::duthlan_large_element(
        offsets, rows, rows_start, values, elements, elements_start,
        indexes, index_bits, index_start,
        out_values, out_rows,
        counts,
    )
}

#[unsafe(no_mangle)]
#[rattlefmt::skip]
pub extern "C" fn duthlan_large_list_repeat<'a, 'o>(
    offsets: &'a [i64], rows: &'a [u8], rows_start: usize, values: &'a [i64], elements: &'a [u8], elements_start: usize,
    times: &'a [i64], times_bits: &'a [u8], times_start: usize,
    out_offsets: &'o mut [i64], out_rows: &'o mut [u8],
    inner_offsets: &'o mut [i64], inner_rows: &'o mut [u8],
    out_values: &'o mut [i64], out_elements: &'o mut [u8],
    counts: &mut [u64],
) -> u32
    ensures { RepeatServed (repeat_outcome wide (lent_from offsets rows rows_start values elements elements_start) (lent_arguments_from times times_bits times_start)) result out_offsets out_rows inner_offsets inner_rows out_values out_elements counts }
{
    duthlan_large::duthlan_large_list_repeat(
        offsets, rows, rows_start, values, elements, elements_start,
        times, times_bits, times_start,
        out_offsets, out_rows,
        inner_offsets, inner_rows,
        out_values, out_elements,
        counts,
    )
}

#[unsafe(no_mangle)]
#[rattlefmt::skip]
pub extern "C" fn duthlan_large_recipe<'a, 'o>(
    station: u32, numbers: &'a [u32], columns: usize,
    offsets: &'a [i64], rows: &'a [u8], rows_start: usize, values: &'a [i64], elements: &'a [u8], elements_start: usize,
    second_offsets: &'a [i64], second_rows: &'a [u8], second_rows_start: usize, second_values: &'a [i64], second_elements: &'a [u8], second_elements_start: usize,
    arguments: &'a [i64], argument_bits: &'a [u8], argument_start: usize,
    one_offsets: &'o mut [i64], one_rows: &'o mut [u8], one_values: &'o mut [i64], one_elements: &'o mut [u8],
    two_offsets: &'o mut [i64], two_rows: &'o mut [u8], two_values: &'o mut [i64], two_elements: &'o mut [u8],
    out_offsets: &'o mut [i64], out_rows: &'o mut [u8], out_values: &'o mut [i64], out_elements: &'o mut [u8],
    counts: &mut [u64], tally: &mut [u64],
) -> u32
    ensures recipe_served { RecipeServed station (recipe_lent wide station (recipe numbers.entry.now columns) (lent_from offsets rows rows_start values elements elements_start) (lent_from second_offsets second_rows second_rows_start second_values second_elements second_elements_start) (lent_arguments_from arguments argument_bits argument_start) (room_of one_offsets one_rows one_values one_elements) (room_of two_offsets two_rows two_values two_elements)) result out_offsets out_rows out_values out_elements counts tally }
    ensures clears { Clears one_offsets one_rows one_values one_elements }
    ensures clears_2 { Clears two_offsets two_rows two_values two_elements }
{
    duthlan_large::duthlan_large_recipe(
        station, numbers, columns,
        offsets, rows, rows_start, values, elements, elements_start,
        second_offsets, second_rows, second_rows_start, second_values, second_elements, second_elements_start,
        arguments, argument_bits, argument_start,
        one_offsets, one_rows, one_values, one_elements,
        two_offsets, two_rows, two_values, two_elements,
        out_offsets, out_rows, out_values, out_elements,
        counts, tally,
    )
}
