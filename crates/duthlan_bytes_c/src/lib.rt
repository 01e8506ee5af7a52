// The entries of `duthlan_bytes` for C programs: each calls the function of its name there, and states its clauses again.
// bindings/entries writes this file.
#![tactic(auto)]

ghost use Rattle.entry.specs.Entry.{ListEntry, ValueEntry, decoded_arguments_from, decoded_from, list_sizes, size, value_sizes};
ghost use Rattle.entry_codes.specs.Calls.{set_call, unary_call, with_call};
ghost use Rattle.entry_recipe.specs.Recipe.{RecipeEntry, pair_sizes, recipe_sizes};
ghost use Rattle.entry_repeat.specs.Repeat.{RepeatEntry};
ghost use Rattle.model.specs.Basics.{given};
ghost use Rattle.model.specs.Limits.{narrow};
ghost use Rattle.model.specs.Outcome.{any_value_outcome, element_outcome, repeat_outcome};
ghost use Rattle.recipe_bytes.specs.Recipe.{recipe_in};
ghost use Rattle.std.specs.Prelude.{◌++◌};

#[unsafe(no_mangle)]
pub extern "C" fn duthlan_bytes_list(
    op: u32,
    offsets: &[u8],
    rows: &[u8],
    rows_start: u32,
    values: &[u8],
    elements: &[u8],
    elements_start: u32,
    out_offsets: &mut [u8],
    out_rows: &mut [u8],
    out_values: &mut [u8],
    out_elements: &mut [u8],
    counts: &mut [u8],
) -> u32
    ensures { ListEntry (unary_call op (decoded_from offsets rows rows_start values elements elements_start)) (list_sizes (size offsets) (size values)) result out_offsets out_rows out_values out_elements counts }
{
    duthlan_bytes::duthlan_bytes_list(
        op,
        offsets,
        rows,
        rows_start,
        values,
        elements,
        elements_start,
        out_offsets,
        out_rows,
        out_values,
        out_elements,
        counts,
    )
}

#[unsafe(no_mangle)]
#[rattlefmt::skip]
pub extern "C" fn duthlan_bytes_list_with(
    op: u32,
    offsets: &[u8], rows: &[u8], rows_start: u32, values: &[u8], elements: &[u8], elements_start: u32,
    first: &[u8], first_bits: &[u8], first_start: u32,
    second: &[u8], second_bits: &[u8], second_start: u32,
    third: &[u8], third_bits: &[u8], third_start: u32,
    out_offsets: &mut [u8], out_rows: &mut [u8], out_values: &mut [u8], out_elements: &mut [u8],
    counts: &mut [u8],
) -> u32
    ensures { ListEntry (with_call op (decoded_from offsets rows rows_start values elements elements_start) (decoded_arguments_from first first_bits first_start) (decoded_arguments_from second second_bits second_start) (decoded_arguments_from third third_bits third_start)) (list_sizes (size offsets) (size values) ++ (value_sizes (size first) ++ (value_sizes (size second) ++ value_sizes (size third)))) result out_offsets out_rows out_values out_elements counts }
{
    duthlan_bytes::duthlan_bytes_list_with(
        op,
        offsets, rows, rows_start, values, elements, elements_start,
        first, first_bits, first_start,
        second, second_bits, second_start,
        third, third_bits, third_start,
        out_offsets, out_rows, out_values, out_elements,
        counts,
    )
}

#[unsafe(no_mangle)]
#[rattlefmt::skip]
pub extern "C" fn duthlan_bytes_lists(
    op: u32,
    l_offsets: &[u8], l_rows: &[u8], l_rows_start: u32, l_values: &[u8], l_elements: &[u8], l_elements_start: u32,
    r_offsets: &[u8], r_rows: &[u8], r_rows_start: u32, r_values: &[u8], r_elements: &[u8], r_elements_start: u32,
    out_offsets: &mut [u8], out_rows: &mut [u8], out_values: &mut [u8], out_elements: &mut [u8],
    counts: &mut [u8],
) -> u32
    ensures { ListEntry (set_call narrow op (decoded_from l_offsets l_rows l_rows_start l_values l_elements l_elements_start) (decoded_from r_offsets r_rows r_rows_start r_values r_elements r_elements_start)) (list_sizes (size l_offsets) (size l_values) ++ list_sizes (size r_offsets) (size r_values)) result out_offsets out_rows out_values out_elements counts }
{
    duthlan_bytes::duthlan_bytes_lists(
        op,
        l_offsets, l_rows, l_rows_start, l_values, l_elements, l_elements_start,
        r_offsets, r_rows, r_rows_start, r_values, r_elements, r_elements_start,
        out_offsets, out_rows, out_values, out_elements,
        counts,
    )
}

#[unsafe(no_mangle)]
pub extern "C" fn duthlan_bytes_any_value(
    offsets: &[u8],
    rows: &[u8],
    rows_start: u32,
    values: &[u8],
    elements: &[u8],
    elements_start: u32,
    out_values: &mut [u8],
    out_rows: &mut [u8],
    counts: &mut [u8],
) -> u32
    ensures { ValueEntry (given (any_value_outcome (decoded_from offsets rows rows_start values elements elements_start))) (list_sizes (size offsets) (size values)) result out_values out_rows counts }
{
    duthlan_bytes::duthlan_bytes_any_value(
        offsets,
        rows,
        rows_start,
        values,
        elements,
        elements_start,
        out_values,
        out_rows,
        counts,
    )
}

#[unsafe(no_mangle)]
pub extern "C" fn duthlan_bytes_element(
    offsets: &[u8],
    rows: &[u8],
    rows_start: u32,
    values: &[u8],
    elements: &[u8],
    elements_start: u32,
    indexes: &[u8],
    index_bits: &[u8],
    index_start: u32,
    out_values: &mut [u8],
    out_rows: &mut [u8],
    counts: &mut [u8],
) -> u32
    ensures { ValueEntry (given (element_outcome narrow (decoded_from offsets rows rows_start values elements elements_start) (decoded_arguments_from indexes index_bits index_start))) (list_sizes (size offsets) (size values) ++ value_sizes (size indexes)) result out_values out_rows counts }
{
    duthlan_bytes::duthlan_bytes_element(
        offsets,
        rows,
        rows_start,
        values,
        elements,
        elements_start,
        indexes,
        index_bits,
        index_start,
        out_values,
        out_rows,
        counts,
    )
}

#[unsafe(no_mangle)]
#[rattlefmt::skip]
pub extern "C" fn duthlan_bytes_list_repeat(
    offsets: &[u8], rows: &[u8], rows_start: u32, values: &[u8], elements: &[u8], elements_start: u32,
    times: &[u8], times_bits: &[u8], times_start: u32,
    out_offsets: &mut [u8], out_rows: &mut [u8],
    inner_offsets: &mut [u8], inner_rows: &mut [u8],
    out_values: &mut [u8], out_elements: &mut [u8],
    counts: &mut [u8],
) -> u32
    ensures { RepeatEntry (given (repeat_outcome narrow (decoded_from offsets rows rows_start values elements elements_start) (decoded_arguments_from times times_bits times_start))) (list_sizes (size offsets) (size values) ++ value_sizes (size times)) result out_offsets out_rows inner_offsets inner_rows out_values out_elements counts }
{
    duthlan_bytes::duthlan_bytes_list_repeat(
        offsets, rows, rows_start, values, elements, elements_start,
        times, times_bits, times_start,
        out_offsets, out_rows,
        inner_offsets, inner_rows,
        out_values, out_elements,
        counts,
    )
}

#[unsafe(no_mangle)]
#[rattlefmt::skip]
pub extern "C" fn duthlan_bytes_recipe(
    station: u32, columns: u32, numbers: &[u8],
    offsets: &[u8], rows: &[u8], rows_start: u32, values: &[u8], elements: &[u8], elements_start: u32,
    second_offsets: &[u8], second_rows: &[u8], second_rows_start: u32, second_values: &[u8], second_elements: &[u8], second_elements_start: u32,
    arguments: &[u8], argument_bits: &[u8], argument_start: u32,
    one_offsets: &mut [u8], one_rows: &mut [u8], one_values: &mut [u8], one_elements: &mut [u8],
    two_offsets: &mut [u8], two_rows: &mut [u8], two_values: &mut [u8], two_elements: &mut [u8],
    out_offsets: &mut [u8], out_rows: &mut [u8], out_values: &mut [u8], out_elements: &mut [u8],
    counts: &mut [u8], tally: &mut [u8],
) -> u32
    ensures { RecipeEntry station (recipe_in station columns numbers offsets rows rows_start values elements elements_start second_offsets second_rows second_rows_start second_values second_elements second_elements_start arguments argument_bits argument_start) (recipe_sizes (size numbers) (size arguments) ++ pair_sizes (size offsets) (size values) (size second_offsets) (size second_values)) result one_offsets one_rows one_values one_elements two_offsets two_rows two_values two_elements out_offsets out_rows out_values out_elements counts tally }
{
    duthlan_bytes::duthlan_bytes_recipe(
        station, columns, numbers,
        offsets, rows, rows_start, values, elements, elements_start,
        second_offsets, second_rows, second_rows_start, second_values, second_elements, second_elements_start,
        arguments, argument_bits, argument_start,
        one_offsets, one_rows, one_values, one_elements,
        two_offsets, two_rows, two_values, two_elements,
        out_offsets, out_rows, out_values, out_elements,
        counts, tally,
    )
}
