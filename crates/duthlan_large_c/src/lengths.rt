// The entries of `duthlan_large::lengths` for C programs: each calls the function of its name there, and states its clauses again.
// bindings/entries writes this file.
ghost use Rattle.entry_codes.specs.Calls.{one_lengths, set_lengths};
ghost use Rattle.model.specs.Basics.{given};
ghost use Rattle.model.specs.Call.{limit_counts, repeat_room_counts, room_counts, value_room_counts};
ghost use Rattle.model.specs.Inner.{lent_arguments_from, lent_from};
ghost use Rattle.model.specs.Lengths.{any_value_lengths, element_lengths, recipe_limits, repeat_lengths};
ghost use Rattle.model.specs.Limits.{wide};
ghost use Rattle.recipe_refusal.specs.Refused.{recipe};
ghost use Rattle.typed.specs.Typed.{LengthsServed};

#[unsafe(no_mangle)]
#[rattlefmt::skip]
pub extern "C" fn duthlan_large_list_lengths<'a>(
    op: u32,
    offsets: &'a [i64], rows: &'a [u8], rows_start: usize, values: &'a [i64], elements: &'a [u8], elements_start: usize,
    first: &'a [i64], first_bits: &'a [u8], first_start: usize,
    second: &'a [i64], second_bits: &'a [u8], second_start: usize,
    third: &'a [i64], third_bits: &'a [u8], third_start: usize,
    lengths: &mut [u64],
) -> u32
    ensures { LengthsServed room_counts 4 (one_lengths wide op (lent_from offsets rows rows_start values elements elements_start) (lent_arguments_from first first_bits first_start) (lent_arguments_from second second_bits second_start) (lent_arguments_from third third_bits third_start)) result lengths }
{
    duthlan_large::lengths::duthlan_large_list_lengths(
        op,
        offsets, rows, rows_start, values, elements, elements_start,
        first, first_bits, first_start,
        second, second_bits, second_start,
        third, third_bits, third_start,
        lengths,
    )
}

#[unsafe(no_mangle)]
#[rattlefmt::skip]
pub extern "C" fn duthlan_large_lists_lengths<'a>(
    op: u32,
    l_offsets: &'a [i64], l_rows: &'a [u8], l_rows_start: usize, l_values: &'a [i64], l_elements: &'a [u8], l_elements_start: usize,
    r_offsets: &'a [i64], r_rows: &'a [u8], r_rows_start: usize, r_values: &'a [i64], r_elements: &'a [u8], r_elements_start: usize,
    lengths: &mut [u64],
) -> u32
    ensures { LengthsServed room_counts 4 (set_lengths wide op (lent_from l_offsets l_rows l_rows_start l_values l_elements l_elements_start) (lent_from r_offsets r_rows r_rows_start r_values r_elements r_elements_start)) result lengths }
{
    duthlan_large::lengths::duthlan_large_lists_lengths(
        op,
        l_offsets, l_rows, l_rows_start, l_values, l_elements, l_elements_start,
        r_offsets, r_rows, r_rows_start, r_values, r_elements, r_elements_start,
        lengths,
    )
}

#[unsafe(no_mangle)]
#[rattlefmt::skip]
pub extern "C" fn duthlan_large_any_value_lengths<'a>(
    offsets: &'a [i64], rows: &'a [u8], rows_start: usize, values: &'a [i64], elements: &'a [u8], elements_start: usize,
    lengths: &mut [u64],
) -> u32
    ensures { LengthsServed value_room_counts 2 (given (any_value_lengths (lent_from offsets rows rows_start values elements elements_start))) result lengths }
{
    duthlan_large::lengths::duthlan_large_any_value_lengths(
        offsets, rows, rows_start, values, elements, elements_start,
        lengths,
    )
}

#[unsafe(no_mangle)]
#[rattlefmt::skip]
pub extern "C" fn duthlan_large_element_lengths<'a>(
    offsets: &'a [i64], rows: &'a [u8], rows_start: usize, values: &'a [i64], elements: &'a [u8], elements_start: usize,
    indexes: &'a [i64], index_bits: &'a [u8], index_start: usize,
    lengths: &mut [u64],
) -> u32
    ensures { LengthsServed value_room_counts 2 (given (element_lengths wide (lent_from offsets rows rows_start values elements elements_start) (lent_arguments_from indexes index_bits index_start))) result lengths }
{
    duthlan_large::lengths::duthlan_large_element_lengths(
        offsets, rows, rows_start, values, elements, elements_start,
        indexes, index_bits, index_start,
        lengths,
    )
}

#[unsafe(no_mangle)]
#[rattlefmt::skip]
pub extern "C" fn duthlan_large_list_repeat_lengths<'a>(
    offsets: &'a [i64], rows: &'a [u8], rows_start: usize, values: &'a [i64], elements: &'a [u8], elements_start: usize,
    times: &'a [i64], times_bits: &'a [u8], times_start: usize,
    lengths: &mut [u64],
) -> u32
    ensures { LengthsServed repeat_room_counts 6 (given (repeat_lengths wide (lent_from offsets rows rows_start values elements elements_start) (lent_arguments_from times times_bits times_start))) result lengths }
{
    duthlan_large::lengths::duthlan_large_list_repeat_lengths(
        offsets, rows, rows_start, values, elements, elements_start,
        times, times_bits, times_start,
        lengths,
    )
}

#[unsafe(no_mangle)]
#[rattlefmt::skip]
pub extern "C" fn duthlan_large_recipe_limits<'a>(
    numbers: &'a [u32], columns: usize,
    offsets: &'a [i64], rows: &'a [u8], rows_start: usize, values: &'a [i64], elements: &'a [u8], elements_start: usize,
    second_offsets: &'a [i64], second_rows: &'a [u8], second_rows_start: usize, second_values: &'a [i64], second_elements: &'a [u8], second_elements_start: usize,
    arguments: &'a [i64], argument_bits: &'a [u8], argument_start: usize,
    limits: &mut [u64],
) -> u32
    ensures { LengthsServed limit_counts 3 (given (recipe_limits wide (recipe numbers.entry.now columns) (lent_from offsets rows rows_start values elements elements_start) (lent_from second_offsets second_rows second_rows_start second_values second_elements second_elements_start) (lent_arguments_from arguments argument_bits argument_start))) result limits }
{
    duthlan_large::lengths::duthlan_large_recipe_limits(
        numbers, columns,
        offsets, rows, rows_start, values, elements, elements_start,
        second_offsets, second_rows, second_rows_start, second_values, second_elements, second_elements_start,
        arguments, argument_bits, argument_start,
        limits,
    )
}
