// The C entries. Every parameter but `op`, `station`, `columns` and the starting bits, one after each bitmap that is read, is a slice of
// bytes, a pointer and a length for C: offsets of four bytes, values of eight, little-endian, and bitmaps. The answer is 0 where the
// call is accepted, with its counts, eight bytes each, at the front of `counts`; 1 to 10, 13 and 15 for its refusals; and
// the entry's own, in this order: 102 for no such operation, 100 for a slice of numbers that ends within one or a short `counts`, 101 for
// more numbers than the entries' arrays hold. Whatever is refused changes no byte of the outputs and the counts.
#![tactic(auto)]

mod inputs;

ghost use Rattle.entry.specs.Entry.{ListEntry, ValueEntry, decoded_arguments_from, decoded_from, list_sizes, size, value_sizes};
ghost use Rattle.entry_codes.specs.Calls.{set_call, unary_call, with_call};
ghost use Rattle.entry_recipe.specs.Recipe.{RecipeEntry, pair_sizes, recipe_sizes};
ghost use Rattle.entry_repeat.specs.Repeat.{RepeatEntry};
ghost use Rattle.model.specs.Basics.{given};
ghost use Rattle.model.specs.Limits.{narrow};
ghost use Rattle.model.specs.Outcome.{any_value_outcome, element_outcome, repeat_outcome};
ghost use Rattle.recipe_bytes.specs.Recipe.{recipe_in};
ghost use Rattle.std.specs.Prelude.{◌++◌};

use column::elements::ValueOutput;
use column::lists::{ListOutput, OuterOutput};
use copies::clear_u8;
use entries::{any_value, element, list, two_lists};
use entry::answers;
use entry::sizes::{MOST_OFFSETS, MOST_ROWS, MOST_VALUES, Misfit, Sizes, offsets_in, values_in};
use entry_codes::{set_of, unary_of, with_of};
use entry_recipe::recipe_refusal;
use entry_repeat::MOST_INNER_OFFSETS;
use inputs::{list_bytes, value_bytes};
use recipe_bytes::{InputBytes, MOST_ARGUMENTS, RecipeBytes};
use repeat_bytes::Written;
use tally_bytes::{get_tally, put_tally};

// Reverse (op 0), distinct (1), pop front (2), pop back (3).
#[unsafe(no_mangle)]
pub extern "C" fn duthlan_bytes_list(
    op: u32,
    offsets: &[u8],
    rows: &[u8],
    rows_start: u32,
    values: &[u8],
    elements: &[u8],
    elements_start: u32,
    out_offsets: &mut [u8],
    out_rows: &mut [u8],
    out_values: &mut [u8],
    out_elements: &mut [u8],
    counts: &mut [u8],
) -> u32
    ensures { ListEntry (unary_call op (decoded_from offsets rows rows_start values elements elements_start)) (list_sizes (size offsets) (size values)) result out_offsets out_rows out_values out_elements counts }
{
    let Some(operation) = unary_of(op) else {
        return u32::from(Misfit::NoSuchOperation);
    };
    let sizes = Sizes::none()
        .list(offsets.len(), values.len())
        .list(out_offsets.len(), out_values.len());
    if let Err(misfit) = sizes.refusal(counts.len(), 32) {
        return u32::from(misfit);
    }
    let mut o = [0i32; MOST_OFFSETS];
    let mut v = [0i64; MOST_VALUES];
    let (offsets_out, _) = o.split_at_mut(offsets_in(out_offsets.len()));
    let (values_out, _) = v.split_at_mut(values_in(out_values.len()));
    let mut written = ValueOutput {
        values: values_out,
        bits: out_elements,
    };
    let mut out = ListOutput {
        offsets: offsets_out,
        rows: out_rows,
        elements: &mut written,
    };
    let column = list_bytes(offsets, rows, rows_start, values, elements, elements_start);
    let answer = list::run(operation, column, &mut out);
    answers::put_list(answer, &o, &v, out_offsets, out_values, counts)
}

// Slice (op 4), slice without stride (5), resize (6), replace (7), remove (8), resize without fill (11). Of the three argument columns
// an operation looks at those that it takes, and at their starting bits; the sizes of all are tested.
#[unsafe(no_mangle)]
#[rattlefmt::skip]
pub extern "C" fn duthlan_bytes_list_with(
    op: u32,
    offsets: &[u8], rows: &[u8], rows_start: u32, values: &[u8], elements: &[u8], elements_start: u32,
    first: &[u8], first_bits: &[u8], first_start: u32,
    second: &[u8], second_bits: &[u8], second_start: u32,
    third: &[u8], third_bits: &[u8], third_start: u32,
    out_offsets: &mut [u8], out_rows: &mut [u8], out_values: &mut [u8], out_elements: &mut [u8],
    counts: &mut [u8],
) -> u32
    ensures { ListEntry (with_call op (decoded_from offsets rows rows_start values elements elements_start) (decoded_arguments_from first first_bits first_start) (decoded_arguments_from second second_bits second_start) (decoded_arguments_from third third_bits third_start)) (list_sizes (size offsets) (size values) ++ (value_sizes (size first) ++ (value_sizes (size second) ++ value_sizes (size third)))) result out_offsets out_rows out_values out_elements counts }
{
    let Some(operation) = with_of(op) else {
        return u32::from(Misfit::NoSuchOperation);
    };
    let sizes = Sizes::none()
        .list(offsets.len(), values.len())
        .values(first.len())
        .values(second.len())
        .values(third.len())
        .list(out_offsets.len(), out_values.len());
    if let Err(misfit) = sizes.refusal(counts.len(), 32) {
        return u32::from(misfit);
    }
    let mut o = [0i32; MOST_OFFSETS];
    let mut v = [0i64; MOST_VALUES];
    let (offsets_out, _) = o.split_at_mut(offsets_in(out_offsets.len()));
    let (values_out, _) = v.split_at_mut(values_in(out_values.len()));
    let mut written = ValueOutput {
        values: values_out,
        bits: out_elements,
    };
    let mut out = ListOutput {
        offsets: offsets_out,
        rows: out_rows,
        elements: &mut written,
    };
    let answer = entry_with::run(
        operation,
        list_bytes(offsets, rows, rows_start, values, elements, elements_start),
        value_bytes(first, first_bits, first_start),
        value_bytes(second, second_bits, second_start),
        value_bytes(third, third_bits, third_start),
        &mut out,
    );
    answers::put_list(answer, &o, &v, out_offsets, out_values, counts)
}

// Union (op 9) and intersect (10) of two lists.
#[unsafe(no_mangle)]
#[rattlefmt::skip]
pub extern "C" fn duthlan_bytes_lists(
    op: u32,
    l_offsets: &[u8], l_rows: &[u8], l_rows_start: u32, l_values: &[u8], l_elements: &[u8], l_elements_start: u32,
    r_offsets: &[u8], r_rows: &[u8], r_rows_start: u32, r_values: &[u8], r_elements: &[u8], r_elements_start: u32,
    out_offsets: &mut [u8], out_rows: &mut [u8], out_values: &mut [u8], out_elements: &mut [u8],
    counts: &mut [u8],
) -> u32
    ensures { ListEntry (set_call narrow op (decoded_from l_offsets l_rows l_rows_start l_values l_elements l_elements_start) (decoded_from r_offsets r_rows r_rows_start r_values r_elements r_elements_start)) (list_sizes (size l_offsets) (size l_values) ++ list_sizes (size r_offsets) (size r_values)) result out_offsets out_rows out_values out_elements counts }
{
    let Some(operation) = set_of(op) else {
        return u32::from(Misfit::NoSuchOperation);
    };
    let sizes = Sizes::none()
        .list(l_offsets.len(), l_values.len())
        .list(r_offsets.len(), r_values.len())
        .list(out_offsets.len(), out_values.len());
    if let Err(misfit) = sizes.refusal(counts.len(), 32) {
        return u32::from(misfit);
    }
    let mut o = [0i32; MOST_OFFSETS];
    let mut v = [0i64; MOST_VALUES];
    let (offsets_out, _) = o.split_at_mut(offsets_in(out_offsets.len()));
    let (values_out, _) = v.split_at_mut(values_in(out_values.len()));
    let mut written = ValueOutput {
        values: values_out,
        bits: out_elements,
    };
    let mut out = ListOutput {
        offsets: offsets_out,
        rows: out_rows,
        elements: &mut written,
    };
    let answer = two_lists::run(
        operation,
        list_bytes(l_offsets, l_rows, l_rows_start, l_values, l_elements, l_elements_start),
        list_bytes(r_offsets, r_rows, r_rows_start, r_values, r_elements, r_elements_start),
        &mut out,
    );
    answers::put_list(answer, &o, &v, out_offsets, out_values, counts)
}

// The first valid element of each row.
#[unsafe(no_mangle)]
pub extern "C" fn duthlan_bytes_any_value(
    offsets: &[u8],
    rows: &[u8],
    rows_start: u32,
    values: &[u8],
    elements: &[u8],
    elements_start: u32,
    out_values: &mut [u8],
    out_rows: &mut [u8],
    counts: &mut [u8],
) -> u32
    ensures { ValueEntry (given (any_value_outcome (decoded_from offsets rows rows_start values elements elements_start))) (list_sizes (size offsets) (size values)) result out_values out_rows counts }
{
    let sizes = Sizes::none()
        .list(offsets.len(), values.len())
        .values(out_values.len());
    if let Err(misfit) = sizes.refusal(counts.len(), 16) {
        return u32::from(misfit);
    }
    let mut v = [0i64; MOST_ROWS];
    let (values_out, _) = v.split_at_mut(values_in(out_values.len()));
    let mut out = ValueOutput {
        values: values_out,
        bits: out_rows,
    };
    let column = list_bytes(offsets, rows, rows_start, values, elements, elements_start);
    let answer = any_value::run(column, &mut out);
    answers::put_values(answer, &v, out_values, counts)
}

// The element of each row that its index names.
#[unsafe(no_mangle)]
pub extern "C" fn duthlan_bytes_element(
    offsets: &[u8],
    rows: &[u8],
    rows_start: u32,
    values: &[u8],
    elements: &[u8],
    elements_start: u32,
    indexes: &[u8],
    index_bits: &[u8],
    index_start: u32,
    out_values: &mut [u8],
    out_rows: &mut [u8],
    counts: &mut [u8],
) -> u32
    ensures { ValueEntry (given (element_outcome narrow (decoded_from offsets rows rows_start values elements elements_start) (decoded_arguments_from indexes index_bits index_start))) (list_sizes (size offsets) (size values) ++ value_sizes (size indexes)) result out_values out_rows counts }
{
    let sizes = Sizes::none()
        .list(offsets.len(), values.len())
        .values(indexes.len())
        .values(out_values.len());
    if let Err(misfit) = sizes.refusal(counts.len(), 16) {
        return u32::from(misfit);
    }
    let mut v = [0i64; MOST_ROWS];
    let (values_out, _) = v.split_at_mut(values_in(out_values.len()));
    let mut out = ValueOutput {
        values: values_out,
        bits: out_rows,
    };
    let column = list_bytes(offsets, rows, rows_start, values, elements, elements_start);
    let answer = element::run(
        column,
        value_bytes(indexes, index_bits, index_start),
        &mut out,
    );
    answers::put_values(answer, &v, out_values, counts)
}

// Each list as many times as its count says.
#[unsafe(no_mangle)]
#[rattlefmt::skip]
pub extern "C" fn duthlan_bytes_list_repeat(
    offsets: &[u8], rows: &[u8], rows_start: u32, values: &[u8], elements: &[u8], elements_start: u32,
    times: &[u8], times_bits: &[u8], times_start: u32,
    out_offsets: &mut [u8], out_rows: &mut [u8],
    inner_offsets: &mut [u8], inner_rows: &mut [u8],
    out_values: &mut [u8], out_elements: &mut [u8],
    counts: &mut [u8],
) -> u32
    ensures { RepeatEntry (given (repeat_outcome narrow (decoded_from offsets rows rows_start values elements elements_start) (decoded_arguments_from times times_bits times_start))) (list_sizes (size offsets) (size values) ++ value_sizes (size times)) result out_offsets out_rows inner_offsets inner_rows out_values out_elements counts }
{
    let sizes = Sizes::none()
        .list(offsets.len(), values.len())
        .values(times.len())
        .list(out_offsets.len(), out_values.len())
        .numbers(4, MOST_INNER_OFFSETS, inner_offsets.len());
    if let Err(misfit) = sizes.refusal(counts.len(), 48) {
        return u32::from(misfit);
    }
    let mut o = [0i32; MOST_OFFSETS];
    let mut io = [0i32; MOST_INNER_OFFSETS];
    let mut v = [0i64; MOST_VALUES];
    let (offsets_out, _) = o.split_at_mut(offsets_in(out_offsets.len()));
    let (inner_out, _) = io.split_at_mut(offsets_in(inner_offsets.len()));
    let (values_out, _) = v.split_at_mut(values_in(out_values.len()));
    let mut out = OuterOutput {
        offsets: offsets_out,
        rows: out_rows,
    };
    let mut elements_out = ValueOutput {
        values: values_out,
        bits: out_elements,
    };
    let mut inner = ListOutput {
        offsets: inner_out,
        rows: inner_rows,
        elements: &mut elements_out,
    };
    let column = list_bytes(offsets, rows, rows_start, values, elements, elements_start);
    let answer = entry_repeat::run(
        column,
        value_bytes(times, times_bits, times_start),
        &mut out,
        &mut inner,
    );
    let written = Written {
        offsets: &o,
        inner_offsets: &io,
        values: &v,
    };
    repeat_bytes::put_repeat(
        answer,
        written,
        out_offsets,
        inner_offsets,
        out_values,
        counts,
    )
}

// A recipe for a station, 0 to 15: its numbers, four bytes each, on the first list; the second list serves union and intersect; as many
// argument columns as `columns` says. The two trays are zero afterwards, whatever comes. The tally is the first 256 bytes of `tally`, eight
// a count: the finished counts of stations 0 to 15, then their refused counts; a call that the entry itself refuses is not counted, and
// 100 is also for a short `tally`.
#[unsafe(no_mangle)]
#[rattlefmt::skip]
pub extern "C" fn duthlan_bytes_recipe(
    station: u32, columns: u32, numbers: &[u8],
    offsets: &[u8], rows: &[u8], rows_start: u32, values: &[u8], elements: &[u8], elements_start: u32,
    second_offsets: &[u8], second_rows: &[u8], second_rows_start: u32, second_values: &[u8], second_elements: &[u8], second_elements_start: u32,
    arguments: &[u8], argument_bits: &[u8], argument_start: u32,
    one_offsets: &mut [u8], one_rows: &mut [u8], one_values: &mut [u8], one_elements: &mut [u8],
    two_offsets: &mut [u8], two_rows: &mut [u8], two_values: &mut [u8], two_elements: &mut [u8],
    out_offsets: &mut [u8], out_rows: &mut [u8], out_values: &mut [u8], out_elements: &mut [u8],
    counts: &mut [u8], tally: &mut [u8],
) -> u32
    ensures { RecipeEntry station (recipe_in station columns numbers offsets rows rows_start values elements elements_start second_offsets second_rows second_rows_start second_values second_elements second_elements_start arguments argument_bits argument_start) (recipe_sizes (size numbers) (size arguments) ++ pair_sizes (size offsets) (size values) (size second_offsets) (size second_values)) result one_offsets one_rows one_values one_elements two_offsets two_rows two_values two_elements out_offsets out_rows out_values out_elements counts tally }
{
    let sizes = Sizes::none()
        .numbers(4, numbers.len(), numbers.len())
        .numbers(8, MOST_ARGUMENTS, arguments.len())
        .list(offsets.len(), values.len())
        .list(second_offsets.len(), second_values.len())
        .list(one_offsets.len(), one_values.len())
        .list(two_offsets.len(), two_values.len())
        .list(out_offsets.len(), out_values.len());
    let mut ao = [0i32; MOST_OFFSETS];
    let mut av = [0i64; MOST_VALUES];
    let mut bo = [0i32; MOST_OFFSETS];
    let mut bv = [0i64; MOST_VALUES];
    clear_u8(one_offsets);
    clear_u8(one_values);
    clear_u8(two_offsets);
    clear_u8(two_values);
    if let Err(misfit) = recipe_refusal(sizes, counts.len(), tally.len()) {
        clear_u8(one_rows);
        clear_u8(one_elements);
        clear_u8(two_rows);
        clear_u8(two_elements);
        return u32::from(misfit);
    }
    let mut o = [0i32; MOST_OFFSETS];
    let mut v = [0i64; MOST_VALUES];
    let (ao_out, _) = ao.split_at_mut(offsets_in(one_offsets.len()));
    let (av_out, _) = av.split_at_mut(values_in(one_values.len()));
    let (bo_out, _) = bo.split_at_mut(offsets_in(two_offsets.len()));
    let (bv_out, _) = bv.split_at_mut(values_in(two_values.len()));
    let mut one_written = ValueOutput {
        values: av_out,
        bits: one_elements,
    };
    let mut one = ListOutput {
        offsets: ao_out,
        rows: one_rows,
        elements: &mut one_written,
    };
    let mut two_written = ValueOutput {
        values: bv_out,
        bits: two_elements,
    };
    let mut two = ListOutput {
        offsets: bo_out,
        rows: two_rows,
        elements: &mut two_written,
    };
    let (offsets_out, _) = o.split_at_mut(offsets_in(out_offsets.len()));
    let (values_out, _) = v.split_at_mut(values_in(out_values.len()));
    let mut written = ValueOutput {
        values: values_out,
        bits: out_elements,
    };
    let mut out = ListOutput {
        offsets: offsets_out,
        rows: out_rows,
        elements: &mut written,
    };
    let recipe = RecipeBytes { numbers, columns };
    let inputs = InputBytes {
        list: list_bytes(offsets, rows, rows_start, values, elements, elements_start),
        second: list_bytes(second_offsets, second_rows, second_rows_start, second_values, second_elements, second_elements_start),
        arguments: value_bytes(arguments, argument_bits, argument_start),
    };
    let before = get_tally(tally);
    let done = recipe_bytes::run(before, station, recipe, inputs, &mut one, &mut two, &mut out);
    put_tally(done.tally, tally);
    answers::put_list(done.answer, &o, &v, out_offsets, out_values, counts)
}
