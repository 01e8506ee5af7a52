// Case K: element. Four calls, on S, which is [10,20,30,40], and on [].
use crate::columns::{bits, lists, values};
use column::elements::{ValueColumn, ValueOutput};
use column::lists::ListColumn;
use compare::UNDER_NULL;
use lists::extract::general_array_element;
use model::{Refusal, ValueAnswer};

// The element of each row at its index, into these slices.
fn element(
    list: ListColumn<i32>,
    indexes: ValueColumn,
    out_values: &mut [i64],
    out_rows: &mut [u8],
) -> ValueAnswer {
    let mut out = ValueOutput {
        values: out_values,
        bits: out_rows,
    };
    general_array_element(list, indexes, &mut out)
}

// Element -4 of S gives 10. The bitmaps start at bits 3, 6 and 6.
fn fourth_last() -> bool {
    let mut out_values = [77i64; 2];
    let mut out_rows = [0xaau8; 2];
    let elements = values(&[5, 10, 20, 30, 40], bits(&[0b1011_1111, 0b0000_0111], 6));
    let answer = element(
        lists(&[1, 5], bits(&[0b0000_1000], 3), elements),
        values(&[-4], bits(&[0b0100_0000], 6)),
        &mut out_values,
        &mut out_rows,
    );
    compare::value_counts(answer, 1, 0)
        && compare::same(&out_values, &[10, 77])
        && compare::same(&out_rows, &[1, 0xaa])
}

// Element 0 of S gives null.
fn none_at_zero() -> bool {
    let mut out_values = [77i64; 2];
    let mut out_rows = [0xaau8; 2];
    let elements = values(&[10, 20, 30, 40], bits(&[], 0));
    let answer = element(
        lists(&[0, 4], bits(&[], 0), elements),
        values(&[0], bits(&[], 0)),
        &mut out_values,
        &mut out_rows,
    );
    compare::value_counts(answer, 1, 1)
        && compare::same(&out_values, &[UNDER_NULL, 77])
        && compare::same(&out_rows, &[0, 0xaa])
}

// The element of [] at an index, into these slices.
fn of_empty(index: i64, out_values: &mut [i64], out_rows: &mut [u8]) -> ValueAnswer {
    element(
        lists(&[1, 1], bits(&[], 0), values(&[5], bits(&[], 0))),
        values(&[index], bits(&[], 0)),
        out_values,
        out_rows,
    )
}

// Element 2147483647 of [] gives null.
fn none_in_empty() -> bool {
    let mut out_values = [77i64; 2];
    let mut out_rows = [0xaau8; 2];
    let answer = of_empty(2147483647, &mut out_values, &mut out_rows);
    compare::value_counts(answer, 1, 1)
        && compare::same(&out_values, &[UNDER_NULL, 77])
        && compare::same(&out_rows, &[0, 0xaa])
}

// Element 2147483648 of [] gives refusal 4.
fn refused_past_32_bits() -> bool {
    let mut out_values = [77i64; 2];
    let mut out_rows = [0xaau8; 2];
    let answer = of_empty(2147483648, &mut out_values, &mut out_rows);
    compare::value_refused(answer, Refusal::WideIndex)
        && compare::same(&out_values, &[77, 77])
        && compare::same(&out_rows, &[0xaa, 0xaa])
}

pub fn case_k() -> bool {
    fourth_last() && none_at_zero() && none_in_empty() && refused_past_32_bits()
}
