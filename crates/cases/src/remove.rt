// Case N: remove 7 from [7,-,7,7]. Two calls; the null lies over 7.
use column::elements::ValueOutput;
use column::lists::ListOutput;
use compare::UNDER_NULL;
use model::ListAnswer;
use slice_cases::columns::{bits, lists, values};

fn remove_sevens(n: i64, out: &mut ListOutput<i32>) -> ListAnswer {
    lists::remove::general_remove(
        lists(
            &[0, 4],
            bits(&[], 0),
            values(&[7, 7, 7, 7], bits(&[0b1111_1101], 0)),
        ),
        values(&[7], bits(&[], 0)),
        values(&[n], bits(&[1], 0)),
        out,
    )
}

// With n 2 it gives [-,7].
fn two_removed() -> bool {
    let mut out_offsets = [77i32; 3];
    let mut out_rows = [0xaau8; 2];
    let mut out_values = [77i64; 5];
    let mut out_elements = [0xaau8; 2];
    let mut elements = ValueOutput {
        values: &mut out_values,
        bits: &mut out_elements,
    };
    let mut out = ListOutput {
        offsets: &mut out_offsets,
        rows: &mut out_rows,
        elements: &mut elements,
    };
    let answer = remove_sevens(2, &mut out);
    compare::list_counts(answer, 1, 2, 0, 1)
        && compare::same(&out_offsets, &[0, 2, 77])
        && compare::same(&out_rows, &[1, 0xaa])
        && compare::same(&out_values, &[UNDER_NULL, 7, 77, 77, 77])
        && compare::same(&out_elements, &[0b10, 0xaa])
}

// With n -1 it gives the row unchanged.
fn none_removed() -> bool {
    let mut out_offsets = [77i32; 3];
    let mut out_rows = [0xaau8; 2];
    let mut out_values = [77i64; 5];
    let mut out_elements = [0xaau8; 2];
    let mut elements = ValueOutput {
        values: &mut out_values,
        bits: &mut out_elements,
    };
    let mut out = ListOutput {
        offsets: &mut out_offsets,
        rows: &mut out_rows,
        elements: &mut elements,
    };
    let answer = remove_sevens(-1, &mut out);
    compare::list_counts(answer, 1, 4, 0, 1)
        && compare::same(&out_offsets, &[0, 4, 77])
        && compare::same(&out_rows, &[1, 0xaa])
        && compare::same(&out_values, &[7, UNDER_NULL, 7, 7, 77])
        && compare::same(&out_elements, &[0b1101, 0xaa])
}

pub(crate) fn case_n() -> bool {
    two_removed() && none_removed()
}
