// Case M: replace in [-,7,-] null by 5, n 1, gives [5,7,-]. The null to replace lies over 7.
use column::elements::ValueOutput;
use column::lists::ListOutput;
use compare::UNDER_NULL;
use slice_cases::columns::{bits, lists, values};

pub(crate) fn case_m() -> bool {
    let mut out_offsets = [77i32; 3];
    let mut out_rows = [0xaau8; 2];
    let mut out_values = [77i64; 4];
    let mut out_elements = [0xaau8; 2];
    let mut elements = ValueOutput {
        values: &mut out_values,
        bits: &mut out_elements,
    };
    let mut out = ListOutput {
        offsets: &mut out_offsets,
        rows: &mut out_rows,
        elements: &mut elements,
    };
    let answer = lists::replace::general_replace(
        lists(&[0, 3], bits(&[1], 0), values(&[9, 7, 9], bits(&[0b10], 0))),
        values(&[7], bits(&[0], 0)),
        values(&[5], bits(&[], 0)),
        values(&[1], bits(&[], 0)),
        &mut out,
    );
    compare::list_counts(answer, 1, 3, 0, 1)
        && compare::same(&out_offsets, &[0, 3, 77])
        && compare::same(&out_rows, &[1, 0xaa])
        && compare::same(&out_values, &[5, 7, UNDER_NULL, 77])
        && compare::same(&out_elements, &[0b11, 0xaa])
}
