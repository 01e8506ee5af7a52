// Case L: resize [1,2] to 4 with a null fill gives [1,2,-,-]. The null lies over a value.
use column::elements::ValueOutput;
use column::lists::ListOutput;
use compare::UNDER_NULL;
use slice_cases::columns::{bits, lists, values};

pub(crate) fn case_l() -> bool {
    let mut out_offsets = [77i32; 3];
    let mut out_rows = [0xaau8; 2];
    let mut out_values = [77i64; 5];
    let mut out_elements = [0xaau8; 2];
    let mut elements = ValueOutput {
        values: &mut out_values,
        bits: &mut out_elements,
    };
    let mut out = ListOutput {
        offsets: &mut out_offsets,
        rows: &mut out_rows,
        elements: &mut elements,
    };
    let answer = lists::resize::general_list_resize(
        lists(&[0, 2], bits(&[], 0), values(&[1, 2], bits(&[], 0))),
        values(&[4], bits(&[], 0)),
        Some(values(&[9], bits(&[0b1111_1110], 0))),
        &mut out,
    );
    compare::list_counts(answer, 1, 4, 0, 2)
        && compare::same(&out_offsets, &[0, 4, 77])
        && compare::same(&out_rows, &[1, 0xaa])
        && compare::same(&out_values, &[1, 2, UNDER_NULL, UNDER_NULL, 77])
        && compare::same(&out_elements, &[0b11, 0xaa])
}
