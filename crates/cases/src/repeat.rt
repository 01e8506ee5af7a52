// Case O: list-repeat of a null over 8,8 and of [4], counts 1 and 2, gives [null], [[4],[4]].
use column::elements::ValueOutput;
use column::lists::{ListOutput, OuterOutput};
use slice_cases::columns::{bits, lists, values};

pub(crate) fn case_o() -> bool {
    let mut out_offsets = [77i32; 4];
    let mut out_rows = [0xaau8; 2];
    let mut inner_offsets = [77i32; 5];
    let mut inner_rows = [0xaau8; 2];
    let mut out_values = [77i64; 3];
    let mut out_elements = [0xaau8; 2];
    let mut elements = ValueOutput {
        values: &mut out_values,
        bits: &mut out_elements,
    };
    let mut inner = ListOutput {
        offsets: &mut inner_offsets,
        rows: &mut inner_rows,
        elements: &mut elements,
    };
    let mut out = OuterOutput {
        offsets: &mut out_offsets,
        rows: &mut out_rows,
    };
    let answer = lists::repeat::general_list_repeat(
        lists(
            &[0, 2, 3],
            bits(&[0b10], 0),
            values(&[8, 8, 4], bits(&[], 0)),
        ),
        values(&[1, 2], bits(&[], 0)),
        &mut out,
        &mut inner,
    );
    compare::repeat_counts(answer, 2, 2, 0, 0, 3, 1)
        && compare::same(&out_offsets, &[0, 1, 3, 77])
        && compare::same(&out_rows, &[0b11, 0xaa])
        && compare::same(&inner_offsets, &[0, 0, 1, 2, 77])
        && compare::same(&inner_rows, &[0b110, 0xaa])
        && compare::same(&out_values, &[4, 4, 77])
        && compare::same(&out_elements, &[0b11, 0xaa])
}
