// Case A: reverse [1,2,-], null, [] gives [-,2,1], null, []. The null row lies over two values, one of them null. The
// bitmaps start at bits 5 and 4.
use column::elements::ValueOutput;
use column::lists::ListOutput;
use compare::UNDER_NULL;
use slice_cases::columns::{bits, lists, values};

pub(crate) fn case_a() -> bool {
    let mut out_offsets = [77i32; 6];
    let mut out_rows = [0xaau8; 2];
    let mut out_values = [77i64; 5];
    let mut out_elements = [0xaau8; 2];
    let mut elements = ValueOutput {
        values: &mut out_values,
        bits: &mut out_elements,
    };
    let mut out = ListOutput {
        offsets: &mut out_offsets,
        rows: &mut out_rows,
        elements: &mut elements,
    };
    let five = values(&[1, 2, 9, 8, 8], bits(&[0b0011_0101, 0b1111_1111], 4));
    let answer = lists::reverse::general_array_reverse(
        lists(&[0, 3, 5, 5], bits(&[0b1011_1111], 5), five),
        &mut out,
    );
    compare::list_counts(answer, 3, 3, 1, 1)
        && compare::same(&out_offsets, &[0, 3, 3, 3, 77, 77])
        && compare::same(&out_rows, &[0b101, 0xaa])
        && compare::same(&out_values, &[UNDER_NULL, 2, 1, 77, 77])
        && compare::same(&out_elements, &[0b110, 0xaa])
}
