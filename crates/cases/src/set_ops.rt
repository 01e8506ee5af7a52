// Cases B to E: distinct, union and intersect.
use column::elements::ValueOutput;
use column::lists::ListOutput;
use compare::UNDER_NULL;
use model::SetOp;
use slice_cases::columns::{bits, lists, values};

// Distinct [3,-,3,-,1] gives [3,-,1]. Two values stand before the row, and the nulls lie over different ones.
pub(crate) fn case_b() -> bool {
    let mut out_offsets = [77i32; 3];
    let mut out_rows = [0xaau8; 2];
    let mut out_values = [77i64; 4];
    let mut out_elements = [0xaau8; 2];
    let mut elements = ValueOutput {
        values: &mut out_values,
        bits: &mut out_elements,
    };
    let mut out = ListOutput {
        offsets: &mut out_offsets,
        rows: &mut out_rows,
        elements: &mut elements,
    };
    let answer = lists::set_ops::general_array_distinct(
        lists(
            &[2, 7],
            bits(&[], 0),
            values(&[1, 3, 3, 4, 3, 1, 1], bits(&[0b0101_0111], 0)),
        ),
        &mut out,
    );
    compare::list_counts(answer, 1, 3, 0, 1)
        && compare::same(&out_offsets, &[0, 3, 77])
        && compare::same(&out_rows, &[1, 0xaa])
        && compare::same(&out_values, &[3, UNDER_NULL, 1, 77])
        && compare::same(&out_elements, &[0b101, 0xaa])
}

// Union [2,1,2], [1,5,-] gives [2,1,5,-].
pub(crate) fn case_c() -> bool {
    let mut out_offsets = [77i32; 3];
    let mut out_rows = [0xaau8; 2];
    let mut out_values = [77i64; 5];
    let mut out_elements = [0xaau8; 2];
    let mut elements = ValueOutput {
        values: &mut out_values,
        bits: &mut out_elements,
    };
    let mut out = ListOutput {
        offsets: &mut out_offsets,
        rows: &mut out_rows,
        elements: &mut elements,
    };
    let answer = lists::set_ops::generic_set_lists(
        lists(&[0, 3], bits(&[], 0), values(&[2, 1, 2], bits(&[], 0))),
        lists(
            &[1, 4],
            bits(&[0b1111_1111], 0),
            values(&[9, 1, 5, 2], bits(&[0b110], 0)),
        ),
        SetOp::Union,
        &mut out,
    );
    compare::list_counts(answer, 1, 4, 0, 1)
        && compare::same(&out_offsets, &[0, 4, 77])
        && compare::same(&out_rows, &[1, 0xaa])
        && compare::same(&out_values, &[2, 1, 5, UNDER_NULL, 77])
        && compare::same(&out_elements, &[0b111, 0xaa])
}

// Intersect [1,2], [2,1] gives [1,2].
pub(crate) fn case_d() -> bool {
    let mut out_offsets = [77i32; 3];
    let mut out_rows = [0xaau8; 2];
    let mut out_values = [77i64; 3];
    let mut out_elements = [0xaau8; 2];
    let mut elements = ValueOutput {
        values: &mut out_values,
        bits: &mut out_elements,
    };
    let mut out = ListOutput {
        offsets: &mut out_offsets,
        rows: &mut out_rows,
        elements: &mut elements,
    };
    let answer = lists::set_ops::generic_set_lists(
        lists(&[0, 2], bits(&[1], 0), values(&[1, 2], bits(&[0b11], 0))),
        lists(&[0, 2], bits(&[], 0), values(&[2, 1], bits(&[], 0))),
        SetOp::Intersect,
        &mut out,
    );
    compare::list_counts(answer, 1, 2, 0, 0)
        && compare::same(&out_offsets, &[0, 2, 77])
        && compare::same(&out_rows, &[1, 0xaa])
        && compare::same(&out_values, &[1, 2, 77])
        && compare::same(&out_elements, &[0b11, 0xaa])
}

// Intersect [1,2], [2,9,1] gives [2,1].
pub(crate) fn case_e() -> bool {
    let mut out_offsets = [77i32; 3];
    let mut out_rows = [0xaau8; 2];
    let mut out_values = [77i64; 3];
    let mut out_elements = [0xaau8; 2];
    let mut elements = ValueOutput {
        values: &mut out_values,
        bits: &mut out_elements,
    };
    let mut out = ListOutput {
        offsets: &mut out_offsets,
        rows: &mut out_rows,
        elements: &mut elements,
    };
    let answer = lists::set_ops::generic_set_lists(
        lists(&[0, 2], bits(&[], 0), values(&[1, 2], bits(&[], 0))),
        lists(&[0, 3], bits(&[], 0), values(&[2, 9, 1], bits(&[0b111], 0))),
        SetOp::Intersect,
        &mut out,
    );
    compare::list_counts(answer, 1, 2, 0, 0)
        && compare::same(&out_offsets, &[0, 2, 77])
        && compare::same(&out_rows, &[1, 0xaa])
        && compare::same(&out_values, &[2, 1, 77])
        && compare::same(&out_elements, &[0b11, 0xaa])
}
