// Cases F to J and P: slice. S is [10,20,30,40].
use crate::columns::{bits, lists, values};
use column::elements::{ValueColumn, ValueOutput};
use column::lists::ListOutput;
use lists::extract::general_array_slice;
use model::Refusal;

// How many elements a slice of one row has, none of them null, and what the outputs hold after it, but for the bitmap of rows.
#[derive(Drop)]
struct Wanted<'a> {
    count: usize,
    offsets: &'a [i32],
    values: &'a [i64],
    elements: &'a [u8],
}

// A column of one stride.
fn stride<'a>(by: &'a [i64]) -> Option<ValueColumn<'a>> {
    Some(values(by, bits(&[], 0)))
}

// Whether the slice of S, with one value before it and one after, gives what is wanted.
fn gives(from: i64, to: i64, by: Option<ValueColumn>, wanted: Wanted) -> bool {
    let mut out_offsets = [77i32; 3];
    let mut out_rows = [0xaau8; 2];
    let mut out_values = [77i64; 5];
    let mut out_elements = [0xaau8; 2];
    let mut elements = ValueOutput {
        values: &mut out_values,
        bits: &mut out_elements,
    };
    let mut out = ListOutput {
        offsets: &mut out_offsets,
        rows: &mut out_rows,
        elements: &mut elements,
    };
    let s = values(&[5, 10, 20, 30, 40, 50], bits(&[0b1111_1000], 2));
    let answer = general_array_slice(
        lists(&[1, 5], bits(&[1], 0), s),
        values(&[from], bits(&[0b1111_1111], 7)),
        values(&[to], bits(&[1], 0)),
        by,
        &mut out,
    );
    compare::list_counts(answer, 1, wanted.count, 0, 0)
        && compare::same(&out_offsets, wanted.offsets)
        && compare::same(&out_rows, &[1, 0xaa])
        && compare::same(&out_values, wanted.values)
        && compare::same(&out_elements, wanted.elements)
}

// Whether the slice of S without a stride gives S.
fn gives_all(from: i64, to: i64) -> bool {
    let wanted = Wanted {
        count: 4,
        offsets: &[0, 4, 77],
        values: &[10, 20, 30, 40, 77],
        elements: &[0b1111, 0xaa],
    };
    gives(from, to, None, wanted)
}

// S from 0 to 5 gives S.
pub fn case_f() -> bool {
    gives_all(0, 5)
}

// S from -9 to -1 gives S.
pub fn case_g() -> bool {
    gives_all(-9, -1)
}

// S from 4 to 1 by -2 gives [40,20].
pub fn case_h() -> bool {
    let wanted = Wanted {
        count: 2,
        offsets: &[0, 2, 77],
        values: &[40, 20, 77, 77, 77],
        elements: &[0b11, 0xaa],
    };
    gives(4, 1, stride(&[-2]), wanted)
}

// S from 1 to 0 by 0 gives [].
pub fn case_i() -> bool {
    let wanted = Wanted {
        count: 0,
        offsets: &[0, 0, 77],
        values: &[77, 77, 77, 77, 77],
        elements: &[0xaa, 0xaa],
    };
    gives(1, 0, stride(&[0]), wanted)
}

// S from 1 to 2 by 0 gives refusal 5, and no output changes.
pub fn case_j() -> bool {
    let mut out_offsets = [77i32; 3];
    let mut out_rows = [0xaau8; 2];
    let mut out_values = [77i64; 5];
    let mut out_elements = [0xaau8; 2];
    let mut elements = ValueOutput {
        values: &mut out_values,
        bits: &mut out_elements,
    };
    let mut out = ListOutput {
        offsets: &mut out_offsets,
        rows: &mut out_rows,
        elements: &mut elements,
    };
    let answer = general_array_slice(
        lists(
            &[0, 4],
            bits(&[], 0),
            values(&[10, 20, 30, 40], bits(&[], 0)),
        ),
        values(&[1], bits(&[], 0)),
        values(&[2], bits(&[], 0)),
        stride(&[0]),
        &mut out,
    );
    compare::list_refused(answer, Refusal::ZeroStride)
        && compare::same(&out_offsets, &[77, 77, 77])
        && compare::same(&out_rows, &[0xaa, 0xaa])
        && compare::same(&out_values, &[77, 77, 77, 77, 77])
        && compare::same(&out_elements, &[0xaa, 0xaa])
}

// [10,20,30] from 2 to 3 by 2147483647 gives [20].
pub fn case_p() -> bool {
    let mut out_offsets = [77i32; 3];
    let mut out_rows = [0xaau8; 2];
    let mut out_values = [77i64; 4];
    let mut out_elements = [0xaau8; 2];
    let mut elements = ValueOutput {
        values: &mut out_values,
        bits: &mut out_elements,
    };
    let mut out = ListOutput {
        offsets: &mut out_offsets,
        rows: &mut out_rows,
        elements: &mut elements,
    };
    let answer = general_array_slice(
        lists(
            &[0, 3],
            bits(&[], 0),
            values(&[10, 20, 30], bits(&[0b111], 0)),
        ),
        values(&[2], bits(&[], 0)),
        values(&[3], bits(&[], 0)),
        Some(values(&[2147483647], bits(&[1], 0))),
        &mut out,
    );
    compare::list_counts(answer, 1, 1, 0, 0)
        && compare::same(&out_offsets, &[0, 1, 77])
        && compare::same(&out_rows, &[1, 0xaa])
        && compare::same(&out_values, &[20, 77, 77, 77])
        && compare::same(&out_elements, &[1, 0xaa])
}
