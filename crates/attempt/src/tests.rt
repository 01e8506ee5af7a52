// A call for which no station is named: recipes and windows make theirs by `attempt_at_station`.
use super::*;
use bitmap::Validity;
use column::elements::{ValueColumn, ValueOutput};
use column::lists::ListColumn;
use model::ListCounts;

// Elements that are all valid.
fn valid(values: &[i64]) -> ValueColumn {
    ValueColumn {
        values,
        bits: Validity {
            bytes: &[],
            start: 0,
        },
    }
}

// Lists of them, none null.
fn lists<'a>(offsets: &'a [i32], values: &'a [i64]) -> ListColumn<'a, i32> {
    ListColumn {
        offsets,
        rows: Validity {
            bytes: &[],
            start: 0,
        },
        elements: valid(values),
    }
}

// Rows 1 and 2 of [1,2], [3,4,5], [6] are turned round by a recipe of one step; rows 2 and 3 are not all there, and nothing is written for them.
#[test]
fn a_few_rows_are_reversed(rt: HostRuntime) {
    let recipe = Recipe {
        numbers: &[0, 0, 0, 0],
        columns: 0,
    };
    let list = lists(&[0, 2, 5, 6], &[1, 2, 3, 4, 5, 6]);
    let inputs = Inputs {
        list,
        second: list,
        arguments: valid(&[]),
    };
    let mut one_offsets = [0i32; 3];
    let mut one_rows = [0u8; 1];
    let mut one_values = [0i64; 4];
    let mut one_bits = [0u8; 1];
    let mut one_elements = ValueOutput {
        values: &mut one_values,
        bits: &mut one_bits,
    };
    let mut one = ListOutput {
        offsets: &mut one_offsets,
        rows: &mut one_rows,
        elements: &mut one_elements,
    };
    let mut two_offsets = [0i32; 3];
    let mut two_rows = [0u8; 1];
    let mut two_values = [0i64; 4];
    let mut two_bits = [0u8; 1];
    let mut two_elements = ValueOutput {
        values: &mut two_values,
        bits: &mut two_bits,
    };
    let mut two = ListOutput {
        offsets: &mut two_offsets,
        rows: &mut two_rows,
        elements: &mut two_elements,
    };
    let mut offsets = [77i32; 4];
    let mut rows = [0xaau8; 2];
    let mut values = [77i64; 5];
    let mut bits = [0xaau8; 2];
    let mut elements = ValueOutput {
        values: &mut values,
        bits: &mut bits,
    };
    let mut out = ListOutput {
        offsets: &mut offsets,
        rows: &mut rows,
        elements: &mut elements,
    };
    let reversed = attempt(1, 3, recipe, inputs, &mut one, &mut two, &mut out);
    let outside = attempt(2, 4, recipe, inputs, &mut one, &mut two, &mut out);
    let counts = ListCounts {
        rows: 2,
        elements: 4,
        null_rows: 0,
        null_elements: 0,
    };
    assert!(rt; reversed == Ok(counts));
    assert!(rt; outside == Err(Refusal::RowsOutside));
    assert_eq!(rt; offsets, [0, 3, 4, 77]);
    assert_eq!(rt; rows, [0b11, 0xaa]);
    assert_eq!(rt; values, [5, 4, 3, 6, 77]);
    assert_eq!(rt; bits, [0b1111, 0xaa]);
}
