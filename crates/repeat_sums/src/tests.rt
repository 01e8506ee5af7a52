// An outer row written by the counts, which the walk of this repository does by their bits.
use super::*;

// Counts 3, 2 and a null: outer row 1 ends after 5 lists and is valid.
#[tactic(auto, unfolding(model::specs::Bitmap::short_bits))]
#[test]
fn an_outer_row_is_put(rt: HostRuntime) {
    let counts = ValueColumn {
        values: &[3, 2, 8],
        bits: Validity {
            bytes: &[0b011],
            start: 0,
        },
    };
    let mut offsets = [0i32, 3, 77, 77];
    let mut rows = [0b1u8, 0xaa];
    let mut out = OuterOutput {
        offsets: &mut offsets,
        rows: &mut rows,
    };
    put_outer(counts, 1, 5, &mut out);
    assert_eq!(rt; offsets, [0, 3, 5, 77]);
    assert_eq!(rt; rows, [0b11, 0xaa]);
}
