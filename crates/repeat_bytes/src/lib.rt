// List-repeat's answer as bytes. An inner crate: its callers meet what it asks.
#![tactic(auto)]

ghost use Rattle.std.specs.Prelude.{◌≤◌, length, [], ◌∷◌, ◌≡◌};
ghost use Rattle.model.specs.Form.{over};
ghost use Rattle.repeat_bytes.specs.Inner.{RepeatReady, RepeatSent};
ghost use Rattle.wire.specs.Bytes.{bytes_of_counts};

use model::{RepeatAnswer, RepeatCounts};
use wire::encode;

// The numbers that list-repeat wrote, at the fronts of slices that may be longer.
#[derive(Clone, Copy)]
pub struct Written<'a> {
    pub offsets: &'a [i32],
    pub inner_offsets: &'a [i32],
    pub values: &'a [i64],
}

// The counts, at the front of `counts`.
fn put_repeat_counts(found: RepeatCounts, counts: &mut [u8])
    requires { 48 ≤ length counts.old }
    ensures { counts.new ≡ over (bytes_of_counts (found.rows ∷ found.elements ∷ found.null_rows ∷ found.null_elements ∷ found.inner_rows ∷ found.null_inner_rows ∷ [])) counts.old }
{
    let c = [
        found.rows as u64,
        found.elements as u64,
        found.null_rows as u64,
        found.null_elements as u64,
        found.inner_rows as u64,
        found.null_inner_rows as u64,
    ];
    encode(&c, counts);
}

// Of what the operation wrote the slots that it counts. A refusal writes nothing.
pub fn put_repeat(
    answer: RepeatAnswer,
    written: Written,
    out_offsets: &mut [u8],
    inner_offsets: &mut [u8],
    out_values: &mut [u8],
    counts: &mut [u8],
) -> u32
    requires { RepeatReady answer (length written.offsets.now) (length written.inner_offsets.now) (length written.values.now) (length out_offsets.old) (length inner_offsets.old) (length out_values.old) (length counts.old) }
    ensures { RepeatSent answer result written.entry.offsets.now written.entry.inner_offsets.now written.entry.values.now out_offsets.old out_offsets.new inner_offsets.old inner_offsets.new out_values.old out_values.new counts.old counts.new }
{
    match answer {
        Err(refusal) => u32::from(refusal),
        Ok(found) => {
            let n = found.rows + 1;
            let m = found.inner_rows + 1;
            encode(&written.offsets[..n], out_offsets);
            encode(&written.inner_offsets[..m], inner_offsets);
            encode(&written.values[..found.elements], out_values);
            put_repeat_counts(found, counts);
            0
        }
    }
}
