// Answers as bytes: the number that an entry returns, and what an accepted call counts. A refusal writes nothing.
ghost use Rattle.std.specs.Prelude.{◌≤◌, length, [], ◌∷◌, ◌≡◌};
ghost use Rattle.entry.specs.Inner.{Ready, Sent, ValueReady, ValueSent};
ghost use Rattle.model.specs.Form.{over};
ghost use Rattle.wire.specs.Bytes.{bytes_of_counts};

use model::{ListAnswer, ListCounts, ValueAnswer, ValueCounts};
use wire::encode;

// The counts of a list answer, at the front of `counts`, and below those of a value answer.
fn put_counts(found: ListCounts, counts: &mut [u8])
    requires { 32 ≤ length counts.old }
    ensures { counts.new ≡ over (bytes_of_counts (found.rows ∷ found.elements ∷ found.null_rows ∷ found.null_elements ∷ [])) counts.old }
{
    let c = [
        found.rows as u64,
        found.elements as u64,
        found.null_rows as u64,
        found.null_elements as u64,
    ];
    encode(&c, counts);
}

// A list answer: of o and v, which the operation wrote, the slots that it counts.
pub fn put_list(
    answer: ListAnswer,
    o: &[i32],
    v: &[i64],
    out_offsets: &mut [u8],
    out_values: &mut [u8],
    counts: &mut [u8],
) -> u32
    requires { Ready answer (length o.now) (length v.now) (length out_offsets.old) (length out_values.old) (length counts.old) }
    ensures { Sent answer result o.now v.now out_offsets.old out_offsets.new out_values.old out_values.new counts.old counts.new }
{
    match answer {
        Err(refusal) => u32::from(refusal),
        Ok(found) => {
            let n = found.rows + 1;
            encode(&o[..n], out_offsets);
            encode(&v[..found.elements], out_values);
            put_counts(found, counts);
            0
        }
    }
}

fn put_value_counts(rows: usize, null_rows: usize, counts: &mut [u8])
    requires { 16 ≤ length counts.old }
    ensures { counts.new ≡ over (bytes_of_counts (rows ∷ null_rows ∷ [])) counts.old }
{
    let c = [rows as u64, null_rows as u64];
    encode(&c, counts);
}

// A value answer: of v the slots that it counts.
pub fn put_values(answer: ValueAnswer, v: &[i64], out_values: &mut [u8], counts: &mut [u8]) -> u32
    requires { ValueReady answer (length v.now) (length out_values.old) (length counts.old) }
    ensures { ValueSent answer result v.now out_values.old out_values.new counts.old counts.new }
{
    match answer {
        Err(refusal) => u32::from(refusal),
        Ok(ValueCounts { rows, null_rows }) => {
            encode(&v[..rows], out_values);
            put_value_counts(rows, null_rows, counts);
            0
        }
    }
}
