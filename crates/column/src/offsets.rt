// Signed offsets of 32 or of 64 bits, as counts.
ghost use Rattle.std.specs.Prelude.{◌<◌, ◌≤◌, get_or, length, pos, set, ◌≡◌};
ghost use Rattle.model.specs.Column.{bad_offsets, count, offset_at, row_count};
ghost use Rattle.std.specs.Int.Signed.{lt_z};

use model::offsets::Offset;

// A number as a count; 0 where it is negative.
fn count(x: i64) -> usize
    ensures { result ≡ count x }
{
    x.max(0) as usize
}

// Whether a number is less than v.
fn is_below(x: i64, v: usize) -> bool
    ensures { result ≡ lt_z x (pos v) }
{
    x < 0 || count(x) < v
}

// The offset at i as a count; 0 where it is negative.
pub fn offset_at<O: Offset>(offsets: &[O], i: usize) -> usize
    requires { i < length offsets.now }
    ensures value { result ≡ offset_at (O.numbers offsets.now) i }
    ensures upper_bound { result ≤ O.LIMITS.offset }
{
    count(offsets[i].to_number())
}

// The first offset as a count; 0 where there is none.
pub fn first_offset<O: Offset>(offsets: &[O]) -> usize
    ensures { result ≡ offset_at (O.numbers offsets.now) 0 }
{
    match offsets.first() {
        Some(offset) => count(offset.to_number()),
        None => 0,
    }
}

// The number of rows.
pub fn row_count<O: Offset>(offsets: &[O]) -> usize
    ensures { result ≡ row_count (O.numbers offsets.now) }
{
    offsets.len().saturating_sub(1)
}

// Stores a count as an offset.
pub fn put_offset<O: Offset>(out: &mut [O], i: usize, v: usize)
    requires i_in_bounds { i < length out.old }
    requires v_le_offset { v ≤ O.LIMITS.offset }
    ensures { O.numbers out.new ≡ set (O.numbers out.old) i (pos v) }
{
    out[i] = O::from_count(v);
}

// Whether the offset at i is less than v.
pub fn below<O: Offset>(offsets: &[O], i: usize, v: usize) -> bool
    requires { i < length offsets.now }
    ensures { result ≡ lt_z (get_or (O.numbers offsets.now) i (pos 0)) (pos v) }
{
    is_below(offsets[i].to_number(), v)
}

// Refusal 1: first offset negative, any falling, or last beyond the n values.
pub fn are_bad<O: Offset>(offsets: &[O], n: usize) -> bool
    ensures { result ≡ bad_offsets (O.numbers offsets.now) n }
{
    let mut last = 0;
    for offset in offsets {
        let x = offset.to_number();
        if is_below(x, last) {
            return true;
        }
        last = count(x);
    }
    n < last
}
