// List-repeat's counts, the walk that sums, and the outer rows that are written. An inner crate: its callers meet what it asks.
// After repeat.rs of datafusion-functions-nested 55.2.0, Apache License 2.0, Apache Software Foundation; changed, see NOTICE.
#![tactic(auto)]

ghost use Rattle.bitmap.specs.Push.{Covers, push_bit};
ghost use Rattle.bitmap.specs.Reads.{bits_in};
ghost use Rattle.column.specs.Columns.{column_in, values_in};
ghost use Rattle.column.specs.Outputs.{SameOuters};
ghost use Rattle.model.specs.Bitmap.{valid_at};
ghost use Rattle.repeat_sums.specs.Counts.{Countable, sums_of, times_at};
ghost use Rattle.std.specs.Prelude.{◌*◌, ◌+◌, ◌/◌, ◌<◌, ◌≤◌, ltb, pos, length, set, ◌≡◌};

use bitmap::Validity;
use column::elements::ValueColumn;
use column::lists::{ListColumn, OuterOutput};
use column::offsets;
use model::Refusal;
use model::offsets::Offset;
use rows::utils;

#[cfg(test)]
mod tests;

// What is summed: the outer lists and the values that they repeat.
#[derive(Clone, Copy)]
pub struct Sums {
    pub lists: usize,
    pub values: usize,
}

// How often row r is repeated: not at all for a null count or one at or below 0.
pub fn repeat_count(counts: ValueColumn, r: usize) -> usize
    requires covers { Covers (bits_in counts.bits) (length counts.values.now) }
    requires there { r < length counts.values.now }
    ensures { result ≡ times_at (values_in counts.entry) r }
{
    if !counts.bits.is_valid(r, counts.values.len()) {
        return 0;
    }
    utils::limit_of(counts.values[r])
}

// Whether a product is over a number; one that does not fit is.
fn is_product_over(times: usize, len: usize, most: usize) -> bool
    ensures { result ≡ ltb most (times * len) }
{
    times.checked_mul(len).is_none_or(|product| most < product)
}

// Sums the outer lists, null ones among them, and the values that they repeat. A sum that exceeds its limit ends the walk.
pub fn sum_repeats<O: Offset>(list: ListColumn<O>, counts: ValueColumn) -> Result<Sums, Refusal>
    requires { Countable (column_in O.numbers list) (values_in counts) }
    ensures { result ≡ sums_of O.LIMITS (column_in O.numbers list.entry) (values_in counts.entry) }
{
    let n = list.row_count();
    let limits = O::LIMITS;
    let mut lists: usize = 0;
    let mut values: usize = 0;
    for r in 0..n {
        let times = repeat_count(counts, r);
        if limits.outer - lists < times {
            return Err(Refusal::TooMany);
        }
        let a = list.offset_at(r);
        let b = list.offset_at(r + 1);
        let len = column::rows::row_len(list.rows, n, r, a, b);
        if is_product_over(times, len, limits.repeated - values) {
            return Err(Refusal::TooMany);
        }
        lists += times;
        values += times * len;
    }
    Ok(Sums { lists, values })
}

// Writes outer row r of n, which ends after so many lists: its offset, and its bit, which is its count's, of the counts' bits alone.
pub fn put_outer_by_bits<O: Offset>(
    count_bits: Validity,
    n: usize,
    r: usize,
    lists: usize,
    out: &mut OuterOutput<O>,
)
    requires bits { Covers (bits_in count_bits) n }
    requires there { r < n }
    requires few { lists ≤ O.LIMITS.offset }
    requires slot { r + 1 < length out.old.offsets.now }
    requires bit { r / 8 < length out.old.rows.now }
    ensures offsets_after { O.numbers out.new.offsets.now ≡ set (O.numbers out.old.offsets.now) (r + 1) (pos lists) }
    ensures rows_after { out.new.rows.now ≡ push_bit out.old.rows.now r (valid_at (bits_in count_bits.entry) r) }
    ensures same { SameOuters out.old out.new }
{
    bitmap::push_bit(out.rows, r, count_bits.is_valid(r, n));
    offsets::put_offset(out.offsets, r + 1, lists);
}

// Writes outer row r, which ends after so many lists: its offset, and its bit, which is its count's.
pub fn put_outer<O: Offset>(counts: ValueColumn, r: usize, lists: usize, out: &mut OuterOutput<O>)
    requires bits { Covers (bits_in counts.bits) (length counts.values.now) }
    requires there { r < length counts.values.now }
    requires few { lists ≤ O.LIMITS.offset }
    requires slot { r + 1 < length out.old.offsets.now }
    requires bit { r / 8 < length out.old.rows.now }
    ensures offsets_after { O.numbers out.new.offsets.now ≡ set (O.numbers out.old.offsets.now) (r + 1) (pos lists) }
    ensures rows_after { out.new.rows.now ≡ push_bit out.old.rows.now r (valid_at (bits_in counts.entry.bits) r) }
    ensures same { SameOuters out.old out.new }
{
    put_outer_by_bits(counts.bits, counts.values.len(), r, lists, out);
}
