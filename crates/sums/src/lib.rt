// The sum of resize's counts, and what it comes to. An inner crate: its callers meet what it asks.
#![tactic(auto)]

ghost use Rattle.arguments.specs.Taken.{Serves};
ghost use Rattle.bitmap.specs.Push.{Covers};
ghost use Rattle.bitmap.specs.Reads.{bits_in};
ghost use Rattle.column.specs.Columns.{values_in};
ghost use Rattle.model.specs.Refusals.{plus};
ghost use Rattle.std.specs.Prelude.{◌≤◌, false, ◌≡◌};
ghost use Rattle.sums.specs.Sums.{count_if, let_through, measured, resize_measure, summed};

use arguments::taken;
use bitmap::Validity;
use column::elements::ValueColumn;
use model::Refusal;
use model::offsets::Offset;
use rows::{Cell, utils};

// The running sum with a row's count: 7 at a negative one, 8 where it passes the largest number.
fn plus_count(sum: usize, valid: bool, count: Cell) -> Result<usize, Refusal>
    ensures { summed result ≡ plus sum (count_if valid count) }
{
    if !valid {
        return Ok(sum);
    }
    match count {
        None => Ok(sum),
        Some(n) => {
            if n < 0 {
                return Err(Refusal::NegativeCount);
            }
            sum.checked_add(utils::limit_of(n)).ok_or(Refusal::TooMany)
        }
    }
}

// What resize makes of n rows: the sum of the counts of the rows with list and count valid, or the refusal.
pub fn measure_resize<O: Offset>(
    rows: Validity,
    n: usize,
    counts: ValueColumn,
) -> Result<usize, Refusal>
    requires covers { Covers (bits_in rows) n }
    requires serves { Serves false n (values_in counts) }
    ensures value { measured result ≡ resize_measure O.LIMITS (bits_in rows.entry) (values_in counts.entry) n }
    ensures result_bound { let_through result ≤ O.LIMITS.offset }
{
    let mut sum: usize = 0;
    for r in 0..n {
        let valid = rows.is_valid(r, n);
        let count = taken::taken_at(true, false, counts, n, r);
        sum = plus_count(sum, valid, count)?;
    }
    if O::LIMITS.resized < sum {
        return Err(Refusal::TooMany);
    }
    Ok(sum)
}
