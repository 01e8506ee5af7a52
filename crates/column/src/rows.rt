// One row of a column.
ghost use Rattle.std.specs.Prelude.{◌<◌, ◌≤◌, ◌≡◌};
ghost use Rattle.bitmap.specs.Push.{Covers};
ghost use Rattle.bitmap.specs.Reads.{bits_in};
ghost use Rattle.column.specs.Rows.{len_from};

use bitmap::Validity;

// The number of elements that row r of n shows, between a and b: none where it is null.
#[tactic(auto, unfolding(crate::specs::Rows::len_from))]
pub fn row_len(rows: Validity, n: usize, r: usize, a: usize, b: usize) -> usize
    requires covers { Covers (bits_in rows) n }
    requires r_lt_n { r < n }
    requires a_le_b { a ≤ b }
    ensures { result ≡ len_from (bits_in rows.entry) r a b }
{
    if rows.is_valid(r, n) { b - a } else { 0 }
}
