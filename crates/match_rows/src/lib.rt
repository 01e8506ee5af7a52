// What replace and remove make of row r of a list: its arguments, its length, and the row written. An inner crate: its callers meet what
// it asks.
#![tactic(auto)]

pub mod remove;
pub mod replace;

ghost use Rattle.arguments.specs.Taken.{Serves};
ghost use Rattle.bitmap.specs.Push.{Covers};
ghost use Rattle.bitmap.specs.Reads.{bits_in};
ghost use Rattle.column.specs.Columns.{values_in};
ghost use Rattle.match_rows.specs.Limits.{limit_at};
ghost use Rattle.std.specs.Prelude.{◌<◌, true, ◌≡◌};

use arguments::taken;
use bitmap::Validity;
use column::elements::ValueColumn;
use rows::Cell;

// Row r's limit of n; a null where the list is null.
pub fn limit_at(rows: Validity, n: usize, limits: ValueColumn, r: usize) -> Cell
    requires rows { Covers (bits_in rows) n }
    requires served { Serves true n (values_in limits) }
    requires there { r < n }
    ensures { result ≡ limit_at (bits_in rows.entry) (values_in limits.entry) r }
{
    if !rows.is_valid(r, n) {
        return None;
    }
    taken::taken_at(true, true, limits, n, r)
}
