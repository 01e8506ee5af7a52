// The arguments of a row, taken from the columns that the operation takes, and refusals 13, 2 and 3 of those.
ghost use Rattle.arguments.specs.Taken.{Serves, arguments_refusal, cell_of, over_if, place_in, short_if, start_over, taken_at, wrong_if};
ghost use Rattle.bitmap.specs.Push.{Covers};
ghost use Rattle.bitmap.specs.Reads.{bits_in};
ghost use Rattle.column.specs.Columns.{values_in, elem_in};
ghost use Rattle.model.specs.Answers.{refused_by};
ghost use Rattle.std.specs.Prelude.{◌<◌, eqb, length, ◌&&◌, false, true, ◌≡◌};

use column::elements::ValueColumn;
use model::Refusal;
use ops::ListOp;
use rows::Cell;

// The argument at place i.
fn cell_at(column: ValueColumn, i: usize) -> Cell
    requires covers { Covers (bits_in column.bits) (length column.values.now) }
    requires i_in_bounds { i < length column.values.now }
    ensures { result ≡ cell_of (elem_in column.entry i) }
{
    if column.bits.is_valid(i, column.values.len()) {
        return Some(column.values[i]);
    }
    None
}

// Whether a column of len rows is a limit of one row, used for all.
fn serves_all(limit: bool, len: usize) -> bool
    ensures { result ≡ limit && eqb len 1 }
{
    limit && len == 1
}

// Where row r's argument stands among len.
#[tactic(auto, unfolding(crate::specs::Taken::place_in))]
fn place_in(limit: bool, len: usize, r: usize) -> usize
    ensures { result ≡ place_in limit len r }
{
    if serves_all(limit, len) {
        return 0;
    }
    r
}

// Row r's argument of n; a null where the column is not taken.
#[tactic(auto, unfolding(crate::specs::Taken::taken_at))]
pub fn taken_at(on: bool, limit: bool, column: ValueColumn, n: usize, r: usize) -> Cell
    requires serves { on ≡ true → Serves limit n (values_in column) }
    requires r_lt_n { r < n }
    ensures { result ≡ taken_at on limit (values_in column.entry) r }
{
    if !on {
        return None;
    }
    let i = place_in(limit, column.values.len(), r);
    cell_at(column, i)
}

// Whether a column that is taken has a starting bit over 7.
#[tactic(auto, unfolding(crate::specs::Taken::over_if))]
fn is_over_if(on: bool, column: ValueColumn) -> bool
    ensures { result ≡ over_if on column.entry.bits.start }
{
    on && column.bits.is_start_over()
}

// Whether any column that is taken has one; the others are not looked at.
pub fn is_start_over(op: ListOp, xs: ValueColumn, ys: ValueColumn, zs: ValueColumn) -> bool
    ensures { result ≡ start_over op xs.entry.bits.start ys.entry.bits.start zs.entry.bits.start }
{
    let t = ops::takes(op);
    let k = t.columns;
    is_over_if(0 < k, xs) | is_over_if(1 < k, ys) | is_over_if(2 < k, zs)
}

// Whether a column that is taken has too short a bitmap.
fn is_short_if(on: bool, column: ValueColumn) -> bool
    requires { over_if on column.bits.start ≡ false }
    ensures { result ≡ short_if on (values_in column.entry) }
{
    on && column.bits.is_short(column.values.len())
}

// Whether a column that is taken has another number of rows than n, and is no limit of one row.
#[tactic(auto, unfolding(crate::specs::Taken::wrong_if))]
fn is_wrong_if(on: bool, limit: bool, n: usize, column: ValueColumn) -> bool
    ensures { result ≡ wrong_if on limit n (length column.entry.values.now) }
{
    let len = column.values.len();
    on && !serves_all(limit, len) && len != n
}

// 2 of any column that is taken, else 3 of any, if either.
pub fn arguments_refusal(
    op: ListOp,
    n: usize,
    xs: ValueColumn,
    ys: ValueColumn,
    zs: ValueColumn,
) -> Result<(), Refusal>
    requires { start_over op xs.bits.start ys.bits.start zs.bits.start ≡ false }
    ensures { refused_by result ≡ arguments_refusal op n (values_in xs.entry) (values_in ys.entry) (values_in zs.entry) }
{
    let t = ops::takes(op);
    let k = t.columns;
    let short = is_short_if(0 < k, xs) | is_short_if(1 < k, ys) | is_short_if(2 < k, zs);
    if short {
        return Err(Refusal::ShortBitmap);
    }
    let wrong = is_wrong_if(0 < k, false, n, xs)
        | is_wrong_if(1 < k, t.limits(2), n, ys)
        | is_wrong_if(2 < k, t.limits(3), n, zs);
    if wrong {
        return Err(Refusal::RowCountsDiffer);
    }
    Ok(())
}
