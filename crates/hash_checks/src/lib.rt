// What distinct, union and intersect with a work area test: how much of it the longest row or pair of rows needs, and what
// refuses it. An inner crate: its callers meet what it asks.
#![tactic(auto)]

ghost use Rattle.std.specs.Prelude.{◌+◌, ◌<◌, ◌≤◌, ltb, ◌≡◌};
ghost use Rattle.column.specs.Columns.{column_in};
ghost use Rattle.column.specs.Put.{Readable};
ghost use Rattle.hash_checks.specs.Area.{most_needed, op_refusal, row_need};
ghost use Rattle.hash_checks.specs.Narrow.{narrow_numbers};
ghost use Rattle.model.specs.Answers.{refused_by};
ghost use Rattle.model.specs.Basics.{pick};
ghost use Rattle.model.specs.Column.{length_at, row_count};
ghost use Rattle.model.specs.Limits.{narrow};

use column::lists::ListColumn;
use model::{Refusal, SetOp};

// The operations that take a work area: distinct, which looks at the left row alone, and those on two lists.
#[derive(Clone, Copy)]
pub enum HashOp {
    Distinct,
    Pair(SetOp),
}

// The elements of rows of n and m elements that count for the work area.
#[tactic(auto, unfolding(crate::specs::Area::row_need))]
fn need_of(op: HashOp, n: usize, m: usize) -> usize
    requires few { n ≤ narrow.offset }
    requires low { m ≤ narrow.offset }
    ensures { result ≡ row_need op n m }
{
    match op {
        HashOp::Distinct => n,
        HashOp::Pair(_) => n + m,
    }
}

// The same, and none of a pair that is not valid on both sides.
fn valid_need(op: HashOp, valid: bool, n: usize, m: usize) -> usize
    requires few { n ≤ narrow.offset }
    requires low { m ≤ narrow.offset }
    ensures { result ≡ pick valid (row_need op n m) 0 }
{
    if valid { need_of(op, n, m) } else { 0 }
}

// The length of row r, whether it is valid or not.
fn row_length(list: ListColumn<i32>, r: usize) -> usize
    requires readable { Readable (column_in narrow_numbers list) }
    requires there { r < row_count list.offsets.now }
    ensures value { result ≡ length_at (column_in narrow_numbers list.entry) r }
    ensures upper_bound { result ≤ narrow.offset }
{
    list.offset_at(r + 1) - list.offset_at(r)
}

// The elements of the longest row, or pair of rows, that counts.
pub fn most_needed(op: HashOp, left: ListColumn<i32>, right: ListColumn<i32>) -> usize
    requires left { Readable (column_in narrow_numbers left) }
    requires right { Readable (column_in narrow_numbers right) }
    requires equal { row_count right.offsets.now ≡ row_count left.offsets.now }
    ensures value { result ≡ most_needed op (column_in narrow_numbers left.entry) (column_in narrow_numbers right.entry) }
    ensures upper_bound { result ≤ 4294967294 }
{
    let n = left.row_count();
    let mut most: usize = 0;
    for r in 0..n {
        let valid = set_checks::are_valid(left.rows, right.rows, n, r);
        let need = valid_need(op, valid, row_length(left, r), row_length(right, r));
        most = most.max(need);
    }
    most
}

// Whether so many slots are under twice the elements of the longest row or pair.
pub fn is_short(slots: usize, longest: usize) -> bool
    requires few { longest ≤ 4294967294 }
    ensures { result ≡ ltb slots (longest + longest) }
{
    slots < longest + longest
}

// A union of too many elements.
#[tactic(auto, unfolding(crate::specs::Area::op_refusal))]
pub fn op_refusal(op: HashOp, m: usize) -> Result<(), Refusal>
    ensures { refused_by result ≡ op_refusal op m }
{
    match op {
        HashOp::Distinct => Ok(()),
        HashOp::Pair(k) => set_checks::union_refusal::<i32>(k, m),
    }
}
