// What the operations on two lists check: what refuses them, and which rows are valid in both. An inner crate: its callers meet what it asks.
// After set_ops.rs of datafusion-functions-nested 55.2.0, Apache License 2.0, Apache Software Foundation; changed, see NOTICE.
#![tactic(auto)]

ghost use Rattle.std.specs.Prelude.{◌<◌, eqb, ◌&&◌, [], ◌∷◌, ◌≡◌};
ghost use Rattle.bitmap.specs.Push.{Covers};
ghost use Rattle.bitmap.specs.Reads.{bits_in};
ghost use Rattle.column.specs.Columns.{column_in};
ghost use Rattle.model.specs.Answers.{refused_by};
ghost use Rattle.model.specs.Bitmap.{valid_at};
ghost use Rattle.model.specs.Column.{row_count};
ghost use Rattle.model.specs.Outcome.{columns_refusal};
ghost use Rattle.model.specs.Refusals.{union_refusal};
ghost use Rattle.set_checks.specs.Earlier.{earlier};

use bitmap::Validity;
use column::lists::ListColumn;
use model::offsets::Offset;
use model::{Refusal, SetOp};

// Which of two lists' refusals comes first.
fn earlier(left: Result<(), Refusal>, right: Result<(), Refusal>) -> Result<(), Refusal>
    ensures { refused_by result ≡ earlier (refused_by left) (refused_by right) }
{
    match (left, right) {
        (Err(Refusal::BadStartingBit), _) | (_, Err(Refusal::BadStartingBit)) => {
            Err(Refusal::BadStartingBit)
        }
        (Err(Refusal::BadOffsets), _) | (_, Err(Refusal::BadOffsets)) => Err(Refusal::BadOffsets),
        (Err(Refusal::ShortBitmap), _) | (_, Err(Refusal::ShortBitmap)) => {
            Err(Refusal::ShortBitmap)
        }
        _ => Ok(()),
    }
}

// A starting bit over 7 of either list, else bad offsets of either, else a short bitmap of either.
pub fn lists_refusal<O: Offset>(left: ListColumn<O>, right: ListColumn<O>) -> Result<(), Refusal>
    ensures { refused_by result ≡ columns_refusal (column_in O.numbers left.entry ∷ column_in O.numbers right.entry ∷ []) [] }
{
    earlier(checks::list_refusal(left), checks::list_refusal(right))
}

// Whether both lists have as many rows.
pub fn same_row_count<O: Offset>(left: ListColumn<O>, right: ListColumn<O>) -> bool
    ensures { result ≡ eqb (row_count (column_in O.numbers right.entry).offsets) (row_count (column_in O.numbers left.entry).offsets) }
{
    right.row_count() == left.row_count()
}

// Whether row r of n is valid in both lists.
pub fn are_valid(left: Validity, right: Validity, n: usize, r: usize) -> bool
    requires left { Covers (bits_in left) n }
    requires right { Covers (bits_in right) n }
    requires there { r < n }
    ensures { result ≡ valid_at (bits_in left.entry) r && valid_at (bits_in right.entry) r }
{
    left.is_valid(r, n) && right.is_valid(r, n)
}

// A union of more elements than the offsets' width allows.
#[tactic(auto, unfolding(model::specs::Refusals::union_refusal))]
pub fn union_refusal<O: Offset>(op: SetOp, m: usize) -> Result<(), Refusal>
    ensures { refused_by result ≡ union_refusal O.LIMITS op m }
{
    match op {
        SetOp::Union if O::LIMITS.united < m => Err(Refusal::TooMany),
        _ => Ok(()),
    }
}
