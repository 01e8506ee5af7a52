// Whether an answer, or an output, is the one wanted: true exactly when the two are equal. Slices are compared whole.
#![tactic(auto)]

ghost use Rattle.compare.specs.Same.{Same};
ghost use Rattle.std.proofs.lemmas.Bool.Decides.{Decides-eqb, Decides-int_eq};
ghost use Rattle.std.specs.Bool.{Decides};
ghost use Rattle.std.specs.Prelude.{◌≡◌, Ok, Err};

use model::{
    ListAnswer, ListCounts, Refusal, RepeatAnswer, RepeatCounts, ValueAnswer, ValueCounts,
};

// What the cases want in a null slot of a result.
pub const UNDER_NULL: i64 = -9223372036854775808;

// Types whose `==` is equality.
pub trait Exact: PartialEq {
    ghost exact: { (a b : Self) → Decides (Self.eq a b) (a ≡ b) };
}

impl Exact for u8 {
    ghost exact = { Decides-eqb };
}

impl Exact for i32 {
    ghost exact = { Decides-int_eq };
}

impl Exact for i64 {
    ghost exact = { Decides-int_eq };
}

// Whether two slices hold the same.
pub fn same<T: Exact>(got: &[T], want: &[T]) -> bool
    ensures { Same got.now want.now result }
{
    got == want
}

// Whether a list answer has these counts of rows, elements, null rows and null elements.
pub fn list_counts(answer: ListAnswer, r: usize, e: usize, nr: usize, ne: usize) -> bool
    ensures { Same answer (Ok (record { rows = r; elements = e; null_rows = nr; null_elements = ne })) result }
{
    answer
        == Ok(ListCounts {
            rows: r,
            elements: e,
            null_rows: nr,
            null_elements: ne,
        })
}

// Whether a list answer is this refusal.
pub fn list_refused(answer: ListAnswer, refusal: Refusal) -> bool
    ensures { Same answer (Err refusal) result }
{
    answer == Err(refusal)
}

// Whether a value answer has these counts of rows and null rows.
pub fn value_counts(answer: ValueAnswer, r: usize, nr: usize) -> bool
    ensures { Same answer (Ok (record { rows = r; null_rows = nr })) result }
{
    answer
        == Ok(ValueCounts {
            rows: r,
            null_rows: nr,
        })
}

// Whether a value answer is this refusal.
pub fn value_refused(answer: ValueAnswer, refusal: Refusal) -> bool
    ensures { Same answer (Err refusal) result }
{
    answer == Err(refusal)
}

// Whether an answer of list-repeat has these counts of rows, elements, null rows, null elements, inner rows and null inner rows.
pub fn repeat_counts(
    answer: RepeatAnswer,
    rows: usize,
    elements: usize,
    null_rows: usize,
    null_elements: usize,
    inner_rows: usize,
    null_inner_rows: usize,
) -> bool
    ensures { Same answer (Ok (record { rows = rows; elements = elements; null_rows = null_rows; null_elements = null_elements; inner_rows = inner_rows; null_inner_rows = null_inner_rows })) result }
{
    answer
        == Ok(RepeatCounts {
            rows,
            elements,
            null_rows,
            null_elements,
            inner_rows,
            null_inner_rows,
        })
}
