// The answers, their nulls counted in the bitmaps written. An inner crate: its callers meet what it asks.
#![tactic(auto)]

ghost use Rattle.std.specs.Prelude.{◌≤◌, length, ◌≡◌};
ghost use Rattle.column.specs.Answers.{list_answer_from, unset, value_answer_from};
ghost use Rattle.model.specs.Bitmap.{bytes_for};

use column::elements::ValueOutput;
use column::lists::ListOutput;
use model::{ListAnswer, ListCounts, ValueAnswer, ValueCounts};

// How many of the first n bits are 0.
pub fn count_nulls(bits: &[u8], n: usize) -> usize
    requires { bytes_for n ≤ length bits.now }
    ensures { result ≡ unset bits.now n }
{
    n - bit_words::count_set(bits, n)
}

// How many of the first m elements written are null.
pub fn null_elements(out: &ValueOutput, m: usize) -> usize
    requires { bytes_for m ≤ length out.now.bits.now }
    ensures { result ≡ unset out.now.bits.now m }
{
    count_nulls(out.bits, m)
}

// The answer for n rows and m elements written.
#[tactic(auto, unfolding(column::specs::Answers::list_answer_from))]
pub fn list_answer<O>(out: &ListOutput<O>, n: usize, m: usize) -> ListAnswer
    requires n_in_bounds { bytes_for n ≤ length out.now.rows.now }
    requires m_in_bounds { bytes_for m ≤ length out.now.elements.now.bits.now }
    ensures { result ≡ list_answer_from out.now.rows.now n out.now.elements.now.bits.now m }
{
    Ok(ListCounts {
        rows: n,
        elements: m,
        null_rows: count_nulls(out.rows, n),
        null_elements: null_elements(out.elements, m),
    })
}

// The answer for n values written.
#[tactic(auto, unfolding(column::specs::Answers::value_answer_from))]
pub fn value_answer(out: &ValueOutput, n: usize) -> ValueAnswer
    requires { bytes_for n ≤ length out.now.bits.now }
    ensures { result ≡ value_answer_from out.now.bits.now n }
{
    Ok(ValueCounts {
        rows: n,
        null_rows: count_nulls(out.bits, n),
    })
}
