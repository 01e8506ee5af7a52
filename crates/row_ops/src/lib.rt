// What reverse, distinct and the pops make of one row. An inner crate: its callers meet what it asks.
#![tactic(auto)]

mod reverse;

ghost use Rattle.column.specs.Columns.{elems_in};
ghost use Rattle.column.specs.Outputs.{RoomForElems, Writes, ReadableElems};
ghost use Rattle.model.specs.Elements.{unary_elems};
ghost use Rattle.std.specs.Prelude.{length, ◌≡◌};

use column::elements::{ValueColumn, ValueOutput};
use kept_elements::distinct;
use model::Unary;
use rows::utils;

// The number of elements that the operation makes of the n elements from element a on.
#[tactic(auto, unfolding(model::specs::Elements::unary_elems))]
pub fn measure_plain(op: Unary, elements: ValueColumn, a: usize, n: usize) -> usize
    requires column { ReadableElems elements a n }
    ensures { result ≡ length (unary_elems op (elems_in elements.entry a n)) }
{
    match op {
        Unary::Reverse => n,
        Unary::Distinct => distinct::measure_distinct(elements, a, n),
        Unary::PopFront => utils::one_less(n),
        Unary::PopBack => utils::one_less(n),
    }
}

// Writes what the operation makes of the n elements from element a on; gives the next place.
#[tactic(auto, using(set_elements::proofs::ElementLaws::pop_front, set_elements::proofs::ElementLaws::pop_back), unfolding(model::specs::Elements::unary_elems))]
pub fn write_plain(
    op: Unary,
    elements: ValueColumn,
    a: usize,
    n: usize,
    out: &mut ValueOutput,
    at: usize,
) -> usize
    requires column { ReadableElems elements a n }
    requires room { RoomForElems (unary_elems op (elems_in elements a n)) at out.old }
    ensures { Writes (unary_elems op (elems_in elements.entry a n)) at out.old out.new result }
{
    let k = utils::one_less(n);
    match op {
        Unary::Reverse => reverse::write_backward(elements, a, n, out, at),
        Unary::Distinct => distinct::write_distinct(elements, a, n, out, at),
        Unary::PopFront => utils::write_forward(elements, a + (n - k), k, out, at),
        Unary::PopBack => utils::write_forward(elements, a, k, out, at),
    }
}
