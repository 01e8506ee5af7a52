// Operation codes: the table of what each names, a recipe's steps, and what makes a recipe's numbers malformed. An inner crate.
#![tactic(auto)]

pub mod check;

ghost use Rattle.codes.specs.Codes.{operation_of, step_in};
ghost use Rattle.model.specs.Recipe.{step_at};
ghost use Rattle.std.specs.Prelude.{◌*◌, ◌+◌, ◌≤◌, length, ◌≡◌};

use model::{SetOp, Unary};
use ops::ListOp;

// An operation on one list and its argument columns, or one on two lists.
#[derive(Clone, Copy)]
pub enum Operation {
    One(ListOp),
    Two(SetOp),
}

// The four numbers of a step: its code, and three argument columns.
#[derive(Clone, Copy)]
pub struct Step {
    pub code: u32,
    pub first: usize,
    pub second: usize,
    pub third: usize,
}

// The table of codes: what a code names, if it names an operation.
#[tactic(auto, using(crate::proofs::CheckLaws::none_rest), unfolding(crate::specs::Codes::operation_of))]
pub fn operation_of(code: u32) -> Option<Operation>
    ensures { result ≡ operation_of code }
{
    Some(match code {
        0 => Operation::One(ListOp::Plain(Unary::Reverse)),
        1 => Operation::One(ListOp::Plain(Unary::Distinct)),
        2 => Operation::One(ListOp::Plain(Unary::PopFront)),
        3 => Operation::One(ListOp::Plain(Unary::PopBack)),
        4 => Operation::One(ListOp::SliceBy),
        5 => Operation::One(ListOp::Slice),
        6 => Operation::One(ListOp::ResizeWith),
        7 => Operation::One(ListOp::Replace),
        8 => Operation::One(ListOp::Remove),
        9 => Operation::Two(SetOp::Union),
        10 => Operation::Two(SetOp::Intersect),
        _ => return None,
    })
}

// Step k of a recipe.
pub fn step_at(recipe: &[u32], k: usize) -> Step
    requires { 4 * k + 4 ≤ length recipe.now }
    ensures { step_in result ≡ step_at recipe.now k }
{
    let i = 4 * k;
    Step {
        code: recipe[i],
        first: recipe[i + 1] as usize,
        second: recipe[i + 2] as usize,
        third: recipe[i + 3] as usize,
    }
}
