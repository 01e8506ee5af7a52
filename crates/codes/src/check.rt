// What makes a recipe malformed.
ghost use Rattle.codes.specs.Codes.{columns_taken, step_in};
ghost use Rattle.model.specs.Basics.{any, tab};
ghost use Rattle.model.specs.Recipe.{malformed, step_at, wrong_number, wrong_step};
ghost use Rattle.std.specs.Prelude.{◌*◌, ◌≤◌, length, ◌≡◌, Some};

use crate::{Operation, Step};

// How many argument columns the operation takes.
#[tactic(auto, unfolding(crate::specs::Codes::columns_taken))]
fn columns_of(o: Operation) -> usize
    ensures { result ≡ columns_taken (Some o) }
{
    match o {
        Operation::One(op) => ops::takes(op).columns,
        Operation::Two(_) => 0,
    }
}

// Whether a used column isn't there, or an unused number is not 0.
#[tactic(auto, unfolding(model::specs::Recipe::wrong_number))]
fn is_wrong_number(columns: usize, used: bool, k: usize) -> bool
    ensures { result ≡ wrong_number columns used k }
{
    if used { columns <= k } else { k != 0 }
}

#[tactic(auto, using(crate::proofs::CheckLaws::wrong_at_none))]
fn is_wrong_step(columns: usize, step: Step) -> bool
    ensures { result ≡ wrong_step columns (step_in step) }
{
    let Some(operation) = crate::operation_of(step.code) else {
        return true;
    };
    let k = columns_of(operation);
    if is_wrong_number(columns, 0 < k, step.first) {
        return true;
    }
    if is_wrong_number(columns, 1 < k, step.second) {
        return true;
    }
    is_wrong_number(columns, 2 < k, step.third)
}

// Whether one of the first n steps is wrong.
#[tactic(auto, using(crate::proofs::CheckLaws::any_zero, crate::proofs::CheckLaws::any_more, crate::proofs::CheckLaws::any_found))]
fn has_wrong_step(recipe: &[u32], columns: usize, n: usize) -> bool
    requires { n * 4 ≤ length recipe.now }
    ensures { result ≡ any (wrong_step columns) (tab (step_at recipe.now) 0 n) }
{
    for k in 0..n {
        if is_wrong_step(columns, crate::step_at(recipe, k)) {
            return true;
        }
    }
    false
}

// Length not a multiple of 4, over 32 steps, over eight columns, or a wrong step.
#[tactic(auto, unfolding(model::specs::Recipe::malformed, model::specs::Recipe::steps_of))]
pub fn is_malformed(recipe: &[u32], columns: usize) -> bool
    ensures { result ≡ malformed (record { numbers = recipe.now; columns = columns }) }
{
    let n = recipe.len() / 4;
    recipe.len() % 4 != 0 || 32 < n || 8 < columns || has_wrong_step(recipe, columns, n)
}
