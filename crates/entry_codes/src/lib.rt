// The operations of each C entry, by the table of codes. An inner crate.
#![tactic(auto)]

ghost use Rattle.entry_codes.specs.Calls.{lent_of, one_of, set_of, unary_of, with_of};
ghost use Rattle.std.specs.Prelude.{◌≡◌};

use codes::{Operation, operation_of};
use model::{SetOp, Unary};
use ops::ListOp;

// An operation on one list that takes no argument columns.
#[tactic(auto, unfolding(crate::specs::Calls::lent_of, crate::specs::Calls::unary_of, crate::specs::Calls::plain_in, crate::specs::Calls::plain_of))]
pub fn unary_of(code: u32) -> Option<Unary>
    ensures { lent_of result ≡ unary_of code }
{
    match operation_of(code) {
        Some(Operation::One(ListOp::Plain(unary))) => Some(unary),
        _ => None,
    }
}

// An operation on two lists.
#[tactic(auto, unfolding(crate::specs::Calls::lent_of, crate::specs::Calls::set_of, crate::specs::Calls::set_in))]
pub fn set_of(code: u32) -> Option<SetOp>
    ensures { lent_of result ≡ set_of code }
{
    match operation_of(code) {
        Some(Operation::Two(op)) => Some(op),
        _ => None,
    }
}

// An operation on one list, with argument columns or without: the table's, and 11, resize without fill.
#[tactic(auto, unfolding(crate::specs::Calls::lent_of, crate::specs::Calls::one_of, crate::specs::Calls::one_in))]
pub fn one_of(code: u32) -> Option<ListOp>
    ensures { lent_of result ≡ one_of code }
{
    if code == 11 {
        return Some(ListOp::Resize);
    }
    match operation_of(code) {
        Some(Operation::One(op)) => Some(op),
        _ => None,
    }
}

// One that takes argument columns.
#[tactic(auto, unfolding(crate::specs::Calls::lent_of, crate::specs::Calls::with_of, crate::specs::Calls::taking_in, crate::specs::Calls::taking_of))]
pub fn with_of(code: u32) -> Option<ListOp>
    ensures { lent_of result ≡ with_of code }
{
    match one_of(code) {
        Some(ListOp::Plain(_)) => None,
        named => named,
    }
}
