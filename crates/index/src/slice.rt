// The places that a slice takes of a row, by signed arithmetic of the offsets' own width.
// After extract.rs of datafusion-functions-nested 55.2.0, Apache License 2.0, Apache Software Foundation; changed, see NOTICE.
ghost use Rattle.std.specs.Prelude.{IfSome, ◌+◌, ◌/◌, ◌%◌, ◌-◌, ◌≤◌, nat_abs, pos, true, ◌≡◌};
ghost use Rattle.index.specs.Plan.{Eight, IsLength, IsPlace, Suits, is_below, place_told, plan_of, stride_in};
ghost use Rattle.model.specs.Column.{count};
ghost use Rattle.model.specs.Limits.{InRange};
ghost use Rattle.model.specs.Slice.{against, from_place, slice_plan, step_count, strided, to_place};

use model::Refusal;
use model::offsets::Offset;

// So many places from a start on by a stride.
#[derive(Clone, Copy, PartialEq, Eq)]
pub struct Steps {
    pub start: usize,
    pub stride: i64,
    pub count: usize,
}

// The places, none where the slice is empty, or why it is refused.
pub type SlicePlan = Result<Option<Steps>, Refusal>;

// The place of a from, which may still be past the end: from 0 or 1 is the first place, and so is a from below minus the length.
#[tactic(auto, unfolding(model::specs::Column::count, model::specs::Slice::from_place))]
fn adjusted_from_index<O: Offset>(index: O, len: O) -> O
    requires index { InRange O.LIMITS (O.number index) }
    requires len { IsLength O.LIMITS (O.number len) }
    ensures { O.number result ≡ pos (from_place (count (O.number len)) (O.number index)) }
{
    if index < O::ZERO {
        let at = index + len;
        if at < O::ZERO {
            return O::ZERO;
        }
        return at;
    }
    if index < O::ONE {
        return O::ZERO;
    }
    index - O::ONE
}

// The place of a to, below 0 where it is outside the row: a to past the end is the last place, and so is -1.
#[tactic(auto, unfolding(model::specs::Column::count, model::specs::Slice::in_row, model::specs::Slice::to_place, crate::specs::Plan::place_told))]
fn adjusted_to_index<O: Offset>(index: O, len: O) -> O
    requires index { InRange O.LIMITS (O.number index) }
    requires len { IsLength O.LIMITS (O.number len) }
    ensures place { place_told (O.number result) ≡ to_place (count (O.number len)) (O.number index) }
    ensures most { count (O.number result) ≤ count (O.number len) - 1 }
{
    if index < O::ZERO {
        return index + len;
    }
    if len < index {
        return len - O::ONE;
    }
    index - O::ONE
}

// Whether the stride leads away from to.
#[tactic(auto, unfolding(model::specs::Column::count, model::specs::Slice::against))]
fn is_against<O: Offset>(from: O, to: O, stride: i64) -> bool
    requires place { IsPlace O.LIMITS (O.number from) }
    requires place_2 { IsPlace O.LIMITS (O.number to) }
    ensures { result ≡ against (count (O.number from)) (count (O.number to)) stride }
{
    if stride < 0 {
        return from < to;
    }
    to < from
}

// The steps that a distance holds, by a stride below 0, and what is left of it: that falls by each of them, and its sum with the stride
// stays in range, where the stride's size might not. Counted without a division, as the rules ask, so by no `for`.
#[tactic(auto, unfolding(model::specs::Column::count, crate::specs::Plan::is_below))]
fn take_steps<O: Offset>(distance: O, stride: O) -> (O, O)
    requires place { IsPlace O.LIMITS (O.number distance) }
    requires stride_range { InRange O.LIMITS (O.number stride) }
    requires stride_value { is_below (O.number stride) ≡ true }
    ensures taken { O.number result.0 ≡ pos (count (O.number distance) / nat_abs (O.number stride)) }
    ensures left { O.number result.1 ≡ pos (count (O.number distance) % nat_abs (O.number stride)) }
{
    let mut left = distance;
    let mut taken = O::ZERO;
    while O::ZERO <= left + stride {
        left = left + stride;
        taken = taken + O::ONE;
    }
    (taken, left)
}

// Eight strides at once, where they stay in range.
#[tactic(auto, unfolding(crate::specs::Plan::is_below))]
fn eight_strides<O: Offset>(stride: O) -> Option<O>
    requires { is_below (O.number stride) ≡ true }
    ensures { IfSome result (λ x. Eight O.LIMITS (O.number stride) (O.number x)) }
{
    if stride < O::EIGHTH {
        return None;
    }
    Some(stride * O::EIGHT)
}

// One more than the steps that a distance holds, by a stride below 0: by eight strides at once, then one by one over the rest.
#[tactic(auto, unfolding(model::specs::Column::count, crate::specs::Plan::is_below))]
fn count_down<O: Offset>(distance: O, stride: O) -> O
    requires place { IsPlace O.LIMITS (O.number distance) }
    requires stride_range { InRange O.LIMITS (O.number stride) }
    requires stride_value { is_below (O.number stride) ≡ true }
    ensures { O.number result ≡ pos (count (O.number distance) / nat_abs (O.number stride) + 1) }
{
    let Some(eight) = eight_strides(stride) else {
        let (steps, _) = take_steps(distance, stride);
        return steps + O::ONE;
    };
    let (eights, rest) = take_steps(distance, eight);
    let (steps, _) = take_steps(rest, stride);
    eights * O::EIGHT + steps + O::ONE
}

// How many places there are from from by stride, to included: one by one there are as many as the distance and one; else they are
// counted by stepping, a stride above 0 turned round.
#[tactic(auto, unfolding(model::specs::Column::count, model::specs::Slice::against, model::specs::Slice::is_zero, model::specs::Slice::step_count, crate::specs::Plan::is_below))]
fn count_steps<O: Offset>(from: O, to: O, stride: O) -> O
    requires stride_range { InRange O.LIMITS (O.number stride) }
    requires suits { Suits O.LIMITS (O.number from) (O.number to) (O.number stride) }
    ensures { O.number result ≡ pos (step_count (count (O.number from)) (count (O.number to)) (O.number stride)) }
{
    if stride < O::ZERO {
        return count_down(from - to, stride);
    }
    let distance = to - from;
    if stride <= O::ONE {
        return distance + O::ONE;
    }
    count_down(distance, O::ZERO - stride)
}

// The plan between two places of the row.
#[tactic(auto, unfolding(model::specs::Column::count, model::specs::Slice::is_zero, model::specs::Slice::strided, crate::specs::Plan::plan_of, crate::specs::Plan::refusal_of))]
fn plan_steps<O: Offset>(from: O, to: O, stride: i64) -> SlicePlan
    requires place { IsPlace O.LIMITS (O.number from) }
    requires place_2 { IsPlace O.LIMITS (O.number to) }
    ensures { result ≡ plan_of (strided O.LIMITS (count (O.number from)) (count (O.number to)) stride) }
{
    if stride == 0 {
        return Err(Refusal::ZeroStride);
    }
    if is_against(from, to, stride) {
        return Ok(None);
    }
    let by = O::from_number(stride).ok_or(Refusal::WideStride)?;
    let count = count_steps(from, to, by);
    Ok(Some(Steps {
        start: from.to_number() as usize,
        stride,
        count: count.to_number() as usize,
    }))
}

// An absent stride is 1.
#[tactic(auto, unfolding(crate::specs::Plan::stride_in))]
fn stride_of(stride: Option<i64>) -> i64
    ensures { result ≡ stride_in stride }
{
    stride.unwrap_or(1)
}

// The places that a slice takes of a row of len elements.
#[tactic(auto, unfolding(model::specs::Column::count, model::specs::Slice::in_row, model::specs::Slice::from_bound, model::specs::Slice::to_bound, model::specs::Slice::between, model::specs::Slice::slice_plan, crate::specs::Plan::place_told, crate::specs::Plan::plan_of, crate::specs::Plan::refusal_of))]
pub fn compute_slice_plan<O: Offset>(
    len: usize,
    from: i64,
    to: i64,
    stride: Option<i64>,
) -> SlicePlan
    requires { len ≤ O.LIMITS.offset }
    ensures { result ≡ plan_of (slice_plan O.LIMITS len from to (stride_in stride)) }
{
    if len == 0 {
        return Ok(None);
    }
    let from = O::from_number(from).ok_or(Refusal::WideIndex)?;
    let to = O::from_number(to).ok_or(Refusal::WideIndex)?;
    let len = O::from_count(len);
    let first = adjusted_from_index(from, len);
    let last = adjusted_to_index(to, len);
    if len <= first {
        return Ok(None);
    }
    if last < O::ZERO {
        return Ok(None);
    }
    plan_steps(first, last, stride_of(stride))
}
