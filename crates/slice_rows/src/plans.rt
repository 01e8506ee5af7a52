// The plan of a row, from its arguments' numbers.
ghost use Rattle.std.specs.Prelude.{◌<◌, ◌≤◌, ◌≡◌};
ghost use Rattle.index.specs.Plan.{stride_in};
ghost use Rattle.slice_rows.specs.Columns.{slice_in};
ghost use Rattle.slice_rows.specs.Sliced.{HasRow, plan_at, plan_count, stride_at};

use crate::SliceColumns;
use index::slice::SlicePlan;
use model::offsets::Offset;

// The stride of row r, where the slice goes by one.
#[inline(always)]
#[tactic(auto, unfolding(crate::specs::Sliced::stride_at, index::specs::Plan::stride_in))]
fn stride_at(columns: SliceColumns, r: usize) -> Option<i64>
    requires { HasRow (slice_in columns) r }
    ensures { stride_in result ≡ stride_at (slice_in columns.entry).stride r }
{
    match columns.stride {
        Some(column) => Some(column.values[r]),
        None => None,
    }
}

// The plan of row r, of len elements; an empty one where the row or an argument is null. Made in its place: a call would copy the
// columns for each row.
#[inline(always)]
#[tactic(auto, unfolding(crate::specs::Sliced::plan_at))]
pub fn plan_at<O: Offset>(valid: bool, columns: SliceColumns, r: usize, len: usize) -> SlicePlan
    requires there { HasRow (slice_in columns) r }
    requires small { len ≤ O.LIMITS.offset }
    ensures { result ≡ plan_at O.LIMITS valid (slice_in columns.entry) r len }
{
    if !valid {
        return Ok(None);
    }
    index::slice::compute_slice_plan::<O>(
        len,
        columns.from.values[r],
        columns.to.values[r],
        stride_at(columns, r),
    )
}

// The number of places of a plan: none where it is empty or refused.
#[tactic(auto, unfolding(crate::specs::Sliced::plan_count, crate::specs::Sliced::steps_count))]
pub fn count_of(plan: SlicePlan) -> usize
    ensures { result ≡ plan_count plan }
{
    match plan {
        Ok(Some(steps)) => steps.count,
        Ok(None) => 0,
        Err(_) => 0,
    }
}
