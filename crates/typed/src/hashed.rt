// Distinct, union and intersect with a work area, which is all zero after every call, one that is not served too.
ghost use Rattle.column.specs.Columns.{column_in};
ghost use Rattle.entry_codes.specs.Calls.{hashed_call};
ghost use Rattle.hash_checks.specs.Narrow.{narrow_numbers};
ghost use Rattle.model.specs.Basics.{given};
ghost use Rattle.model.specs.Hash.{distinct_of, hashed_outcome};
ghost use Rattle.model.specs.Limits.{narrow};
ghost use Rattle.typed.specs.Typed.{HashServedIn};

use crate::put_list;
use column::lists::{ListColumn, ListOutput};
use entry_codes::set_of;
use hashed_lists::set_ops;

pub fn distinct(
    list: ListColumn<i32>,
    out: &mut ListOutput<i32>,
    area: &mut [u32],
    counts: &mut [u64],
) -> u32
    ensures { HashServedIn narrow_numbers (λ m. given (hashed_outcome narrow (distinct_of (column_in narrow_numbers list.entry)) m)) result out.old out.new area counts }
{
    if counts.len() < 4 {
        hash_slots::clear_area(area);
        return 100;
    }
    let answer = set_ops::general_array_distinct_hashed(list, out, area);
    put_list(answer, counts)
}

// Union or intersect, by its code.
pub fn lists<'a>(
    op: u32,
    left: ListColumn<'a, i32>,
    right: ListColumn<'a, i32>,
    out: &mut ListOutput<i32>,
    area: &mut [u32],
    counts: &mut [u64],
) -> u32
    ensures { HashServedIn narrow_numbers (hashed_call op (column_in narrow_numbers left.entry) (column_in narrow_numbers right.entry)) result out.old out.new area counts }
{
    let named = set_of(op);
    let Some(operation) = named else {
        hash_slots::clear_area(area);
        return 100;
    };
    if counts.len() < 4 {
        hash_slots::clear_area(area);
        return 100;
    }
    let answer = set_ops::generic_set_lists_hashed(left, right, operation, out, area);
    put_list(answer, counts)
}
