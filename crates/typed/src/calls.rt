// The entries' calls at either width, over columns and outputs: 100 where the code names no such operation or the counts have too few
// places, otherwise the operation's answer told.
ghost use Rattle.column.specs.Columns.{column_in, values_in};
ghost use Rattle.entry_codes.specs.Calls.{one_call, set_call};
ghost use Rattle.model.specs.Outcome.{any_value_outcome, element_outcome, repeat_outcome};
ghost use Rattle.typed.specs.Typed.{ListServedIn, RepeatServedIn, ValueServedIn};

use crate::{put_list, put_repeat, put_values};
use column::elements::{ValueColumn, ValueOutput};
use column::lists::{ListColumn, ListOutput, OuterOutput};
use entry_codes::{one_of, set_of};
use lists::{extract, repeat, set_ops};
use model::offsets::Offset;

// An operation on one list.
pub fn list<O: Offset>(
    op: u32,
    list: ListColumn<O>,
    first: ValueColumn,
    second: ValueColumn,
    third: ValueColumn,
    out: &mut ListOutput<O>,
    counts: &mut [u64],
) -> u32
    ensures { ListServedIn O.numbers (one_call O.LIMITS op (column_in O.numbers list.entry) (values_in first.entry) (values_in second.entry) (values_in third.entry)) result out.old out.new counts }
{
    let named = one_of(op);
    let Some(operation) = named else {
        return 100;
    };
    if counts.len() < 4 {
        return 100;
    }
    let answer = list_walk::run(operation, list, first, second, third, out);
    put_list(answer, counts)
}

// An operation on two lists.
pub fn lists<O: Offset>(
    op: u32,
    left: ListColumn<O>,
    right: ListColumn<O>,
    out: &mut ListOutput<O>,
    counts: &mut [u64],
) -> u32
    ensures { ListServedIn O.numbers (set_call O.LIMITS op (column_in O.numbers left.entry) (column_in O.numbers right.entry)) result out.old out.new counts }
{
    let named = set_of(op);
    let Some(operation) = named else {
        return 100;
    };
    if counts.len() < 4 {
        return 100;
    }
    let answer = set_ops::generic_set_lists(left, right, operation, out);
    put_list(answer, counts)
}

// The first valid element of each row.
pub fn any_value<O: Offset>(list: ListColumn<O>, out: &mut ValueOutput, counts: &mut [u64]) -> u32
    ensures { ValueServedIn (any_value_outcome (column_in O.numbers list.entry)) result out.old out.new counts }
{
    if counts.len() < 2 {
        return 100;
    }
    let answer = extract::general_array_any_value(list, out);
    put_values(answer, counts)
}

// The element of each row that its index names.
pub fn element<O: Offset>(
    list: ListColumn<O>,
    indexes: ValueColumn,
    out: &mut ValueOutput,
    counts: &mut [u64],
) -> u32
    ensures { ValueServedIn (element_outcome O.LIMITS (column_in O.numbers list.entry) (values_in indexes.entry)) result out.old out.new counts }
{
    if counts.len() < 2 {
        return 100;
    }
    let answer = extract::general_array_element(list, indexes, out);
    put_values(answer, counts)
}

// Each list as many times as its count says.
pub fn list_repeat<O: Offset>(
    list: ListColumn<O>,
    times: ValueColumn,
    out: &mut OuterOutput<O>,
    inner: &mut ListOutput<O>,
    counts: &mut [u64],
) -> u32
    ensures { RepeatServedIn O.numbers (repeat_outcome O.LIMITS (column_in O.numbers list.entry) (values_in times.entry)) result out.old out.new inner.old inner.new counts }
{
    if counts.len() < 6 {
        return 100;
    }
    let answer = repeat::general_list_repeat(list, times, out, inner);
    put_repeat(answer, counts)
}
