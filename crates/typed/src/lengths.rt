// How much to lend, told as the number that an entry returns, with the lengths in a lent slice.
ghost use Rattle.std.specs.Prelude.{◌≤◌, length};
ghost use Rattle.model.specs.Asked.{asked_list, asked_recipe, asked_repeat, asked_values};
ghost use Rattle.model.specs.Call.{limit_counts, repeat_room_counts, room_counts, value_room_counts};
ghost use Rattle.typed.specs.Typed.{TypedLengths};

use crate::put_counts;
use model::{
    ListLengths, ListSlots, RecipeLimits, RepeatLengths, RepeatSlots, TrayElements, ValueLengths,
    ValueSlots,
};

pub fn put_list(answer: ListLengths, lengths: &mut [u64]) -> u32
    requires { 4 ≤ length lengths.old }
    ensures { TypedLengths room_counts (asked_list answer) result lengths.old lengths.new }
{
    match answer {
        Err(refusal) => u32::from(refusal),
        Ok(
            ListSlots {
                offsets,
                rows,
                values,
                elements,
            },
        ) => {
            let ns = [offsets as u64, rows as u64, values as u64, elements as u64];
            put_counts(&ns, lengths);
            0
        }
    }
}

pub fn put_values(answer: ValueLengths, lengths: &mut [u64]) -> u32
    requires { 2 ≤ length lengths.old }
    ensures { TypedLengths value_room_counts (asked_values answer) result lengths.old lengths.new }
{
    match answer {
        Err(refusal) => u32::from(refusal),
        Ok(ValueSlots { values, rows }) => {
            let ns = [values as u64, rows as u64];
            put_counts(&ns, lengths);
            0
        }
    }
}

pub fn put_repeat(answer: RepeatLengths, lengths: &mut [u64]) -> u32
    requires { 6 ≤ length lengths.old }
    ensures { TypedLengths repeat_room_counts (asked_repeat answer) result lengths.old lengths.new }
{
    match answer {
        Err(refusal) => u32::from(refusal),
        Ok(
            RepeatSlots {
                offsets,
                rows,
                inner_offsets,
                inner_rows,
                values,
                elements,
            },
        ) => {
            let ns = [
                offsets as u64,
                rows as u64,
                inner_offsets as u64,
                inner_rows as u64,
                values as u64,
                elements as u64,
            ];
            put_counts(&ns, lengths);
            0
        }
    }
}

pub fn put_limits(answer: RecipeLimits, limits: &mut [u64]) -> u32
    requires { 3 ≤ length limits.old }
    ensures { TypedLengths limit_counts (asked_recipe answer) result limits.old limits.new }
{
    match answer {
        Err(refusal) => u32::from(refusal),
        Ok(TrayElements { one, two, output }) => {
            let ns = [one as u64, two as u64, output as u64];
            put_counts(&ns, limits);
            0
        }
    }
}
