// What the typed C entries share: their calls at either width, the columns that these take, and answers as the number that an entry
// returns, with the counts of an accepted call in a lent slice. A refusal writes nothing. An inner crate: its callers meet what it asks.
#![tactic(auto)]

pub mod calls;
pub mod columns;
pub mod graded;
pub mod hashed;
pub mod lengths;
pub mod measures;
pub mod stations;
pub mod tallies;
pub mod viewed;
pub mod windowed;

ghost use Rattle.std.specs.Prelude.{◌≤◌, length, ◌≡◌};
ghost use Rattle.model.specs.Contract.{told, told_grade, told_repeat, told_value};
ghost use Rattle.model.specs.Form.{over};
ghost use Rattle.typed.specs.Typed.{Told};

use model::{
    GradeAnswer, ListAnswer, ListCounts, RepeatAnswer, RepeatCounts, ValueAnswer, ValueCounts,
};

// Numbers over the front of a slice.
fn put_counts(ns: &[u64], s: &mut [u64])
    requires { length ns.now ≤ length s.old }
    ensures { s.new ≡ over ns.now s.old }
{
    s[..ns.len()].copy_from_slice(ns);
}

pub fn put_list(answer: ListAnswer, counts: &mut [u64]) -> u32
    requires { 4 ≤ length counts.old }
    ensures { Told (told answer) result counts.old counts.new }
{
    match answer {
        Err(refusal) => u32::from(refusal),
        Ok(
            ListCounts {
                rows,
                elements,
                null_rows,
                null_elements,
            },
        ) => {
            let ns = [
                rows as u64,
                elements as u64,
                null_rows as u64,
                null_elements as u64,
            ];
            put_counts(&ns, counts);
            0
        }
    }
}

pub fn put_values(answer: ValueAnswer, counts: &mut [u64]) -> u32
    requires { 2 ≤ length counts.old }
    ensures { Told (told_value answer) result counts.old counts.new }
{
    match answer {
        Err(refusal) => u32::from(refusal),
        Ok(ValueCounts { rows, null_rows }) => {
            let ns = [rows as u64, null_rows as u64];
            put_counts(&ns, counts);
            0
        }
    }
}

pub fn put_grade(answer: GradeAnswer, counts: &mut [u64]) -> u32
    requires { 1 ≤ length counts.old }
    ensures { Told (told_grade answer) result counts.old counts.new }
{
    match answer {
        Err(refusal) => u32::from(refusal),
        Ok(rows) => {
            let ns = [rows as u64];
            put_counts(&ns, counts);
            0
        }
    }
}

pub fn put_repeat(answer: RepeatAnswer, counts: &mut [u64]) -> u32
    requires { 6 ≤ length counts.old }
    ensures { Told (told_repeat answer) result counts.old counts.new }
{
    match answer {
        Err(refusal) => u32::from(refusal),
        Ok(
            RepeatCounts {
                rows,
                elements,
                null_rows,
                null_elements,
                inner_rows,
                null_inner_rows,
            },
        ) => {
            let ns = [
                rows as u64,
                elements as u64,
                null_rows as u64,
                null_elements as u64,
                inner_rows as u64,
                null_inner_rows as u64,
            ];
            put_counts(&ns, counts);
            0
        }
    }
}
