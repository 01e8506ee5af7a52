// Elements that stand side by side in a column, as those of one row do.
ghost use Rattle.std.specs.Prelude.{◌+◌, ◌-◌, ◌<◌, ◌≤◌, drop, take, ◌≡◌};
ghost use Rattle.bitmap.specs.Push.{bits_from};
ghost use Rattle.bitmap.specs.Reads.{bits_in};
ghost use Rattle.column.specs.Columns.{column_in};
ghost use Rattle.column.specs.Put.{Readable};
ghost use Rattle.model.specs.Column.{length_at, offset_at, row_count};
ghost use Rattle.set_rows.specs.Runs.{ReadableRun, row_elems, run_elems};

use bitmap::Validity;
use column::elements::ValueColumn;
use column::lists::ListColumn;
use model::offsets::Offset;

// The count elements of a column from one element on.
#[derive(Clone, Copy)]
pub struct Run<'a> {
    pub column: ValueColumn<'a>,
    pub from: usize,
    pub count: usize,
}

impl<'a> Run<'a> {
    // The elements of row r, whether it is valid or not.
    pub fn of_row<O: Offset>(list: ListColumn<'a, O>, r: usize) -> Run<'a>
        requires readable { Readable (column_in O.numbers list) }
        requires there { r < row_count (column_in O.numbers list).offsets }
        ensures elems { run_elems result ≡ row_elems (column_in O.numbers list.entry) r }
        ensures count { result.count ≡ length_at (column_in O.numbers list.entry) r }
        ensures readable { ReadableRun result }
        ensures end { offset_at (column_in O.numbers list.entry).offsets (r + 1) ≤ O.LIMITS.offset }
    {
        let from = list.offset_at(r);
        let end = list.offset_at(r + 1);
        Run {
            column: list.elements,
            from,
            count: end - from,
        }
    }

    // Its values, whatever lies under nulls.
    pub(crate) fn values(self) -> &'a [i64]
        requires { ReadableRun self }
        ensures { result.now ≡ take self.entry.count (drop self.entry.from self.entry.column.values.now) }
    {
        &self.column.values[self.from..self.from + self.count]
    }

    // Which of its elements are valid.
    pub(crate) fn bits(self) -> Validity<'a>
        requires { ReadableRun self }
        ensures { bits_in result ≡ bits_from (bits_in self.entry.column.bits) self.entry.from }
    {
        self.column.bits.tail(self.from, self.column.values.len())
    }
}
