// The rows that a recipe is looked at for: 16, and what is cut out of each column. An inner crate: its callers meet what it asks.
#![tactic(auto)]

ghost use Rattle.bitmap.specs.Push.{Covers, bits_from};
ghost use Rattle.bitmap.specs.Reads.{bits_in};
ghost use Rattle.column.specs.Columns.{column_in, values_in};
ghost use Rattle.model.specs.Answers.{refused_by};
ghost use Rattle.model.specs.Basics.{pick};
ghost use Rattle.model.specs.Column.{row_count};
ghost use Rattle.model.specs.Refusals.{or_else};
ghost use Rattle.model.specs.Window.{no_window};
ghost use Rattle.std.specs.Prelude.{drop, length, take, ◌+◌, ◌-◌, ◌≡◌, ◌≤◌};
ghost use Rattle.window.specs.Cut.{first_argument, part, rest_from};

use column::elements::ValueColumn;
use column::lists::ListColumn;
use model::Refusal;
use model::offsets::Offset;

// What refuses before it, else that rows a up to b are not among n rows.
#[tactic(auto, unfolding(model::specs::Window::no_window))]
pub fn refusal_after(
    first: Result<(), Refusal>,
    a: usize,
    b: usize,
    n: usize,
) -> Result<(), Refusal>
    ensures { refused_by result ≡ or_else (refused_by first) (pick (no_window a b n) 16 0) }
{
    first?;
    if b < a || n < b {
        return Err(Refusal::RowsOutside);
    }
    Ok(())
}

// The offsets of rows a up to b, one more than the rows; of fewer offsets, those that there are.
pub fn offsets_of<T>(offsets: &[T], a: usize, b: usize) -> &[T]
    requires { a ≤ b }
    ensures { result.now ≡ take (b + 1 - a) (drop a offsets.now) }
{
    if b < offsets.len() {
        return &offsets[a..b + 1];
    }
    if a < offsets.len() {
        return &offsets[a..];
    }
    &offsets[..0]
}

// Rows a up to b of a column. Its values stay whole, since offsets go on pointing into them.
pub fn rows_of<'a, O: Offset>(list: ListColumn<'a, O>, a: usize, b: usize) -> ListColumn<'a, O>
    requires begins { a ≤ b }
    requires ends { b ≤ row_count (column_in O.numbers list).offsets }
    requires covers { Covers (bits_in list.rows) (row_count (column_in O.numbers list).offsets) }
    ensures { column_in O.numbers result ≡ part (column_in O.numbers list.entry) a b }
{
    ListColumn {
        offsets: offsets_of(list.offsets, a, b),
        rows: list.rows.tail(a, list.row_count()),
        elements: list.elements,
    }
}

// Where the arguments of row a begin among len values: at row a of the first column, or at the end where there is none.
pub fn first_argument(a: usize, len: usize) -> usize
    ensures { result ≡ first_argument a len }
{
    a.min(len)
}

// The arguments from row a of their first column on.
pub fn arguments_from<'a>(arguments: ValueColumn<'a>, a: usize) -> ValueColumn<'a>
    requires { Covers (bits_in arguments.bits) (length arguments.values.now) }
    ensures { values_in result ≡ rest_from (values_in arguments.entry) a }
{
    let len = arguments.values.len();
    let skip = first_argument(a, len);
    ValueColumn {
        values: &arguments.values[skip..],
        bits: arguments.bits.tail(skip, len),
    }
}
