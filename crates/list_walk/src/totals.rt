// How many elements a call makes, or the refusal of its rows, by the walk for its kind of operation.
ghost use Rattle.std.specs.Prelude.{◌≤◌, ◌≡◌};
ghost use Rattle.arguments.specs.Taken.{Served};
ghost use Rattle.column.specs.Columns.{column_in, values_in};
ghost use Rattle.column.specs.Put.{Readable};
ghost use Rattle.made_rows.specs.Made.{call_measure};
ghost use Rattle.model.specs.Column.{row_count};
ghost use Rattle.sums.specs.Sums.{let_through, measured};

use column::elements::ValueColumn;
use column::lists::ListColumn;
use model::Refusal;
use model::offsets::Offset;
use ops::ListOp;

// How many elements the operation makes, or the refusal of its rows.
pub(crate) fn total<O: Offset>(
    op: ListOp,
    list: ListColumn<O>,
    xs: ValueColumn,
    ys: ValueColumn,
    zs: ValueColumn,
) -> Result<usize, Refusal>
    requires column { Readable (column_in O.numbers list) }
    requires arguments { Served op (row_count (O.numbers list.offsets.now)) (values_in xs) (values_in ys) (values_in zs) }
    ensures value { measured result ≡ call_measure O.LIMITS op (column_in O.numbers list.entry) (values_in xs.entry) (values_in ys.entry) (values_in zs.entry) }
    ensures result_bound { let_through result ≤ O.LIMITS.offset }
{
    match op {
        ListOp::Plain(u) => Ok(plain_walk::measure_rows(u, list)),
        ListOp::Slice | ListOp::SliceBy => slice_walk::measure_rows(op, list, xs, ys, zs),
        ListOp::Resize | ListOp::ResizeWith => {
            sums::measure_resize::<O>(list.rows, list.row_count(), xs)
        }
        ListOp::Replace => Ok(replace_walk::measure_rows(list, xs, ys, zs)),
        ListOp::Remove => Ok(remove_walk::measure_rows(list, xs, ys)),
    }
}
