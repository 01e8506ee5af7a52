// What a slice makes of row r of a list: which rows are null, the plan of a row, and its elements written. An inner crate: its callers meet
// what it asks.
#![tactic(auto)]

pub mod plans;
pub mod validity;

ghost use Rattle.std.specs.Prelude.{◌≡◌};
ghost use Rattle.column.specs.Columns.{elems_in, values_in};
ghost use Rattle.column.specs.Outputs.{ReadableElems, RoomForElems, Writes};
ghost use Rattle.ops.specs.Ops.{op_elems, plan_op};
ghost use Rattle.row_ops.specs.Doable.{Doable};
ghost use Rattle.slice_rows.specs.Columns.{slice_in};
ghost use Rattle.slice_rows.specs.Sliced.{slice_arguments};

use column::elements::{ValueColumn, ValueOutput};
use index::slice::SlicePlan;
use ops::ListOp;
use strides::strided;

// The argument columns of a slice; one without strides goes by 1.
#[derive(Clone, Copy)]
pub struct SliceColumns<'a> {
    pub from: ValueColumn<'a>,
    pub to: ValueColumn<'a>,
    pub stride: Option<ValueColumn<'a>>,
}

impl<'a> SliceColumns<'a> {
    // Those that the operation takes: strides too, where it goes by them.
    #[tactic(auto, unfolding(crate::specs::Sliced::slice_arguments))]
    pub fn of(
        op: ListOp,
        from: ValueColumn<'a>,
        to: ValueColumn<'a>,
        stride: ValueColumn<'a>,
    ) -> SliceColumns<'a>
        ensures { slice_in result ≡ slice_arguments op (values_in from.entry) (values_in to.entry) (values_in stride.entry) }
    {
        SliceColumns {
            from,
            to,
            stride: if 2 < ops::takes(op).columns {
                Some(stride)
            } else {
                None
            },
        }
    }
}

// Writes what the plan makes of the len elements from element a on: none where it is empty or refused. Gives the number of elements then
// written.
pub fn write_planned(
    plan: SlicePlan,
    elements: ValueColumn,
    a: usize,
    len: usize,
    out: &mut ValueOutput,
    at: usize,
) -> usize
    requires column { ReadableElems elements a len }
    requires doable { Doable (plan_op plan) len }
    requires room { RoomForElems (op_elems (plan_op plan) (elems_in elements a len)) at out.old }
    ensures { Writes (op_elems (plan_op plan) (elems_in elements.entry a len)) at out.old out.new result }
{
    match plan {
        Ok(Some(steps)) => strided::write_strided(elements, a, len, steps, out, at),
        Ok(None) => at,
        Err(_) => at,
    }
}
