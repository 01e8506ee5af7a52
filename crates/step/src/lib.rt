// One step of a recipe. An inner crate: its callers meet what it asks.
#![tactic(auto)]

ghost use Rattle.std.specs.Prelude.{◌+◌, ◌*◌, ◌≤◌, length, ◌≡◌};
ghost use Rattle.codes.specs.Codes.{step_in};
ghost use Rattle.column.specs.Columns.{column_in, values_in};
ghost use Rattle.column.specs.Front.{AtFront, front};
ghost use Rattle.column.specs.Outputs.{ListAnswers};
ghost use Rattle.column.specs.Put.{Readable};
ghost use Rattle.model.specs.Column.{row_count, rows_of};
ghost use Rattle.model.specs.Outcome.{after_three};
ghost use Rattle.model.specs.Recipe.{step_at, step_call};
ghost use Rattle.one_list.specs.Uses.{columns_in};
ghost use Rattle.step.specs.Step.{Beside, StepFits, TakenIn, front_in, rows_taken};

use bitmap::Validity;
use codes::{Operation, Step};
use column::elements::{ValueColumn, ValueOutput};
use column::lists::{ListColumn, ListOutput};
use model::offsets::Offset;
use model::{ListAnswer, Refusal};
use one_list::ArgumentColumns;

// What stays the same over the steps of a recipe: its numbers, its two lists, and its argument columns, of as many rows.
#[derive(Clone, Copy)]
pub struct Inputs<'a, O> {
    pub recipe: &'a [u32],
    pub list: ListColumn<'a, O>,
    pub second: ListColumn<'a, O>,
    pub args: ArgumentColumns<'a>,
}

// One step on the carried list: what its operation does after 3.
fn take_step<O: Offset>(
    step: Step,
    list: ListColumn<O>,
    second: ListColumn<O>,
    args: ArgumentColumns,
    out: &mut ListOutput<O>,
) -> ListAnswer
    requires column { Readable (column_in O.numbers list) }
    requires rows { row_count (O.numbers list.offsets.now) ≡ args.rows }
    requires beside { Beside args.rows (column_in O.numbers second) (values_in args.columns) }
    requires fits { StepFits (step_in step) args.pitch args.rows (length args.columns.values.now) }
    ensures { ListAnswers O.numbers (after_three O.LIMITS (step_call (step_in step) (rows_of (column_in O.numbers list.entry)) (rows_of (column_in O.numbers second.entry)) (columns_in args.entry))) result out.old out.new }
{
    match codes::operation_of(step.code) {
        Some(Operation::One(op)) => one_list::one_list(op, list, step, args, out),
        Some(Operation::Two(op)) => set_walk::after_three(op, list, second, out),
        None => Err(Refusal::MalformedRecipe),
    }
}

// The column at the front of a tray's slices: n rows of m elements.
fn front<'a, O: Offset>(
    offsets: &'a [O],
    rows: &'a [u8],
    elements: &'a ValueOutput,
    n: usize,
    m: usize,
) -> ListColumn<'a, O>
    requires { AtFront n m (O.numbers offsets.now) rows.now elements.now.values.now elements.now.bits.now }
    ensures { column_in O.numbers result ≡ front (O.numbers offsets.now) rows.now elements.now.values.now elements.now.bits.now n m }
{
    ListColumn {
        offsets: &offsets[..n + 1],
        rows: Validity {
            bytes: &rows[..bitmap::bytes_for(n)],
            start: 0,
        },
        elements: ValueColumn {
            values: &elements.values[..m],
            bits: Validity {
                bytes: &elements.bits[..bitmap::bytes_for(m)],
                start: 0,
            },
        },
    }
}

// Step k of a recipe: the first takes the list, a later one the front of a tray, which holds as many rows of m elements.
pub fn step_at<O: Offset>(
    inputs: Inputs<O>,
    k: usize,
    from: &ListOutput<O>,
    m: usize,
    out: &mut ListOutput<O>,
) -> ListAnswer
    requires there { 4 * k + 4 ≤ length inputs.recipe.now }
    requires taken { TakenIn O.numbers k inputs.args.rows m (column_in O.numbers inputs.list) from.now }
    requires beside { Beside inputs.args.rows (column_in O.numbers inputs.second) (values_in inputs.args.columns) }
    requires fits { StepFits (step_at inputs.recipe.now k) inputs.args.pitch inputs.args.rows (length inputs.args.columns.values.now) }
    ensures { ListAnswers O.numbers (after_three O.LIMITS (step_call (step_at inputs.entry.recipe.now k) (rows_taken k (column_in O.numbers inputs.entry.list) (front_in O.numbers inputs.entry.args.rows m from.now)) (rows_of (column_in O.numbers inputs.entry.second)) (columns_in inputs.entry.args))) result out.old out.new }
{
    let step = codes::step_at(inputs.recipe, k);
    if k == 0 {
        return take_step(step, inputs.list, inputs.second, inputs.args, out);
    }
    let carried = front(from.offsets, from.rows, from.elements, inputs.args.rows, m);
    take_step(step, carried, inputs.second, inputs.args, out)
}
