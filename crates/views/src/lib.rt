// Arrow ListView columns, one signed 32-bit offset and one size a row: read into list columns, and written from them. No public function asks
// anything of its caller.
#![tactic(auto)]

ghost use Rattle.std.specs.Prelude.{[], ◌≡◌, ◌≤◌, length};
ghost use Rattle.column.specs.Answers.{list_answer_from};
ghost use Rattle.column.specs.Columns.{column_in, elems_in};
ghost use Rattle.column.specs.Outputs.{Fills, ListAnswers, ReadableElems, RoomFor, RoomForElems, Writes};
ghost use Rattle.column.specs.Put.{Readable};
ghost use Rattle.model.specs.Basics.{pick};
ghost use Rattle.model.specs.Bitmap.{bytes_for};
ghost use Rattle.model.specs.Column.{row_count, rows_of};
ghost use Rattle.model.specs.Form.{flat};
ghost use Rattle.model.specs.Limits.{narrow};
ghost use Rattle.model.specs.View.{export_outcome, export_shown, import_outcome, import_shown, view_rows};
ghost use Rattle.view_checks.specs.Views.{ReadableView, view_in};
ghost use Rattle.views.specs.ViewOutputs.{FillsView, ViewAnswers, ViewRoomFor, itself};

use column::elements::{ValueColumn, ValueOutput};
use column::lists::{ListColumn, ListOutput};
use column::offsets;
use model::{ListAnswer, ListCounts, Refusal};
use rows::utils;
use view_checks::{ViewColumn, ViewOutput};

// Writes the n elements from element a on, none where the row is null; gives the number of elements then written.
fn put_elements(
    valid: bool,
    elements: ValueColumn,
    a: usize,
    n: usize,
    out: &mut ValueOutput,
    at: usize,
) -> usize
    requires column { ReadableElems elements a n }
    requires room { RoomForElems (pick valid (elems_in elements a n) []) at out.old }
    ensures { Writes (pick valid (elems_in elements.entry a n) []) at out.old out.new result }
{
    if !valid {
        return at;
    }
    utils::write_forward(elements, a, n, out, at)
}

// Writes the rows that the view shows, in result form.
fn write_shown(view: ViewColumn, out: &mut ListOutput<i32>)
    requires column { ReadableView (view_in view) }
    requires small { length (flat (view_rows (view_in view))) ≤ narrow.offset }
    requires room { RoomFor (length view.offsets.now) (length (flat (view_rows (view_in view)))) out.old }
    ensures { Fills itself (view_rows (view_in view.entry)) out.old out.new }
{
    let n = view.offsets.len();
    offsets::put_offset(out.offsets, 0, 0);
    let mut at = 0;
    for r in 0..n {
        let a = offsets::offset_at(view.offsets, r);
        let size = offsets::offset_at(view.sizes, r);
        let valid = view.rows.is_valid(r, n);
        bitmap::push_bit(out.rows, r, valid);
        at = put_elements(valid, view.elements, a, size, out.elements, at);
        offsets::put_offset(out.offsets, r + 1, at);
    }
}

// Copies the rows that the view shows into result form, where they are not too many and the outputs have room for them.
fn copy_shown(view: ViewColumn, out: &mut ListOutput<i32>) -> ListAnswer
    requires { ReadableView (view_in view) }
    ensures { ListAnswers itself (import_shown narrow (view_rows (view_in view.entry))) result out.old out.new }
{
    let n = view.offsets.len();
    let Some(m) = view.measure() else {
        return Err(Refusal::TooMany);
    };
    if !out.has_room(n, m) {
        return Err(Refusal::ShortOutput);
    }
    write_shown(view, out);
    answers::list_answer(out, n, m)
}

// Reads a ListView column into a list column that shows the same rows.
pub fn import_view(view: ViewColumn, out: &mut ListOutput<i32>) -> ListAnswer
    ensures { ListAnswers itself (import_outcome narrow (view_in view.entry)) result out.old out.new }
{
    view.refusal()?;
    copy_shown(view, out)
}

// Writes the rows of a column as a view: values and bitmaps as in result form, and for each row its offset there, 0 of a null row, and its size.
fn write_view(list: ListColumn<i32>, out: &mut ViewOutput)
    requires column { Readable (column_in itself list) }
    requires small { length (flat (rows_of (column_in itself list))) ≤ narrow.offset }
    requires room { ViewRoomFor (row_count list.offsets.now) (length (flat (rows_of (column_in itself list)))) out.old }
    ensures { FillsView (rows_of (column_in itself list.entry)) out.old out.new }
{
    let n = list.row_count();
    let mut at = 0;
    for r in 0..n {
        let a = list.offset_at(r);
        let b = list.offset_at(r + 1);
        let valid = list.rows.is_valid(r, n);
        bitmap::push_bit(out.rows, r, valid);
        let next = put_elements(valid, list.elements, a, b - a, out.elements, at);
        offsets::put_offset(out.offsets, r, view_checks::offset_of(valid, at));
        offsets::put_offset(out.sizes, r, next - at);
        at = next;
    }
}

// The answer for n rows and m elements written as a view.
#[tactic(auto, unfolding(column::specs::Answers::list_answer_from))]
fn view_answer(out: &ViewOutput, n: usize, m: usize) -> ListAnswer
    requires n_in_bounds { bytes_for n ≤ length out.now.rows.now }
    requires m_in_bounds { bytes_for m ≤ length out.now.elements.now.bits.now }
    ensures { result ≡ list_answer_from out.now.rows.now n out.now.elements.now.bits.now m }
{
    Ok(ListCounts {
        rows: n,
        elements: m,
        null_rows: answers::count_nulls(out.rows, n),
        null_elements: answers::null_elements(out.elements, m),
    })
}

// Writes a column as a view, where the outputs have room for it.
fn write_fitting(list: ListColumn<i32>, out: &mut ViewOutput) -> ListAnswer
    requires { Readable (column_in itself list) }
    ensures { ViewAnswers (export_shown (rows_of (column_in itself list.entry))) result out.old out.new }
{
    let n = list.row_count();
    let m = copy_rows::measure_rows(list);
    if !out.has_room(n, m) {
        return Err(Refusal::ShortOutput);
    }
    write_view(list, out);
    view_answer(out, n, m)
}

// Writes a list column as a ListView column that shows the same rows.
pub fn export_view(list: ListColumn<i32>, out: &mut ViewOutput) -> ListAnswer
    ensures { ViewAnswers (export_outcome (column_in itself list.entry)) result out.old out.new }
{
    checks::list_refusal(list)?;
    write_fitting(list, out)
}
