// List-repeat: the walk that writes, after the sums are taken. An inner crate: its callers meet what it asks.
// After repeat.rs of datafusion-functions-nested 55.2.0, Apache License 2.0, Apache Software Foundation; changed, see NOTICE.
#![tactic(auto)]

ghost use Rattle.column.specs.Columns.{column_in, values_in};
ghost use Rattle.column.specs.Outputs.{RepeatAnswers};
ghost use Rattle.column.specs.Put.{Readable};
ghost use Rattle.model.specs.Answers.{refused_by};
ghost use Rattle.model.specs.Asked.{asked_repeat};
ghost use Rattle.model.specs.Bitmap.{bytes_for};
ghost use Rattle.model.specs.Column.{row_at, row_count};
ghost use Rattle.model.specs.Form.{flat, inner};
ghost use Rattle.model.specs.Lengths.{repeat_lengths};
ghost use Rattle.model.specs.Limits.{largest};
ghost use Rattle.model.specs.Outcome.{fitted_repeat, made, repeat_outcome};
ghost use Rattle.repeat_sums.specs.Counts.{Begun};
ghost use Rattle.repeat_walk.specs.Outers.{FillsOuters, RoomForOuters, RoomForRows, WritesRows};
ghost use Rattle.repeat_walk.specs.Repeats.{Sized, early_repeat, repeat_answer_from, repeat_rows, room_for_outer};
ghost use Rattle.std.specs.Prelude.{◌<◌, ◌≤◌, length, replicate, ◌≡◌};

use column::elements::ValueColumn;
use column::lists::{ListColumn, ListOutput, OuterOutput};
use column::offsets;
use model::offsets::Offset;
use model::{Refusal, RepeatAnswer, RepeatCounts, RepeatLengths, RepeatSlots};
use repeat_sums::Sums;
use rows::utils;

// Writes row r so many times, after first rows and place elements; gives the number of elements then written.
fn put_copies<O: Offset>(
    list: ListColumn<O>,
    r: usize,
    times: usize,
    first: usize,
    place: usize,
    out: &mut ListOutput<O>,
) -> usize
    requires list { Readable (column_in O.numbers list) }
    requires there { r < row_count (O.numbers list.offsets.now) }
    requires room { RoomForRows O.numbers O.LIMITS (replicate times (row_at (column_in O.numbers list) r)) first place out.old }
    ensures { WritesRows O.numbers (replicate times (row_at (column_in O.numbers list.entry) r)) first place out.old out.new result }
{
    let n = list.row_count();
    let valid = list.rows.is_valid(r, n);
    let a = list.offset_at(r);
    let b = list.offset_at(r + 1);
    let len = column::rows::row_len(list.rows, n, r, a, b);
    let mut at = place;
    for i in first..first + times {
        at = utils::write_forward(list.elements, a, len, out.elements, at);
        bitmap::push_bit(out.rows, i, valid);
        offsets::put_offset(out.offsets, i + 1, at);
    }
    at
}

// Writes the outer rows and their inner rows, in result form.
fn write_repeats<O: Offset>(
    list: ListColumn<O>,
    counts: ValueColumn,
    out: &mut OuterOutput<O>,
    inner: &mut ListOutput<O>,
)
    requires begun { Begun (column_in O.numbers list) (values_in counts) }
    requires room { RoomForOuters O.numbers O.LIMITS (repeat_rows (column_in O.numbers list) (values_in counts)) out.old inner.old }
    ensures { FillsOuters O.numbers (repeat_rows (column_in O.numbers list.entry) (values_in counts.entry)) out.old out.new inner.old inner.new }
{
    offsets::put_offset(out.offsets, 0, 0);
    offsets::put_offset(inner.offsets, 0, 0);
    let mut lists: usize = 0;
    let mut at: usize = 0;
    for r in 0..list.row_count() {
        let times = repeat_sums::repeat_count(counts, r);
        at = put_copies(list, r, times, lists, at, inner);
        lists += times;
        repeat_sums::put_outer_by_bits(counts.bits, counts.values.len(), r, lists, out);
    }
}

// The lengths of the result form of n outer rows, of so many lists and values.
#[tactic(auto, unfolding(model::specs::Asked::asked_repeat))]
fn lengths_for(n: usize, sums: Sums) -> RepeatLengths
    requires n_lt_largest { n < largest }
    requires lists_lt_largest { sums.lists < largest }
    ensures { asked_repeat result ≡ made (room_for_outer n sums.lists sums.values) }
{
    Ok(RepeatSlots {
        offsets: n + 1,
        rows: bitmap::bytes_for(n),
        inner_offsets: sums.lists + 1,
        inner_rows: bitmap::bytes_for(sums.lists),
        values: sums.values,
        elements: bitmap::bytes_for(sums.values),
    })
}

// The answer for n outer rows, of so many lists and values, its nulls counted in the bitmaps written.
#[tactic(auto, unfolding(crate::specs::Repeats::repeat_answer_from))]
fn repeat_answer<O: Offset>(
    n: usize,
    sums: Sums,
    out: &OuterOutput<O>,
    inner: &ListOutput<O>,
) -> RepeatAnswer
    requires n_in_bounds { bytes_for n ≤ length out.now.rows.now }
    requires lists_in_bounds { bytes_for sums.lists ≤ length inner.now.rows.now }
    requires values_in_bounds { bytes_for sums.values ≤ length inner.now.elements.now.bits.now }
    ensures { result ≡ repeat_answer_from out.now.rows.now n inner.now.rows.now sums.lists inner.now.elements.now.bits.now sums.values }
{
    Ok(RepeatCounts {
        rows: n,
        elements: sums.values,
        null_rows: answers::count_nulls(out.rows, n),
        null_elements: answers::null_elements(inner.elements, sums.values),
        inner_rows: sums.lists,
        null_inner_rows: answers::count_nulls(inner.rows, sums.lists),
    })
}

// Refusal 9, or what list-repeat makes, of so many lists and values.
fn fill<O: Offset>(
    list: ListColumn<O>,
    counts: ValueColumn,
    sums: Sums,
    out: &mut OuterOutput<O>,
    inner: &mut ListOutput<O>,
) -> RepeatAnswer
    requires begun { Begun (column_in O.numbers list) (values_in counts) }
    requires sized { Sized O.LIMITS (repeat_rows (column_in O.numbers list) (values_in counts)) sums }
    ensures { RepeatAnswers O.numbers (fitted_repeat (repeat_rows (column_in O.numbers list.entry) (values_in counts.entry))) result out.old out.new inner.old inner.new }
{
    let n = list.row_count();
    if !out.has_room(inner, n, sums.lists, sums.values) {
        return Err(Refusal::ShortOutput);
    }
    write_repeats(list, counts, out, inner);
    repeat_answer(n, sums, out, inner)
}

// Refusals 13, 1, 2 and 3; where none applies, the columns can be read.
fn early<O: Offset>(list: ListColumn<O>, counts: ValueColumn) -> Result<(), Refusal>
    ensures value { refused_by result ≡ early_repeat (column_in O.numbers list.entry) (values_in counts.entry) }
    ensures begun { refused_by result ≡ 0 → Begun (column_in O.numbers list.entry) (values_in counts.entry) }
{
    if counts.bits.is_start_over() {
        return Err(Refusal::BadStartingBit);
    }
    checks::list_refusal(list)?;
    if counts.bits.is_short(counts.values.len()) {
        return Err(Refusal::ShortBitmap);
    }
    if counts.values.len() != list.row_count() {
        return Err(Refusal::RowCountsDiffer);
    }
    Ok(())
}

// The lengths of the slices that list-repeat needs, or its refusal: the sums of the run, and nothing is written.
pub fn lengths<O: Offset>(list: ListColumn<O>, counts: ValueColumn) -> RepeatLengths
    ensures { asked_repeat result ≡ repeat_lengths O.LIMITS (column_in O.numbers list.entry) (values_in counts.entry) }
{
    early(list, counts)?;
    let sums = repeat_sums::sum_repeats(list, counts)?;
    lengths_for(list.row_count(), sums)
}

// Checks the columns and the outputs, and writes what list-repeat makes.
pub fn run<O: Offset>(
    list: ListColumn<O>,
    counts: ValueColumn,
    out: &mut OuterOutput<O>,
    inner: &mut ListOutput<O>,
) -> RepeatAnswer
    ensures { RepeatAnswers O.numbers (repeat_outcome O.LIMITS (column_in O.numbers list.entry) (values_in counts.entry)) result out.old out.new inner.old inner.new }
{
    early(list, counts)?;
    let sums = repeat_sums::sum_repeats(list, counts)?;
    fill(list, counts, sums, out, inner)
}
