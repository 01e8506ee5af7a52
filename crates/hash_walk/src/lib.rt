// Distinct, union and intersect with a work area: one walk measures the pairs of rows, a second writes; distinct is lent its list on both
// sides. The area is zero before and after each row. An inner crate: its callers meet what it asks.
#![tactic(auto)]

ghost use Rattle.std.specs.Prelude.{◌+◌, ◌<◌, ◌≤◌, length, ◌≡◌};
ghost use Rattle.column.specs.Columns.{column_in};
ghost use Rattle.column.specs.Outputs.{Fills, ListAnswers, RoomFor, RoomForRow, WritesRow};
ghost use Rattle.hash_checks.specs.Area.{most_needed, need_at};
ghost use Rattle.hash_checks.specs.Narrow.{narrow_numbers};
ghost use Rattle.hash_slots.specs.Slots.{CleanFrom};
ghost use Rattle.hash_walk.specs.Hashes.{hash_after, hash_at, hash_bound, hash_rows};
ghost use Rattle.model.specs.Column.{offset_at, row_count};
ghost use Rattle.model.specs.Form.{elems_of, flat};
ghost use Rattle.model.specs.Limits.{narrow};
ghost use Rattle.set_walk.specs.Pairs.{Begun};

use column::lists::{ListColumn, ListOutput};
use column::offsets;
use hash_checks::HashOp;
use model::{ListAnswer, Refusal};
use set_rows::runs::Run;

// The number of elements that the operation makes of the rows r.
fn measure_pair<'a>(
    op: HashOp,
    left: ListColumn<'a, i32>,
    right: ListColumn<'a, i32>,
    r: usize,
    area: &mut [u32],
) -> usize
    requires begun { Begun (column_in narrow_numbers left) (column_in narrow_numbers right) }
    requires there { r < row_count left.offsets.now }
    requires room { need_at op (column_in narrow_numbers left) (column_in narrow_numbers right) r + need_at op (column_in narrow_numbers left) (column_in narrow_numbers right) r ≤ length area.old }
    requires clean { CleanFrom 0 area.old }
    ensures value { result ≡ length (elems_of (hash_at op (column_in narrow_numbers left.entry) (column_in narrow_numbers right.entry) r)) }
    ensures left_end { offset_at left.entry.offsets.now (r + 1) ≤ narrow.offset }
    ensures right_end { offset_at right.entry.offsets.now (r + 1) ≤ narrow.offset }
    ensures clean_from { CleanFrom 0 area.new }
{
    let left_row = Run::of_row(left, r);
    let right_row = Run::of_row(right, r);
    if !set_checks::are_valid(left.rows, right.rows, left.row_count(), r) {
        return 0;
    }
    hash_rows::measure_row(op, left_row, right_row, area)
}

// Writes the row that the operation makes of the rows r, but for its offset; gives the number of elements then written.
fn put_pair<'a>(
    op: HashOp,
    left: ListColumn<'a, i32>,
    right: ListColumn<'a, i32>,
    r: usize,
    out: &mut ListOutput<i32>,
    at: usize,
    area: &mut [u32],
) -> usize
    requires begun { Begun (column_in narrow_numbers left) (column_in narrow_numbers right) }
    requires there { r < row_count left.offsets.now }
    requires place { RoomForRow (hash_at op (column_in narrow_numbers left) (column_in narrow_numbers right) r) r at out.old }
    requires room { need_at op (column_in narrow_numbers left) (column_in narrow_numbers right) r + need_at op (column_in narrow_numbers left) (column_in narrow_numbers right) r ≤ length area.old }
    requires clean { CleanFrom 0 area.old }
    ensures writes_row { WritesRow (hash_at op (column_in narrow_numbers left.entry) (column_in narrow_numbers right.entry) r) r at out.old out.new result }
    ensures clean_from { CleanFrom 0 area.new }
{
    if !set_checks::are_valid(left.rows, right.rows, left.row_count(), r) {
        bitmap::push_bit(out.rows, r, false);
        return at;
    }
    bitmap::push_bit(out.rows, r, true);
    hash_rows::write_row(
        op,
        Run::of_row(left, r),
        Run::of_row(right, r),
        out.elements,
        at,
        area,
    )
}

// The number of elements that the operation makes.
fn measure_pairs<'a>(
    op: HashOp,
    left: ListColumn<'a, i32>,
    right: ListColumn<'a, i32>,
    area: &mut [u32],
) -> usize
    requires begun { Begun (column_in narrow_numbers left) (column_in narrow_numbers right) }
    requires room { most_needed op (column_in narrow_numbers left) (column_in narrow_numbers right) + most_needed op (column_in narrow_numbers left) (column_in narrow_numbers right) ≤ length area.old }
    requires clean { CleanFrom 0 area.old }
    ensures value { result ≡ length (flat (hash_rows op (column_in narrow_numbers left.entry) (column_in narrow_numbers right.entry))) }
    ensures upper_bound { result ≤ hash_bound op narrow.offset narrow.offset }
    ensures clean_from { CleanFrom 0 area.new }
{
    let mut found: usize = 0;
    for r in 0..left.row_count() {
        found += measure_pair(op, left, right, r, area);
    }
    found
}

// Writes the rows that the operation makes, in result form.
fn write_pairs<'a>(
    op: HashOp,
    left: ListColumn<'a, i32>,
    right: ListColumn<'a, i32>,
    out: &mut ListOutput<i32>,
    area: &mut [u32],
)
    requires begun { Begun (column_in narrow_numbers left) (column_in narrow_numbers right) }
    requires small { length (flat (hash_rows op (column_in narrow_numbers left) (column_in narrow_numbers right))) ≤ narrow.offset }
    requires place { RoomFor (row_count left.offsets.now) (length (flat (hash_rows op (column_in narrow_numbers left) (column_in narrow_numbers right)))) out.old }
    requires room { most_needed op (column_in narrow_numbers left) (column_in narrow_numbers right) + most_needed op (column_in narrow_numbers left) (column_in narrow_numbers right) ≤ length area.old }
    requires clean { CleanFrom 0 area.old }
    ensures fills { Fills narrow_numbers (hash_rows op (column_in narrow_numbers left.entry) (column_in narrow_numbers right.entry)) out.old out.new }
    ensures clean_from { CleanFrom 0 area.new }
{
    offsets::put_offset(out.offsets, 0, 0);
    let mut at: usize = 0;
    for r in 0..left.row_count() {
        at = put_pair(op, left, right, r, out, at, area);
        offsets::put_offset(out.offsets, r + 1, at);
    }
}

// Writes what the operation makes of columns that can be read, row beside row.
pub fn after_three<'a>(
    op: HashOp,
    left: ListColumn<'a, i32>,
    right: ListColumn<'a, i32>,
    out: &mut ListOutput<i32>,
    area: &mut [u32],
) -> ListAnswer
    requires begun { Begun (column_in narrow_numbers left) (column_in narrow_numbers right) }
    requires clean { CleanFrom 0 area.old }
    ensures list_answers { ListAnswers narrow_numbers (hash_after op (column_in narrow_numbers left.entry) (column_in narrow_numbers right.entry) (length area.old)) result out.old out.new }
    ensures clean_from { CleanFrom 0 area.new }
{
    let longest = hash_checks::most_needed(op, left, right);
    if hash_checks::is_short(area.len(), longest) {
        return Err(Refusal::ShortArea);
    }
    let m = measure_pairs(op, left, right, area);
    hash_checks::op_refusal(op, m)?;
    let n = left.row_count();
    if !out.has_room(n, m) {
        return Err(Refusal::ShortOutput);
    }
    write_pairs(op, left, right, out, area);
    answers::list_answer(out, n, m)
}
