// Grades: the grade of one row, those of a column's rows, and those of the rows at the front of an output. An inner crate: its callers meet what it asks.
#![tactic(auto)]

pub mod calls;

ghost use Rattle.bitmap.specs.Reads.{bits_in};
ghost use Rattle.column.specs.Columns.{column_in, elem_in, elems_in};
ghost use Rattle.column.specs.Front.{AtFront, front};
ghost use Rattle.column.specs.Outputs.{ReadableElems, ReadableRow};
ghost use Rattle.column.specs.Put.{Readable};
ghost use Rattle.column.specs.Rows.{row_from};
ghost use Rattle.grade_rows.specs.Grades.{Counted, front_grades, run_after};
ghost use Rattle.model.specs.Column.{list_row, row_count, rows_of};
ghost use Rattle.model.specs.Form.{over};
ghost use Rattle.model.specs.Grade.{grade_of, grades_of};
ghost use Rattle.std.specs.Prelude.{◌-◌, ◌<◌, ◌≤◌, pos, get_or, length, ◌≡◌};

use bitmap::Validity;
use column::elements::{ValueColumn, ValueOutput};
use column::lists::{ListColumn, ListOutput};
use model::ListAnswer;
use model::offsets::Offset;

// The length of the run that element p ends, where the element before it ends a run of length `run`: none at a null.
#[tactic(auto, unfolding(crate::specs::Grades::run_after))]
fn run_after(run: usize, values: &[i64], p: usize, valid: bool) -> usize
    requires p_in_bounds { p < length values.now }
    requires run_le_p { run ≤ p }
    ensures { result ≡ run_after run (get_or values.now (p - 1) (pos 0)) valid (get_or values.now p (pos 0)) }
{
    if !valid {
        return 0;
    }
    if run != 0 && set_elements::same_value(values[p - 1], values[p]) {
        run + 1
    } else {
        1
    }
}

// The grade of the n elements from element a on, of a row that is not null: one pass, left as soon as a run is long enough.
fn elements_grade(k: u64, elements: ValueColumn, a: usize, n: usize) -> u8
    requires positive { 0 < k }
    requires column { ReadableElems elements a n }
    ensures { result ≡ grade_of k (list_row (elems_in elements.entry a n)) }
{
    let mut seen = false;
    let mut run: usize = 0;
    for p in a..a + n {
        let valid = elements.bits.is_valid(p, elements.values.len());
        run = run_after(run, elements.values, p, valid);
        if k <= run as u64 {
            return 2;
        }
        seen |= valid;
    }
    if seen { 3 } else { 1 }
}

// The grade of row r of n, whose elements lie between a and b.
fn row_grade(
    k: u64,
    rows: Validity,
    n: usize,
    elements: ValueColumn,
    r: usize,
    a: usize,
    b: usize,
) -> u8
    requires positive { 0 < k }
    requires column { ReadableRow rows n elements r a b }
    ensures { result ≡ grade_of k (row_from (bits_in rows.entry) (elem_in elements.entry) r a b) }
{
    if !rows.is_valid(r, n) {
        return 0;
    }
    elements_grade(k, elements, a, b - a)
}

// Writes the grades of a column that refusals 13, 1 and 2 do not apply to.
pub fn grade_rows<O: Offset>(k: u64, list: ListColumn<O>, grades: &mut [u8])
    requires positive { 0 < k }
    requires column { Readable (column_in O.numbers list) }
    requires room { row_count (O.numbers list.offsets.now) ≤ length grades.old }
    ensures { grades.new ≡ over (grades_of k (rows_of (column_in O.numbers list.entry))) grades.old }
{
    let n = list.row_count();
    for r in 0..n {
        let a = list.offset_at(r);
        let b = list.offset_at(r + 1);
        grades[r] = row_grade(k, list.rows, n, list.elements, r, a, b);
    }
}

// The column at the front of an output's slices: n rows of m elements.
fn front<'a, O: Offset>(
    offsets: &'a [O],
    rows: &'a [u8],
    elements: &'a ValueOutput,
    n: usize,
    m: usize,
) -> ListColumn<'a, O>
    requires { AtFront n m (O.numbers offsets.now) rows.now elements.now.values.now elements.now.bits.now }
    ensures { column_in O.numbers result ≡ front (O.numbers offsets.now) rows.now elements.now.values.now elements.now.bits.now n m }
{
    ListColumn {
        offsets: &offsets[..n + 1],
        rows: Validity {
            bytes: &rows[..bitmap::bytes_for(n)],
            start: 0,
        },
        elements: ValueColumn {
            values: &elements.values[..m],
            bits: Validity {
                bytes: &elements.bits[..bitmap::bytes_for(m)],
                start: 0,
            },
        },
    }
}

// Writes the grades of the rows that an answer counts at the front of an output; a refusal has none.
pub fn grade_front<O: Offset>(k: u64, answer: ListAnswer, out: &ListOutput<O>, grades: &mut [u8])
    requires { Counted k answer (O.numbers out.now.offsets.now) out.now.rows.now out.now.elements.now.values.now out.now.elements.now.bits.now (length grades.old) }
    ensures { grades.new ≡ over (front_grades k answer (O.numbers out.now.offsets.now) out.now.rows.now out.now.elements.now.values.now out.now.elements.now.bits.now) grades.old }
{
    let Ok(counts) = answer else {
        return;
    };
    let written = front(
        out.offsets,
        out.rows,
        out.elements,
        counts.rows,
        counts.elements,
    );
    grade_rows(k, written, grades);
}
