// A column copied into result form, and a tray cleared. An inner crate: its callers meet what it asks.
#![tactic(auto)]

ghost use Rattle.column.specs.Columns.{column_in};
ghost use Rattle.column.specs.Outputs.{Clears, ListAnswers, SameValues};
ghost use Rattle.column.specs.Put.{Readable};
ghost use Rattle.model.specs.Column.{rows_of};
ghost use Rattle.model.specs.Outcome.{fitted};
ghost use Rattle.std.specs.Prelude.{length, pos, replicate, ◌≡◌};

use column::elements::ValueOutput;
use column::lists::{ListColumn, ListOutput};
use column::offsets;
use model::offsets::Offset;
use model::{ListAnswer, Refusal};

// Copies a column into result form, where the outputs have room for it.
pub fn copy<O: Offset>(list: ListColumn<O>, out: &mut ListOutput<O>) -> ListAnswer
    requires { Readable (column_in O.numbers list) }
    ensures { ListAnswers O.numbers (fitted (rows_of (column_in O.numbers list.entry))) result out.old out.new }
{
    let n = list.row_count();
    let m = copy_rows::measure_rows(list);
    if !out.has_room(n, m) {
        return Err(Refusal::ShortOutput);
    }
    copy_rows::write_rows(list, out);
    answers::list_answer(out, n, m)
}

// Sets every byte to 0.
pub fn clear_u8(bytes: &mut [u8])
    ensures { bytes.new ≡ replicate (length bytes.old) 0 }
{
    bytes.fill(0);
}

// Sets every offset to 0.
fn clear_offsets<O: Offset>(offsets: &mut [O])
    ensures { O.numbers offsets.new ≡ replicate (length offsets.old) (pos 0) }
{
    for i in 0..offsets.len() {
        offsets::put_offset(offsets, i, 0);
    }
}

// Sets every value, and every byte of their bitmap, to 0.
fn clear_values(out: &mut ValueOutput)
    ensures values { out.new.values.now ≡ replicate (length out.old.values.now) (pos 0) }
    ensures bits { out.new.bits.now ≡ replicate (length out.old.bits.now) 0 }
    ensures same { SameValues out.old out.new }
{
    out.values.fill(0);
    clear_u8(out.bits);
}

// Sets every slot of a tray to 0.
pub fn clear<O: Offset>(out: &mut ListOutput<O>)
    ensures { Clears O.numbers out.old out.new }
{
    clear_offsets(out.offsets);
    clear_u8(out.rows);
    clear_values(out.elements);
}
