// The refusals that every operation starts with, and the last one. An inner crate: its callers meet what it asks.
#![tactic(auto)]

ghost use Rattle.column.specs.Columns.{column_in};
ghost use Rattle.model.specs.Answers.{refused_by};
ghost use Rattle.model.specs.Asked.{asked_list, asked_values};
ghost use Rattle.model.specs.Lengths.{room_for, value_room_for};
ghost use Rattle.model.specs.Limits.{largest};
ghost use Rattle.model.specs.Outcome.{columns_refusal, made};
ghost use Rattle.std.specs.Prelude.{◌<◌, ◌||◌, [], ◌∷◌, ◌≡◌};

use column::lists::ListColumn;
use model::offsets::Offset;
use model::{ListLengths, ListSlots, Refusal, ValueLengths, ValueSlots};

// A starting bit over 7, bad offsets and a short bitmap of a list column, in this order.
#[tactic(auto, unfolding(model::specs::Outcome::columns_refusal, model::specs::Basics::any, model::specs::Column::refusal13, model::specs::Column::refusal2))]
pub fn list_refusal<O: Offset>(list: ListColumn<O>) -> Result<(), Refusal>
    ensures { refused_by result ≡ columns_refusal (column_in O.numbers list.entry ∷ []) [] }
{
    if list.rows.is_start_over() || list.elements.bits.is_start_over() {
        return Err(Refusal::BadStartingBit);
    }
    if list.has_bad_offsets() {
        return Err(Refusal::BadOffsets);
    }
    if list.rows.is_short(list.row_count()) {
        return Err(Refusal::ShortBitmap);
    }
    if list.elements.bits.is_short(list.elements.values.len()) {
        return Err(Refusal::ShortBitmap);
    }
    Ok(())
}

// The lengths of the result form of n rows and m elements.
#[tactic(auto, unfolding(model::specs::Asked::asked_list))]
pub fn lengths_for(n: usize, m: usize) -> ListLengths
    requires { n < largest }
    ensures { asked_list result ≡ made (room_for n m) }
{
    Ok(ListSlots {
        offsets: n + 1,
        rows: bitmap::bytes_for(n),
        values: m,
        elements: bitmap::bytes_for(m),
    })
}

// Those of n values.
#[tactic(auto, unfolding(model::specs::Asked::asked_values))]
pub fn value_lengths_for(n: usize) -> ValueLengths
    ensures { asked_values result ≡ made (value_room_for n) }
{
    Ok(ValueSlots {
        values: n,
        rows: bitmap::bytes_for(n),
    })
}
