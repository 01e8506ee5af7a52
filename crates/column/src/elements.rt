// Values and which of them are valid: read from a column, and written into a result.
ghost use Rattle.std.specs.Prelude.{◌/◌, ◌<◌, pos, get_or, length, set, ◌≡◌};
ghost use Rattle.bitmap.specs.Push.{Covers, push_bit};
ghost use Rattle.bitmap.specs.Reads.{bits_in};
ghost use Rattle.column.specs.Columns.{elem_in};
ghost use Rattle.column.specs.Outputs.{SameValues, value_room_in};
ghost use Rattle.model.specs.Basics.{pick};
ghost use Rattle.model.specs.Column.{nul};
ghost use Rattle.model.specs.Form.{fits_values, is_val, under_null, value_of};

use bitmap::Validity;

// What a null slot holds.
pub const UNDER_NULL: i64 = i64::MIN;

// Values, and which of them are valid: the elements of a list column, or an argument column.
#[derive(Clone, Copy)]
pub struct ValueColumn<'a> {
    pub values: &'a [i64],
    pub bits: Validity<'a>,
}

// The slices that values and their bitmap are written into.
#[derive(Drop)]
pub struct ValueOutput<'a> {
    pub values: &'a mut [i64],
    pub bits: &'a mut [u8],
}

// The value at i, or what a null slot holds.
fn value_or_null(values: &[i64], i: usize, on: bool) -> i64
    requires { i < length values.now }
    ensures { result ≡ pick on (get_or values.now i (pos 0)) under_null }
{
    if on { values[i] } else { UNDER_NULL }
}

impl ValueOutput<'_> {
    // Whether n values and their bitmap fit.
    pub fn has_room(&self, n: usize) -> bool
        ensures { result ≡ fits_values n (value_room_in self.now) }
    {
        n <= self.values.len() && bitmap::bytes_for(n) <= self.bits.len()
    }

    // Writes element i of a column as element k.
    #[tactic(auto, unfolding(model::specs::Form::value_of, model::specs::Form::is_val, model::specs::Column::elem_at))]
    pub fn put_elem(&mut self, column: ValueColumn, i: usize, k: usize)
        requires i_in_bounds { i < length column.values.now }
        requires covers { Covers (bits_in column.bits) (length column.values.now) }
        requires k_in_bounds { k < length self.old.values.now }
        requires k_in_bounds_2 { k / 8 < length self.old.bits.now }
        ensures values_after { self.new.values.now ≡ set self.old.values.now k (value_of (elem_in column.entry i)) }
        ensures bits_after { self.new.bits.now ≡ push_bit self.old.bits.now k (is_val (elem_in column.entry i)) }
        ensures same { SameValues self.old self.new }
    {
        let valid = column.bits.is_valid(i, column.values.len());
        self.values[k] = value_or_null(column.values, i, valid);
        bitmap::push_bit(self.bits, k, valid);
    }

    // Writes a null as element k.
    #[tactic(auto, unfolding(model::specs::Form::value_of, model::specs::Form::is_val))]
    pub fn put_null(&mut self, k: usize)
        requires k_in_bounds { k < length self.old.values.now }
        requires k_in_bounds_2 { k / 8 < length self.old.bits.now }
        ensures values_after { self.new.values.now ≡ set self.old.values.now k (value_of nul) }
        ensures bits_after { self.new.bits.now ≡ push_bit self.old.bits.now k (is_val nul) }
        ensures same { SameValues self.old self.new }
    {
        self.values[k] = UNDER_NULL;
        bitmap::push_bit(self.bits, k, false);
    }
}
