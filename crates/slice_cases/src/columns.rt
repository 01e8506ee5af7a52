// Columns of slices, each bitmap with the bit that it starts at.
ghost use Rattle.bitmap.specs.Reads.{bits_in};
ghost use Rattle.column.specs.Columns.{column_in, values_in};
ghost use Rattle.model.specs.Column.{arguments, column};
ghost use Rattle.model.specs.Inner.{lent_bits};
ghost use Rattle.std.specs.Prelude.{◌≡◌};

use bitmap::Validity;
use column::elements::ValueColumn;
use column::lists::ListColumn;
use model::offsets::Offset;

// A bitmap whose first bit is bit start of its bytes.
pub fn bits<'a>(bytes: &'a [u8], start: usize) -> Validity<'a>
    ensures { bits_in result ≡ lent_bits bytes start }
{
    Validity { bytes, start }
}

// Values under a bitmap.
pub fn values<'a>(values: &'a [i64], bits: Validity<'a>) -> ValueColumn<'a>
    ensures { values_in result ≡ arguments values.entry.now (bits_in bits.entry) }
{
    ValueColumn { values, bits }
}

// Lists of elements under a bitmap.
pub fn lists<'a, O: Offset>(
    offsets: &'a [O],
    rows: Validity<'a>,
    elements: ValueColumn<'a>,
) -> ListColumn<'a, O>
    ensures { column_in O.numbers result ≡ column (O.numbers offsets.entry.now) (bits_in rows.entry) elements.entry.values.now (bits_in elements.entry.bits) }
{
    ListColumn {
        offsets,
        rows,
        elements,
    }
}
